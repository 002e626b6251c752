// The INFO signals as lines (document 01, "The line").
#![tactic(auto)]

pub mod info;

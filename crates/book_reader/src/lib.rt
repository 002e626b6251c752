// The book reader (document 01, "Bench book and report", refusals 11 to 14): it keeps the lent text
// by reference, and how far it has read.
#![tactic(auto)]

pub mod lent;
pub mod rest;
pub mod step;

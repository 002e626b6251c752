// One terminal's access to the D channel.
#![tactic(auto)]

pub mod access;

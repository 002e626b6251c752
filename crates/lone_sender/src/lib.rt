// Periods in which one terminal alone sends on the D channel, without a look at each terminal.
#![tactic(auto)]

pub mod alone;
pub mod follow;
pub mod lone;
pub mod search;

// The D opportunities of a period over the lent terminal records.
#![tactic(auto)]

pub mod opportunity;
pub mod part;
pub mod rest;
pub mod tally;

// A heard period: what a heard line is, and what a lent line shows.
#![tactic(auto)]

pub mod heard;
pub mod sensing;

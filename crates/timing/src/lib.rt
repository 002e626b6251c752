// Counts of periods and D opportunities, and timers.
#![tactic(auto)]

pub mod counts;
pub mod timers;

// Still buses: how far one can be stepped at once, and that step.
#![tactic(auto)]

pub mod ahead;
pub mod leap;
pub mod reach;

// A period's hearing over the lent terminal records, and the timers due at the next one's start.
#![tactic(auto)]

pub mod hears;
pub mod listen;
pub mod silence;

// The notes of a call on the bus in lent room, as lines of the report (document 01, "Bench book and
// report") or as octets.
#![tactic(auto)]

pub mod event;
pub mod period;

// Reading and writing frames for a host that passes only numbers and octets (document 01, "The
// line"; refusals 2 and 10).
#![tactic(auto)]

pub mod fields;
pub mod read;
pub mod write;

// The two frames (document 01, "Network to terminals" and "Terminals to network"): their fields,
// their bits and the writer.
#![tactic(auto)]

pub mod fields;
mod word;
pub mod write;

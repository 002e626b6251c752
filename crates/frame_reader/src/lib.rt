// The frame reader (document 01, "The line"; refusals 2 and 10), and what is taken from a line at
// symbol level.
#![tactic(auto)]

pub mod read;

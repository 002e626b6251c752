// Text as octets (document 01, "Bench book and report", first paragraph): where a piece ends, the
// fields of a line as the parts of it that they are, tests of a whole text.
#![tactic(auto)]

pub mod field;
pub mod octets;
pub mod part;
pub mod piece;
pub mod same;

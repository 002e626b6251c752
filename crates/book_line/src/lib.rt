// A line of a book (document 01, "Bench book and report"): whether its form is right, what it says,
// and its value in octets.
#![tactic(auto)]

pub mod event;
pub mod form;
pub mod line;
pub mod number;
pub mod value;

// Several terminals on one line, and hits (document 01, "The line" and "Bench book and report").
#![tactic(auto)]

pub mod combine;
pub mod hit;

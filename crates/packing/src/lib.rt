// A body's image packed into octets.
#![tactic(auto)]

pub mod bits;
pub mod image;

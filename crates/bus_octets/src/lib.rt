// A bus as octets of one length.
#![tactic(auto)]

pub mod laid;
pub mod layout;
pub mod numbers;
pub mod shown;
pub mod test;

// A bus that a C host lends as octets (document 01: "The C host passes only numbers and octet
// slices"): making one (fresh) and what a person asks of it (looking). What every call on such a
// bus looks at first is in lent. Crate host_steps has the calls that step one.
#![tactic(auto)]

pub mod fresh;
pub mod lent;
pub mod looking;

// A C host's calls that step a bus which it lends as octets (document 01: "The C host passes only
// numbers and octet slices"): an event, a period, a run of periods (stepping, by way of held), with
// the notes as octets in lent room (notes). Crate host_bus has the calls that make and show one.
#![tactic(auto)]

mod held;
pub mod notes;
pub mod stepping;

// Notes in lent room, as text (document 01, "Bench book and report") or as octets. Every function
// whose name begins with `put` puts its part behind the `wrote` octets written so far, as much of
// it as there is room for, and gives how many octets are written then. The room and that number are
// no struct: each function would have to ensure, in a second clause, that its field is the same room.
#![tactic(auto)]

pub mod form;
pub mod hex;
pub mod low;
pub mod note;
pub mod number;
pub mod room;
pub mod table;
pub mod value;

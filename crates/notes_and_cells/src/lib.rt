// What the cells of tables 6-2 and 6-3 of JT-I430 hold: the next state, what is done to a timer,
// and the notes; and the events of a book.
#![tactic(auto)]

pub mod cell;
pub mod events;
pub mod notes;

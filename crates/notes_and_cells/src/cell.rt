// A cell of table 6-2 or 6-3.
use super::notes::Notes;

// What a cell does to a timer. In table 6-2 START and STOP are for T3, in table 6-3 for T1.
// Kept: what may not change: timing's `started_by` and `timer_after` take any number as an action.
pub const KEEP: u8 = 0;

pub const START: u8 = 1;

pub const STOP: u8 = 2;

pub const START_T2: u8 = 3;

// What a table has at an event and a state.
#[derive(Clone, Copy)]
pub enum Cell {
    // The next state, what is done to a timer, and the notes.
    To(u8, u8, Notes),
    // "–": the state stays; the notes.
    Stay(Notes),
    // "/": does not exist.
    Impossible,
    // An empty cell: not defined by the layer 1 service.
    Absent,
}

pub const NO_NOTES: Notes = Notes(0, 0, 0, 0, 0);

// "–" with no notes.
pub const STAY: Cell = Cell::Stay(NO_NOTES);

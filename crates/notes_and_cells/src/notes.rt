// The notes of one unit's call (document 01, "Bench book and report"). specs/Names.antt gives each
// code its name and value.

// Kept: what may not change: `note_text::note::put_note` takes any number as a code.
pub const PH_ACT: u8 = 1;

pub const PH_DEACT: u8 = 2;

pub const MPH_ACT: u8 = 3;

pub const MPH_DEACT: u8 = 4;

pub const MPH_EI: u8 = 5;

pub const MPH_EI1: u8 = 6;

pub const MPH_EI2: u8 = 7;

pub const MPH_II_CONNECTED: u8 = 8;

pub const MPH_II_DISCONNECTED: u8 = 9;

pub const HEARD: u8 = 10;

pub const TORN: u8 = 11;

pub const DONE1: u8 = 12;

pub const DONE2: u8 = 13;

pub const DROPPED1: u8 = 14;

pub const DROPPED2: u8 = 15;

pub const REFUSED: u8 = 16;

// At most four notes: their number, and their codes in the order in which they stand. A place that
// has none is 0.
// Kept: what may not change: `note_text::note::put_notes` takes any count, and codes past it too.
#[derive(Clone, Copy)]
pub struct Notes(pub u8, pub u8, pub u8, pub u8, pub u8);

// The events of a book by number, in the order in which document 01 names them; 0 is none.
// Kept: what may not change: bus_calls' `event` takes any number and refuses what is no event.
pub const ON: u8 = 1;

pub const OFF: u8 = 2;

pub const AR: u8 = 3;

pub const DR: u8 = 4;

pub const D1: u8 = 5;

pub const D2: u8 = 6;

pub const HIT: u8 = 7;

pub const END: u8 = 8;

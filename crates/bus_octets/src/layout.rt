// Where the parts of a bus stand among its octets. specs/Layout.antt has the whole layout.
use bus_event::event::IMAGES_ROOM;
use combining::combine::TERMINALS;
use hdlc::LONGEST_BODY;
use symbols::LINE_LENGTH;

// The layout's version.
pub const VERSION: u8 = 2;

// How many octets the record and a terminal have. What their fields leave of them is reserved.
pub const RECORD_LENGTH: usize = 112;

pub const TERMINAL_LENGTH: usize = 24;

// Where the terminals begin, behind the record; behind them the letters of the hit, the reader's
// octets and the images; and the length of all.
pub const TERMINALS_AT: usize = RECORD_LENGTH;

pub const LETTERS_AT: usize = TERMINALS_AT + TERMINALS * TERMINAL_LENGTH;

pub const OCTETS_AT: usize = LETTERS_AT + LINE_LENGTH;

pub const IMAGES_AT: usize = OCTETS_AT + LONGEST_BODY;

pub const BUS_LENGTH: usize = IMAGES_AT + IMAGES_ROOM;

// How far a book has come.
ghost use Rattle.std.specs.Prelude.{◌≡◌};
ghost use Rattle.book_go_on.specs.Progress as spec;

use book_reader::step::BEFORE_FIRST_LINE;
use bus_record::record::BusRecord;
use terminal::Terminal;

// What is kept of a book between calls.
#[derive(Clone, Copy)]
pub struct Progress {
    pub bus: BusRecord,
    pub terminals: [Terminal; 8],
    // How far the book's reader has come (crate `book_reader`).
    pub stage: u8,
    // Whether the report's first line is written, and whether all of it is.
    pub begun: bool,
    pub over: bool,
}

// What a call gives back: how far the book has come, the octets taken of the text and written into
// the room, and why it stopped (0: it goes on). Between the steps of a call it is kept so, too;
// there `taken` is what the last step has taken.
#[derive(Clone, Copy)]
pub struct GoneOn {
    pub progress: Progress,
    pub taken: usize,
    pub wrote: usize,
    pub why: u8,
}

// Why a call has stopped: it needs text, it needs room, or the book is over.
pub const TEXT: u8 = 1;

pub const ROOM: u8 = 2;

pub const OVER: u8 = 3;

impl Progress {
    // Gives a book of which nothing has been read, on a fresh bus.
    pub fn fresh() -> Self
        ensures { result ≡ spec.fresh_progress }
    {
        let bus = BusRecord::fresh();
        let t = Terminal::fresh();
        let terminals = [t; 8];
        Progress {
            bus,
            terminals,
            stage: BEFORE_FIRST_LINE,
            begun: false,
            over: false,
        }
    }
}

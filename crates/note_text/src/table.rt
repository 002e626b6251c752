// The notes by their codes: how each is named, and what of its value the code leaves open.
ghost use Rattle.std.specs.Prelude.{◌≡◌};
ghost use Rattle.note_text.specs.Room.{Put};
ghost use Rattle.note_text.specs.LineParts.{named, open_as};

use super::room::put;
use notes_and_cells::notes::{HEARD, REFUSED};

// What is left open of a note's value: nothing, a body, a number.
#[derive(Clone, Copy)]
pub enum OpenValue {
    Nothing,
    Body,
    Number,
}

// One more than the last code: where numbers that are no code stand in the table.
const NO_CODE: usize = REFUSED as usize + 1;

// For each code, from 0 on: a space, the note's name, a space, and the value where the code decides
// it.
const NAMES: [u8; PLACES[NO_CODE + 1] as usize] =
    *b"  - PH-ACT - PH-DEACT - MPH-ACT - MPH-DEACT - MPH-EI - MPH-EI1 - MPH-EI2 - \
    MPH-II connected MPH-II disconnected heard  torn - done1 - done2 - dropped1 - dropped2 - refused   -";

// Where each code's part begins; the last one's end.
const PLACES: [u8; NO_CODE + 2] = [
    0, 3, 12, 23, 33, 45, 54, 64, 74, 91, 111, 118, 125, 133, 141, 152, 163, 172, 175,
];

// Puts the note's name between spaces, and the value where the code decides it.
pub(crate) fn put_name(room: &mut [u8], wrote: usize, code: u8) -> usize
    ensures { Put room.old wrote (named code) result room.new }
{
    let k = (code as usize).min(NO_CODE);
    let start = PLACES[k] as usize;
    let end = PLACES[k + 1] as usize;
    put(room, wrote, &NAMES[start..end])
}

// The codes that leave something of the value open, each with what it leaves open.
const OPEN: [(u8, OpenValue); 2] = [(HEARD, OpenValue::Body), (REFUSED, OpenValue::Number)];

// Gives what a code leaves open of the value.
pub(crate) fn open_as(code: u8) -> OpenValue
    ensures { result ≡ open_as code }
{
    for (open, value) in &OPEN {
        if *open == code {
            return *value;
        }
    }
    OpenValue::Nothing
}

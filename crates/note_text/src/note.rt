// Notes as lines of the report ("The fields are the period, the unit, the note and its value."), or
// as octets for a host.
ghost use Rattle.bus_rules.specs.Bus.{notes_of};
ghost use Rattle.std.specs.Prelude.{[]};
ghost use Rattle.notes_and_cells.specs.Notes.{noted};
ghost use Rattle.note_text.specs.Room.{Put};
ghost use Rattle.note_text.specs.NoteOctets.{note_octets};
ghost use Rattle.note_text.specs.NoteText.{note, note_line, note_in, notes_in, heading, stopped_line};

use super::form::Form;
use super::low::{put_half, put_word};
use super::number::put_decimal;
use super::room::put;
use super::table::put_name;
use super::value::put_value;
use hdlc::LONGEST_BODY;
use notes_and_cells::notes::Notes;

// The most digits of a number below 2^32.
const MOST_DIGITS: usize = 10;
// The longest line without a body: two numbers, `MPH-II disconnected`, a space behind each number,
// and LF.
pub const LINE_ROOM: usize = 2 * (MOST_DIGITS + 1) + 19 + 1;
// The line of the longest body, of a unit of one digit: the period, the unit and `heard`, a space
// behind each, two digits for each octet, and LF.
pub const HEARD_ROOM: usize = (MOST_DIGITS + 1) + (1 + 1) + (5 + 1) + 2 * LONGEST_BODY + 1;
// A note as octets takes these, and the octets of its value.
pub const OCTETS_ROOM: usize = 8;

// Puts the line of a note.
fn put_line(room: &mut [u8], wrote: usize, period: u64, unit: u32, code: u8, value: &[u8]) -> usize
    ensures { Put room.old wrote (note_line (note period unit code value.now)) result room.new }
{
    let a = put_decimal(room, wrote, period);
    let b = put(room, a, b" ");
    let c = put_decimal(room, b, unit as u64);
    let d = put_name(room, c, code);
    let e = put_value(room, d, code, value);
    put(room, e, b"\n")
}

// Puts the octets of a note: its code, its unit, how many octets its value has, its period and its
// value. A number that needs more octets than it gets loses the high-order ones.
fn put_octets(
    room: &mut [u8],
    wrote: usize,
    period: u64,
    unit: u32,
    code: u8,
    value: &[u8],
) -> usize
    ensures { Put room.old wrote (note_octets (note period unit code value.now)) result room.new }
{
    let a = put(room, wrote, &[code, (unit % 256) as u8]);
    let b = put_half(room, a, (value.len() % 65536) as u16);
    let c = put_word(room, b, (period % 4294967296) as u32);
    put(room, c, value)
}

// Puts a note in the form asked for.
// Kept: what may not change: `put_note` takes any number as the code, and says what is put for it.
pub fn put_note(
    form: Form,
    room: &mut [u8],
    wrote: usize,
    period: u64,
    unit: u32,
    code: u8,
    value: &[u8],
) -> usize
    ensures { Put room.old wrote (note_in form (note period unit code value.now)) result room.new }
{
    match form {
        Form::Line => put_line(room, wrote, period, unit, code, value),
        Form::Octets => put_octets(room, wrote, period, unit, code, value),
    }
}

// Puts a note whose value its code decides.
pub fn put_plain(
    form: Form,
    room: &mut [u8],
    wrote: usize,
    period: u64,
    unit: u32,
    code: u8,
) -> usize
    ensures { Put room.old wrote (note_in form (note period unit code [])) result room.new }
{
    put_note(form, room, wrote, period, unit, code, b"")
}

// Puts a unit's notes.
pub fn put_notes(
    form: Form,
    room: &mut [u8],
    wrote: usize,
    period: u64,
    unit: u32,
    notes: Notes,
) -> usize
    ensures { Put room.old wrote (notes_in form (notes_of period unit (noted notes))) result room.new }
{
    let codes = [notes.1, notes.2, notes.3, notes.4];
    let count = (notes.0 as usize).min(4);
    let mut at = wrote.min(room.len());
    for code in &codes[..count] {
        at = put_plain(form, room, at, period, unit, *code);
    }
    at
}

// Puts the report's first line: "The report's first line is printed for every book."
#[tactic(auto, unfolding(crate::specs::NoteText::heading))]
pub fn put_heading(room: &mut [u8], wrote: usize) -> usize
    ensures { Put room.old wrote heading result room.new }
{
    put(room, wrote, b"period unit note value\n")
}

// Puts the last line of a stopped book: "the last line is `- - stopped` and the number"
// Kept: what may not change: `put_stopped` takes any number, also one that no reason has.
pub fn put_stopped(room: &mut [u8], wrote: usize, number: u8) -> usize
    ensures { Put room.old wrote (stopped_line number) result room.new }
{
    let a = put(room, wrote, b"- - stopped ");
    let b = put_decimal(room, a, number as u64);
    put(room, b, b"\n")
}

// What a line says: its form is judged, and its period, unit and event are read.
ghost use Rattle.std.specs.Prelude.{◌≡◌};
ghost use Rattle.book_line.specs.Judging as spec;

use crate::event::event_named;
use crate::form::value_fits;
use crate::number::digits;
use refusals::Refusal;
use text::field::{Ends, field, split};

// The most characters of a line, its LF included.
pub const LONGEST_LINE: usize = 600;

// The fields of a line, in order.
const PERIOD: usize = 0;

const UNIT: usize = 1;

const EVENT: usize = 2;

const VALUE: usize = 3;

// What a line of right form says, and where its fields end: the value is the last of them.
#[derive(Clone, Copy)]
pub struct Entry {
    pub period: u32,
    pub unit: u32,
    pub event: u8,
    pub ends: Ends,
}

// Judges four fields with these ends.
fn judge_fields(
    period: &[u8],
    unit: &[u8],
    name: &[u8],
    value: &[u8],
    ends: Ends,
) -> Result<Entry, Refusal>
    ensures { result ≡ spec.judged_fields period.now unit.now name.now value.now ends }
{
    let period = digits(period)?;
    let unit = digits(unit)?;
    let event = event_named(name).ok_or(Refusal::WrongLine)?;
    if !value_fits(event, value) {
        return Err(Refusal::WrongLine);
    }
    Ok(Entry {
        period,
        unit,
        event,
        ends,
    })
}

// Judges a line, its LF left off, by the four fields into which it is split. A line of the wrong
// form is turned down.
pub fn judge(line: &[u8]) -> Result<Entry, Refusal>
    ensures { result ≡ spec.judged line.now }
{
    if line.len() >= LONGEST_LINE {
        return Err(Refusal::WrongLine);
    }
    let ends = split(line);
    if ends.fourth != line.len() {
        return Err(Refusal::WrongLine);
    }
    judge_fields(
        field(line, ends, PERIOD),
        field(line, ends, UNIT),
        field(line, ends, EVENT),
        field(line, ends, VALUE),
        ends,
    )
}

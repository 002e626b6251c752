// The value of a note, where its code does not decide it.
ghost use Rattle.std.specs.Prelude.{◌≡◌};
ghost use Rattle.note_text.specs.Room.{Put};
ghost use Rattle.note_text.specs.NoteText.{note_number};
ghost use Rattle.note_text.specs.LineParts.{open_as, open_value};

use super::hex::put_hex;
use super::number::put_decimal;
use super::table::{OpenValue, open_as};

// Gives the number that up to three octets stand for, the low-order octet first.
fn number_of(value: &[u8]) -> u32
    ensures { result ≡ note_number value.now }
{
    let low = value.get(0).copied().unwrap_or(0);
    let middle = value.get(1).copied().unwrap_or(0);
    let high = value.get(2).copied().unwrap_or(0);
    u32::from_le_bytes([low, middle, high, 0])
}

// Puts what the code leaves open of the value.
pub(crate) fn put_value(room: &mut [u8], wrote: usize, code: u8, value: &[u8]) -> usize
    ensures { Put room.old wrote (open_value (open_as code) value.now) result room.new }
{
    match open_as(code) {
        OpenValue::Nothing => wrote.min(room.len()),
        OpenValue::Body => put_hex(room, wrote, value),
        OpenValue::Number => put_decimal(room, wrote, number_of(value) as u64),
    }
}

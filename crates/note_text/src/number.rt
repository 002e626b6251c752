// Numbers as text.
ghost use Rattle.note_text.specs.Room.{Put};
ghost use Rattle.note_text.specs.NoteText.{decimal};

use super::room::put;
use itoa::Buffer;

// Puts a number in decimal, without leading zeros.
#[tactic(auto, using(crate::proofs::DecimalLaws::decimal_same))]
pub fn put_decimal(room: &mut [u8], wrote: usize, n: u64) -> usize
    ensures { Put room.old wrote (decimal n) result room.new }
{
    let mut digits = Buffer::new();
    put(room, wrote, digits.format(n).as_bytes())
}

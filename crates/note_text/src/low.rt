// Numbers as octets, the low-order octet first.
ghost use Rattle.note_text.specs.Room.{Put};
ghost use Rattle.note_text.specs.LowFirst.{half, word, double};

use super::room::put;

// Puts a number in two octets.
pub fn put_half(room: &mut [u8], wrote: usize, n: u16) -> usize
    ensures { Put room.old wrote (half n) result room.new }
{
    put(room, wrote, &n.to_le_bytes())
}

// Puts a number in four octets.
pub fn put_word(room: &mut [u8], wrote: usize, n: u32) -> usize
    ensures { Put room.old wrote (word n) result room.new }
{
    put(room, wrote, &n.to_le_bytes())
}

// Puts a number in eight octets.
pub fn put_double(room: &mut [u8], wrote: usize, n: u64) -> usize
    ensures { Put room.old wrote (double n) result room.new }
{
    put(room, wrote, &n.to_le_bytes())
}

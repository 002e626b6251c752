// Text in lent room.
ghost use Rattle.std.specs.Prelude.{◌≡◌};
ghost use Rattle.note_text.specs.Room.{Put};

// Puts a text into the room, behind the `wrote` octets written so far, as much of it as there is
// room for, and gives how many octets are written then.
// Kept: no plainer as a struct: each of 34 functions gets a second clause, on its `&mut`'s name.
pub fn put(room: &mut [u8], wrote: usize, text: &[u8]) -> usize
    ensures { Put room.old wrote text.now result room.new }
{
    let start = wrote.min(room.len());
    let count = text.len().min(room.len() - start);
    for i in 0..count {
        room[start + i] = text[i];
    }
    start + count
}

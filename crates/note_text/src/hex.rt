// Octets in hexadecimal.
ghost use Rattle.std.specs.Prelude.{◌≡◌, ◌<◌};
ghost use Rattle.note_text.specs.Room.{Put};
ghost use Rattle.note_text.specs.NoteText.{hex_code, hex_of};

use super::room::put;

// The code ten below that of `a`, so that 10 gives `a`.
const BEFORE_A: u8 = b'a' - 10;

// Gives the lower-case digit of a number below 16.
#[tactic(auto, unfolding(crate::specs::NoteText::hex_code))]
fn hex_digit(d: u8) -> u8
    requires { d < 16 }
    ensures { result ≡ hex_code d }
{
    if d < 10 { b'0' + d } else { BEFORE_A + d }
}

// Puts two digits for each octet, the high one first.
pub fn put_hex(room: &mut [u8], wrote: usize, octets: &[u8]) -> usize
    ensures { Put room.old wrote (hex_of octets.now) result room.new }
{
    let mut at = wrote.min(room.len());
    for o in octets {
        let high = hex_digit(*o / 16);
        let low = hex_digit(*o % 16);
        at = put(room, at, &[high, low]);
    }
    at
}

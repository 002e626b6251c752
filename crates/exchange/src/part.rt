// One terminal's part in a D opportunity.
ghost use Rattle.std.specs.Prelude.{◌≡◌};
ghost use Rattle.exchange.specs.Part.{image_bit, taken};

use super::tally::Tally;
use combining::combine::TERMINALS;
use packing::image::{IMAGE_ROOM, packed_bit};
use table_6_2::F7;
use terminal::Terminal;

// The bits of one image's room: eight images are lent one after the other, each in octets for the
// longest.
const IMAGE_BITS: u16 = 8 * IMAGE_ROOM as u16;

// A terminal after its part, and the tally with it added.
#[derive(Clone, Copy)]
pub struct Part {
    pub terminal: Terminal,
    pub tally: Tally,
}

// Gives bit number `sent`, from 0, of the image lent with terminal i; 1 where there is none.
#[tactic(auto, unfolding(crate::specs::Part::image_bit))]
pub fn image_bit(images: &[u8], i: usize, sent: u16) -> bool
    ensures { result ≡ image_bit images.now i sent }
{
    if i < TERMINALS {
        if sent < IMAGE_BITS {
            return packed_bit(images, (i as u16) * IMAGE_BITS + sent);
        }
    }
    true
}

// Takes terminal i through the E that has come and adds it to the tally: outside F7 it sends 1.
#[tactic(auto, using(crate::proofs::Images::image_at), unfolding(crate::specs::Part::taken, crate::specs::Part::terminal_after_e, crate::specs::Part::tally_with, crate::specs::Part::completed_class, bus_rules::specs::Exchange::station_after_e, bus_rules::specs::Exchange::d_of, bus_rules::specs::Exchange::access_step_of))]
pub fn one_part(terminal: Terminal, images: &[u8], i: usize, tally: Tally) -> Part
    ensures { result ≡ taken images.now i tally terminal }
{
    if terminal.state == F7 {
        let before = terminal.access;
        let turn = before.access_step(tally.e, image_bit(images, i, before.sent));
        Part {
            terminal: terminal.with_access(turn.access),
            tally: tally.also(terminal.state, turn.d, turn.done),
        }
    } else {
        Part {
            terminal,
            tally: tally.also(terminal.state, true, 0),
        }
    }
}

// What a lent line of 48 symbols shows: worked out once for a period, and then heard by the network
// end, or by every powered terminal.
ghost use Rattle.std.specs.Prelude.{◌≡◌};
ghost use Rattle.heard_line.specs.Calls as calls;

use super::heard::{Downward, Upward};
use frame_reader::read::a_bit;
use framed::{framed_down, framed_up, has_pulse};
use info::info::is_info1;
use refusals::Refusal;

// Works out what a downward line shows, or refuses what is no line.
#[tactic(auto, unfolding(crate::specs::Calls::sensed_down, crate::specs::Sensing::shown_down))]
pub fn sense_down(line: &[u8]) -> Result<Downward, Refusal>
    ensures { result ≡ calls.sensed_down line.now }
{
    Ok(Downward {
        pulse: has_pulse(line)?,
        framed: framed_down(line)?,
        a: a_bit(line)?,
    })
}

// Works out what an upward line shows, or refuses what is no line.
#[tactic(auto, unfolding(crate::specs::Calls::sensed_up, crate::specs::Sensing::shown_up))]
pub fn sense_up(line: &[u8]) -> Result<Upward, Refusal>
    ensures { result ≡ calls.sensed_up line.now }
{
    Ok(Upward {
        pulse: has_pulse(line)?,
        framed: framed_up(line)?,
        info1: is_info1(line)?,
    })
}

// Writing a frame from lent octets.
ghost use Rattle.std.specs.Prelude.{◌≡◌, true, false, MatchResult};
ghost use Rattle.host_frames.specs.Octets.{up_part};
ghost use Rattle.refusals.specs.Numbers.{reply_of as number_of};
ghost use Rattle.host_frames.specs.Calls.{reply_of, left_of, accepts, frame_written};

use super::fields::{FA, FIELDS, FIRST_D, FIRST_E, M, down_from};
use frame::fields::{DownFields, UpFields};
use frame::write::{write_down, write_up};
use refusals::{Refusal, reply};
use symbols::fits;

// Tests whether octets stand for the fields of a frame, downward where `up` is 0, else upward.
#[tactic(auto, using(crate::proofs::Calls::accepts_downward, crate::proofs::Calls::accepts_upward))]
fn accepts(up: u32, octets: &[u8; FIELDS]) -> bool
    ensures { result ≡ accepts up octets.now }
{
    let downward = fits(&octets[FIRST_D..], FIELDS - FIRST_D, 1);
    if up == 0 {
        return downward;
    }
    let echoes = fits(&octets[FIRST_E..FA], FA - FIRST_E, 0);
    let rest = fits(&octets[M..], FIELDS - M, 0);
    downward & (echoes & rest)
}

// Gives the octets that a lent slice is, or refuses a slice that stands for no fields.
#[tactic(auto, using(crate::proofs::Calls::accepts_none))]
fn accepted(up: u32, fields: &[u8]) -> Result<&[u8; FIELDS], Refusal>
    ensures { MatchResult result
        (λ octets. (accepts up fields.now ≡ true) × (octets.now ≡ fields.now))
        (λ e. (accepts up fields.now ≡ false) × (e ≡ Refusal.WrongSlice)) }
{
    let octets = <&[u8; FIELDS]>::try_from(fields).map_err(|_| Refusal::WrongSlice)?;
    if accepts(up, octets) {
        Ok(octets)
    } else {
        Err(Refusal::WrongSlice)
    }
}

// Gives the fields of an upward frame among those of a downward one.
fn up_part(f: DownFields) -> UpFields
    ensures { result ≡ up_part f }
{
    UpFields {
        b1first: f.b1first,
        b2first: f.b2first,
        b1second: f.b1second,
        b2second: f.b2second,
        d: f.d,
        fa: f.fa,
    }
}

// Writes the frame of octets of fields.
#[tactic(auto, using(crate::proofs::Calls::written_refused, crate::proofs::Calls::written_downward, crate::proofs::Calls::written_upward))]
fn write_frame(up: u32, fields: &[u8], symbols: &mut [u8]) -> Result<(), Refusal>
    ensures reply { number_of result ≡ reply_of (frame_written up fields.now symbols.old) }
    ensures octets { symbols.new
        ≡ left_of (frame_written up fields.now symbols.old) symbols.old }
{
    let f = down_from(accepted(up, fields)?);
    if up == 0 {
        write_down(f, symbols)
    } else {
        write_up(up_part(f), symbols)
    }
}

// Writes the frame of 16 octets of fields, downward where `up` is 0, as 48 symbols and replies 0;
// or replies 2 for a wrong length or octet.
pub fn sbus_write_frame(up: u32, fields: &[u8], symbols: &mut [u8]) -> u32
    ensures reply { result ≡ reply_of (frame_written up fields.now symbols.old) }
    ensures octets { symbols.new
        ≡ left_of (frame_written up fields.now symbols.old) symbols.old }
{
    reply(write_frame(up, fields, symbols))
}

// Reading a frame into lent octets.
ghost use Rattle.std.specs.Prelude.{◌≡◌};
ghost use Rattle.refusals.specs.Numbers.{reply_of as number_of};
ghost use Rattle.host_frames.specs.Calls.{reply_of, left_of, read_as, frame_read};

use super::fields::{FIELDS, as_down, down_octets};
use frame::fields::DownFields;
use frame_reader::read::{read_down, read_up};
use refusals::{Refusal, reply};

// Reads a frame, downward where `up` is 0, else upward: the fields of an upward one are given with
// every other bit 0.
#[tactic(auto, using(crate::proofs::Calls::read_downward, crate::proofs::Calls::read_upward))]
fn read_as(up: u32, symbols: &[u8]) -> Result<DownFields, Refusal>
    ensures { result ≡ read_as up symbols.now }
{
    if up == 0 {
        return read_down(symbols);
    }
    Ok(as_down(read_up(symbols)?))
}

// Reads a frame, and puts the octets of its fields into `fields`.
#[tactic(auto, unfolding(crate::specs::Calls::frame_read))]
fn read_frame(up: u32, symbols: &[u8], fields: &mut [u8]) -> Result<(), Refusal>
    ensures reply { number_of result ≡ reply_of (frame_read up symbols.now fields.old) }
    ensures octets { fields.new
        ≡ left_of (frame_read up symbols.now fields.old) fields.old }
{
    if fields.len() != FIELDS {
        return Err(Refusal::WrongSlice);
    }
    let f = read_as(up, symbols)?;
    fields.copy_from_slice(&down_octets(f));
    Ok(())
}

// Reads 48 symbols, downward where `up` is 0, puts the fields' octets into `fields` and replies 0;
// or replies 2 for a wrong length or code, 10 for a line that no fields are written as.
pub fn sbus_read_frame(up: u32, symbols: &[u8], fields: &mut [u8]) -> u32
    ensures reply { result ≡ reply_of (frame_read up symbols.now fields.old) }
    ensures octets { fields.new
        ≡ left_of (frame_read up symbols.now fields.old) fields.old }
{
    reply(read_frame(up, symbols, fields))
}

// Writing frames as lines.
ghost use Rattle.std.specs.Prelude.{◌≡◌, ◌∷◌, cond, false, ◌<◌, length};
ghost use Rattle.symbols.specs.Symbols.{none, minus};
ghost use Rattle.symbols.specs.Calls.{has_line_length, reply, leaves};
ghost use Rattle.frame.specs.Polarity.{opposite, alternate, symbols};
ghost use Rattle.frame.specs.Down.{down_line};
ghost use Rattle.frame.specs.Up.{up_line};
ghost use Rattle.frame.specs.Word.{top_bits};

use super::fields::{DownFields, UpFields};
use super::word::{down_word, up_word};
use refusals::Refusal;
use symbols::{LINE_LENGTH, MINUS, NONE, PLUS};

// 2 to the 45th, the highest of 46 bits.
const TOP: u64 = 1 << 45;

// Gives the symbol of a bit: none for a 1, the pulse `next` for a 0.
fn symbol(b: bool, next: u8) -> u8
    ensures { result ≡ cond b none next }
{
    if b { NONE } else { next }
}

// Gives the polarity of the next pulse after the bit b, before which it was `next`: a 1 leaves it,
// a 0 turns it.
fn turned(b: bool, next: u8) -> u8
    requires { next < 4 }
    ensures value { result ≡ cond b next (opposite next) }
    ensures upper_bound { result < 4 }
{
    if b { next } else { 3 - next }
}

// Writes the highest of w's 46 bits, as many as `out` has octets, as symbols of which the first
// pulse is minus.
#[tactic(auto, using(crate::proofs::Emit::emit_start, crate::proofs::Emit::emit_next, crate::proofs::Emit::emit_done))]
fn put_bits(w: u64, out: &mut [u8])
    ensures { out.new ≡ alternate minus (top_bits (length out.old) w) }
{
    let mut bits = w;
    let mut next = MINUS;
    for place in out.iter_mut() {
        let b = bits / TOP == 1;
        *place = symbol(b, next);
        next = turned(b, next);
        bits = bits % TOP * 2;
    }
}

// Writes the line of a frame whose bits 3 to 48 are w's 46 bits, the highest first. Refuses `out`
// where it is not 48 long.
#[tactic(auto, using(crate::proofs::Emit::emitted))]
fn emit(w: u64, out: &mut [u8]) -> Result<(), Refusal>
    ensures reply { result ≡ reply (has_line_length out.old) }
    ensures octets { out.new
        ≡ leaves (has_line_length out.old) (symbols (false ∷ false ∷ top_bits 46 w)) out.old }
{
    if out.len() != LINE_LENGTH {
        return Err(Refusal::WrongSlice);
    }
    out[0] = PLUS;
    out[1] = MINUS;
    put_bits(w, &mut out[2..]);
    Ok(())
}

// Writes a downward frame. Refuses `out` where it is not 48 long.
#[tactic(auto, using(crate::proofs::Emit::of_bits), unfolding(crate::specs::Down::down_line))]
pub fn write_down(f: DownFields, out: &mut [u8]) -> Result<(), Refusal>
    ensures reply { result ≡ reply (has_line_length out.old) }
    ensures octets { out.new ≡ leaves (has_line_length out.old) (down_line f) out.old }
{
    emit(down_word(f), out)
}

// Writes an upward frame. Refuses `out` where it is not 48 long.
#[tactic(auto, using(crate::proofs::Emit::of_bits), unfolding(crate::specs::Up::up_line))]
pub fn write_up(f: UpFields, out: &mut [u8]) -> Result<(), Refusal>
    ensures reply { result ≡ reply (has_line_length out.old) }
    ensures octets { out.new ≡ leaves (has_line_length out.old) (up_line f) out.old }
{
    emit(up_word(f), out)
}

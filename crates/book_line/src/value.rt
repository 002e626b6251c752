// What a value says in octets: those of a body, the codes of a hit's letters.
ghost use Rattle.std.specs.Prelude.{◌≡◌, ℕ, ◌<◌, ◌+◌, ◌*◌};
ghost use Rattle.book_line.specs.Value as spec;
ghost use Rattle.book_line.specs.Laying as laying;

use crate::form::{ValueForm, form_of};
use crate::line::LONGEST_LINE;

// Room for the octets of the value of any line of right form: two characters an octet.
pub const VALUE_ROOM: usize = LONGEST_LINE / 2;

// Gives the number that a hexadecimal digit stands for.
#[tactic(auto, unfolding(crate::specs::Value::hex_digit))]
pub fn hex_digit(c: u8) -> u8
    ensures { result ≡ spec.hex_digit c }
{
    if c <= b'9' { c % 16 } else { (c % 16 + 9) % 16 }
}

// Gives the code of a hit letter.
#[tactic(auto, unfolding(crate::specs::Value::letter_code))]
pub fn letter_code(c: u8) -> u8
    ensures { result ≡ spec.letter_code c }
{
    match c {
        b'k' => 0,
        b'p' => 1,
        b'm' => 2,
        _ => 3,
    }
}

// Gives the octet that two hexadecimal digits write, the high one first.
#[tactic(auto, using(crate::proofs::Values::hex_digit_small))]
fn octet(high: u8, low: u8) -> u8
    ensures { result ≡ spec.hex_digit high * 16 + spec.hex_digit low }
{
    hex_digit(high) * 16 + hex_digit(low)
}

// Lays `count` octets into `out`, as many as there is room for, and gives their number: `octet`
// says each by its place.
fn lay<F: Fn(usize) -> u8>(count: usize, octet: F, out: &mut [u8]) -> usize
    requires { (n : ℕ) → n < count → F.pre octet n }
    ensures { laying.LaidBy (F.post octet) count out.old result out.new }
{
    let most = count.min(out.len());
    for n in 0..most {
        out[n] = octet(n);
    }
    most
}

// Writes the octets of an event's value into `out`, from its front, as many as there is room for,
// and gives their number.
#[tactic(auto, using(crate::proofs::Laying::laid_nothing, crate::proofs::Values::body_pairs, crate::proofs::Values::length_pairs, crate::proofs::Values::pairs_at, crate::proofs::Values::letters_at_lem), unfolding(crate::specs::Value::value_octets))]
pub fn octets(event: u8, value: &[u8], out: &mut [u8]) -> usize
    ensures { laying.Laid (spec.value_octets event value.now) out.old result out.new }
{
    match form_of(event) {
        ValueForm::Absent => 0,
        ValueForm::Body => lay(
            value.len() / 2,
            |n| octet(value[2 * n], value[2 * n + 1]),
            out,
        ),
        ValueForm::Letters => lay(value.len(), |n| letter_code(value[n]), out),
    }
}

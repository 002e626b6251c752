// Numbers of a line: a period, a unit.
ghost use Rattle.std.specs.Prelude.{◌≡◌};
ghost use Rattle.book_line.specs.Judging as spec;

use refusals::Refusal;
use text::octets::is_digit;

// The most digits of a number.
const MOST_DIGITS: usize = 7;

// Reads the number that a field writes in decimal. A field of the wrong form is turned down.
pub fn digits(f: &[u8]) -> Result<u32, Refusal>
    ensures { result ≡ spec.number_of f.now }
{
    if !((1 <= f.len()) & (f.len() <= MOST_DIGITS)) {
        return Err(Refusal::WrongLine);
    }
    let mut n: u32 = 0;
    for c in f {
        if !is_digit(*c) {
            return Err(Refusal::WrongLine);
        }
        n = n * 10 + u32::from(*c - b'0');
    }
    Ok(n)
}

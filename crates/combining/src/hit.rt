// Hits: letters applied to a line. The letters' codes are 0 for keep, 1 for plus, 2 for minus and 3
// for none.
ghost use Rattle.std.specs.Prelude.{◌≡◌, length};
ghost use Rattle.symbols.specs.Symbols.{line_length};
ghost use Rattle.symbols.specs.Calls.{reply, leaves};
ghost use Rattle.combining.specs.Hit.{struck, hit};
ghost use Rattle.combining.specs.Calls.{hit_fits};

use refusals::Refusal;
use symbols::{LINE_LENGTH, MINUS, NONE, PLUS, fits};

// The codes of the letters k, p, m and n.
// Kept: the C interface lends a hit's letters as octets, and `apply_hit` refuses every other code.
pub const KEEP_LETTER: u8 = 0;

pub const PLUS_LETTER: u8 = 1;

pub const MINUS_LETTER: u8 = 2;

pub const NONE_LETTER: u8 = 3;

// Gives the symbol that a letter makes of the symbol s.
fn struck(letter: u8, s: u8) -> u8
    ensures { result ≡ struck letter s }
{
    match letter {
        KEEP_LETTER => s,
        PLUS_LETTER => PLUS,
        MINUS_LETTER => MINUS,
        _ => NONE,
    }
}

// Applies 48 letters to a line, position by position.
#[tactic(auto, using(symbols::proofs::Fill::fill_done), unfolding(crate::specs::Hit::hit))]
fn strike(line: &mut [u8], letters: &[u8])
    requires line_len { length line.old ≡ line_length }
    requires letters_len { length letters.now ≡ line_length }
    ensures { line.new ≡ hit letters.now line.old }
{
    for i in 0..LINE_LENGTH {
        line[i] = struck(letters[i], line[i]);
    }
}

// Applies a hit. Refuses where `line` is no line or `letters` are not 48 letters.
#[tactic(auto, using(symbols::proofs::Lines::fits_length))]
pub fn apply_hit(line: &mut [u8], letters: &[u8]) -> Result<(), Refusal>
    ensures reply { result ≡ reply (hit_fits letters.now line.old) }
    ensures octets { line.new ≡ leaves (hit_fits letters.now line.old)
        (hit letters.now line.old) line.old }
{
    if fits(line, LINE_LENGTH, MINUS) && fits(letters, LINE_LENGTH, NONE_LETTER) {
        strike(line, letters);
        Ok(())
    } else {
        Err(Refusal::WrongSlice)
    }
}

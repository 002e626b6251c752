// Symbols and lines (document 01, "The line"): a line is 48 symbols in a lent slice. A lent line of
// another length, or with a code that is no symbol, is turned down with `Refusal::WrongSlice`, and
// then no lent octet changes. Of a slice that is written to, only the length counts.
#![tactic(auto)]

ghost use Rattle.std.specs.Prelude.{◌≡◌, true, false, MatchResult};
ghost use Rattle.symbols.specs.Symbols as spec;

use refusals::Refusal;

// The codes of the three symbols.
// Kept: the C interface lends a line as octets, and `fits` says of any octets whether they are one.
pub const NONE: u8 = 0;

pub const PLUS: u8 = 1;

pub const MINUS: u8 = 2;

// The number of symbols of a period.
pub const LINE_LENGTH: usize = 48;

// Tests whether s is n codes, each at most top. It goes to the end of s whatever its codes are:
// they nearly always fit, and without a way out at each code the loop takes sixteen at a time.
#[tactic(auto, using(crate::proofs::Scan::tested_next, crate::proofs::Lines::within_cons, crate::proofs::Lines::fits_done), unfolding(crate::specs::Symbols::fits))]
pub fn fits(s: &[u8], n: usize, top: u8) -> bool
    ensures { result ≡ spec.fits n top s.now }
{
    if s.len() != n {
        return false;
    }
    let mut ok = true;
    for code in s {
        ok &= *code <= top;
    }
    ok
}

// Gives the line that a lent slice is, or refuses a slice that is none.
#[tactic(auto, unfolding(crate::specs::Symbols::fits))]
pub fn as_line(s: &[u8]) -> Result<&[u8; LINE_LENGTH], Refusal>
    ensures { MatchResult result
        (λ line. (spec.is_line s.now ≡ true) × (line.now ≡ s.now))
        (λ e. (spec.is_line s.now ≡ false) × (e ≡ Refusal.WrongSlice)) }
{
    let line = <&[u8; LINE_LENGTH]>::try_from(s).map_err(|_| Refusal::WrongSlice)?;
    if fits(line, LINE_LENGTH, MINUS) {
        Ok(line)
    } else {
        Err(Refusal::WrongSlice)
    }
}

// Tests whether a and b are the same, code for code. It goes to their end wherever they differ: they
// nearly always are the same, and without a way out at each code the loop takes sixteen at a time.
pub fn same_symbols(a: &[u8], b: &[u8]) -> bool
    ensures { result ≡ spec.same_symbols a.now b.now }
{
    if a.len() != b.len() {
        return false;
    }
    let mut ok = true;
    for i in 0..a.len() {
        ok &= a[i] == b[i];
    }
    ok
}

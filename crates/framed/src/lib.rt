// Framed periods and pulses (document 01, "The line"). Each test refuses a lent slice that is no
// line, with `Refusal::WrongSlice`.
#![tactic(auto)]

ghost use Rattle.std.specs.Prelude.{◌≡◌, ◌+◌, ◌≤◌};
ghost use Rattle.symbols.specs.Symbols.{line_length};
ghost use Rattle.symbols.specs.Calls.{tested};
ghost use Rattle.framed.specs.Framed.{first_pulse, framed_in, framed_down, framed_up, has_pulse};

use refusals::Refusal;
use symbols::{LINE_LENGTH, MINUS, NONE, PLUS, as_line};

// Gives the first pulse of s, or none where s has no pulse.
#[tactic(auto, using(crate::proofs::Passing::pulse_here, crate::proofs::Passing::pulse_next, crate::proofs::Passing::pulse_none))]
fn first_pulse(s: &[u8]) -> u8
    ensures { result ≡ first_pulse s.now }
{
    for symbol in s {
        if *symbol != NONE {
            return *symbol;
        }
    }
    NONE
}

// Tests whether a line is framed: symbol 1 is plus, 2 is minus, and the first pulse in the n
// symbols from 3 on is minus.
#[tactic(auto, unfolding(crate::specs::Framed::framed_in))]
fn framed_in(line: &[u8; LINE_LENGTH], n: usize) -> bool
    requires { n + 2 ≤ line_length }
    ensures { result ≡ framed_in n line.now }
{
    line[0] == PLUS && line[1] == MINUS && first_pulse(&line[2..n + 2]) == MINUS
}

// Tests whether a downward line is framed: symbol 1 is plus, 2 is minus, and the first pulse in 3
// to 15 is minus.
pub fn framed_down(line: &[u8]) -> Result<bool, Refusal>
    ensures { result ≡ tested framed_down line.now }
{
    Ok(framed_in(as_line(line)?, 13))
}

// Tests the same of an upward line, with 3 to 14 in the place of 3 to 15.
pub fn framed_up(line: &[u8]) -> Result<bool, Refusal>
    ensures { result ≡ tested framed_up line.now }
{
    Ok(framed_in(as_line(line)?, 12))
}

// Tests whether a line has a pulse.
#[tactic(auto, unfolding(crate::specs::Framed::has_pulse))]
pub fn has_pulse(line: &[u8]) -> Result<bool, Refusal>
    ensures { result ≡ tested has_pulse line.now }
{
    Ok(first_pulse(as_line(line)?) != NONE)
}

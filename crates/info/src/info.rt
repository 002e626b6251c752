// The INFO signals as lines. Each call that writes one refuses what it is lent where it is not 48
// long, with `Refusal::WrongSlice`.
ghost use Rattle.std.specs.Prelude.{cond, ◌≡◌, ◌<◌, get_or};
ghost use Rattle.frame.specs.Polarity.{opposite};
ghost use Rattle.symbols.specs.Symbols.{none, line_length};
ghost use Rattle.symbols.specs.Calls.{has_line_length, reply, leaves, tested};
ghost use Rattle.info.specs.Info as spec;

use frame::fields::{CycleBits, DownFields, Four, UpFields};
use frame::write::{write_down, write_up};
use refusals::Refusal;
use symbols::{LINE_LENGTH, MINUS, NONE, PLUS, as_line, same_symbols};

// Writes INFO 0.
#[tactic(auto, using(crate::proofs::Lines::info0_filled))]
pub fn info0(out: &mut [u8]) -> Result<(), Refusal>
    ensures reply { result ≡ reply (has_line_length out.old) }
    ensures octets { out.new ≡ leaves (has_line_length out.old) spec.info0 out.old }
{
    if out.len() != LINE_LENGTH {
        return Err(Refusal::WrongSlice);
    }
    out.fill(NONE);
    Ok(())
}

// Gives the symbol at index i of INFO 1.
fn info1_symbol(i: usize) -> u8
    requires { i < line_length }
    ensures { result ≡ get_or spec.info1 i none }
{
    match i % 8 {
        0 => PLUS,
        1 => MINUS,
        _ => NONE,
    }
}

// Writes INFO 1.
#[tactic(auto, using(crate::proofs::Lines::info1_next, crate::proofs::Lines::info1_done))]
pub fn info1(out: &mut [u8]) -> Result<(), Refusal>
    ensures reply { result ≡ reply (has_line_length out.old) }
    ensures octets { out.new ≡ leaves (has_line_length out.old) spec.info1 out.old }
{
    if out.len() != LINE_LENGTH {
        return Err(Refusal::WrongSlice);
    }
    for (i, symbol) in out.iter_mut().enumerate() {
        *symbol = info1_symbol(i);
    }
    Ok(())
}

// Gives the fields of a downward frame with A, the B octets and the D bits at b, with the echo bits
// e and the cycle's bits.
fn filled(b: bool, e: Four, bits: CycleBits) -> DownFields
    ensures { result ≡ spec.filled_fields b e bits }
{
    let octet = if b { 255 } else { 0 };
    DownFields {
        b1first: octet,
        b2first: octet,
        b1second: octet,
        b2second: octet,
        e,
        d: Four::all(b),
        a: b,
        fa: bits.fa,
        m: bits.m,
        s: bits.s,
    }
}

// Writes INFO 2 with the cycle's bits.
pub fn info2_with(bits: CycleBits, out: &mut [u8]) -> Result<(), Refusal>
    ensures reply { result ≡ reply (has_line_length out.old) }
    ensures octets { out.new ≡ leaves (has_line_length out.old) (spec.info2_with bits) out.old }
{
    write_down(filled(false, Four::all(false), bits), out)
}

// Writes INFO 2 where no cycle runs.
pub fn info2(out: &mut [u8]) -> Result<(), Refusal>
    ensures reply { result ≡ reply (has_line_length out.old) }
    ensures octets { out.new ≡ leaves (has_line_length out.old) spec.info2 out.old }
{
    let bits = CycleBits {
        fa: false,
        m: false,
        s: false,
    };
    info2_with(bits, out)
}

// Writes INFO 3 with FA and the D bits d.
pub fn info3_with(fa: bool, d: Four, out: &mut [u8]) -> Result<(), Refusal>
    ensures reply { result ≡ reply (has_line_length out.old) }
    ensures octets { out.new ≡ leaves (has_line_length out.old) (spec.info3_with fa d) out.old }
{
    let f = UpFields {
        b1first: 255,
        b2first: 255,
        b1second: 255,
        b2second: 255,
        d,
        fa,
    };
    write_up(f, out)
}

// Writes INFO 3 where no cycle runs, with the D bits d.
pub fn info3(d: Four, out: &mut [u8]) -> Result<(), Refusal>
    ensures reply { result ≡ reply (has_line_length out.old) }
    ensures octets { out.new ≡ leaves (has_line_length out.old) (spec.info3 d) out.old }
{
    info3_with(false, d, out)
}

// Gives the symbol at the E bit e, where the last pulse before it is `last`: none for a 1, the
// opposite pulse for a 0.
fn echo(e: bool, last: u8) -> u8
    requires { last < 4 }
    ensures { result ≡ cond e none (opposite last) }
{
    if e { NONE } else { 3 - last }
}

// Gives the first pulse after that E, where the last one before it is `last`.
fn behind_echo(e: bool, last: u8) -> u8
    requires { last < 4 }
    ensures value { result ≡ cond e (opposite last) last }
    ensures upper_bound { result < 4 }
{
    if e { 3 - last } else { last }
}

// Puts the pulses of INFO 4 where no cycle runs into a line of nones: at F, at the L after it, at
// each E that is 0, at FA, at M, at S, and at the last L where the pulses between are odd in number.
// The first pulse after position 2 is minus, as if the pulse there were a plus: so the E at position
// 11 comes after PLUS.
fn put_pulses(e: Four, out: &mut [u8])
    requires { out.old ≡ spec.info0 }
    ensures { out.new ≡ spec.info4 e }
{
    let fa = behind_echo(e.first, PLUS);
    let m = behind_echo(e.second, fa);
    let s = behind_echo(e.third, m);
    let l = behind_echo(e.fourth, s);
    out[0] = PLUS;
    out[1] = MINUS;
    out[10] = echo(e.first, PLUS);
    out[13] = fa;
    out[23] = echo(e.second, fa);
    out[25] = m;
    out[34] = echo(e.third, m);
    out[36] = s;
    out[45] = echo(e.fourth, s);
    // Position 48 is a plus where the last pulse before it is a minus, else none. From position 3
    // on pulses alternate and the first is a minus: so they are odd in number up to position 47
    // exactly if the last of them is a minus. `l` is what a pulse at position 48 would be.
    out[47] = echo(l == MINUS, MINUS);
}

// Writes INFO 4 where no cycle runs, with the echo bits e.
pub fn info4(e: Four, out: &mut [u8]) -> Result<(), Refusal>
    ensures reply { result ≡ reply (has_line_length out.old) }
    ensures octets { out.new ≡ leaves (has_line_length out.old) (spec.info4 e) out.old }
{
    info0(out)?;
    put_pulses(e, out);
    Ok(())
}

// Writes INFO 4 with the cycle's bits and the echo bits e.
pub fn info4_with(bits: CycleBits, e: Four, out: &mut [u8]) -> Result<(), Refusal>
    ensures reply { result ≡ reply (has_line_length out.old) }
    ensures octets { out.new ≡ leaves (has_line_length out.old) (spec.info4_with bits e) out.old }
{
    write_down(filled(true, e, bits), out)
}

// Tests whether a line is exactly INFO 1.
pub fn is_info1(line: &[u8]) -> Result<bool, Refusal>
    ensures { result ≡ tested spec.is_info1 line.now }
{
    let line = as_line(line)?;
    let mut expected = [NONE; LINE_LENGTH];
    info1(&mut expected)?;
    Ok(same_symbols(line, &expected))
}

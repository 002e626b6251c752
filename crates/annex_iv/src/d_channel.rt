// IV.2.2: how a terminal answers on the D channel. The frame has 24 bits.
use dchannel::access::{Access, Class};
use std::io;

// Runs tests (a), (b) and (c) in a class. In (b) an echo differs from the first bit after the opening
// flag, a 1 or a 0, and from the closing flag's last 0, before which six 1s have been echoed.
pub(crate) fn tests(rt: &impl Print, class: Class) -> io::Result<()> {
    let k = number(class);
    for (low, last) in [(false, false), (false, true), (true, false), (true, true)] {
        mismatch(rt, k, low, last)?;
    }
    for (sent, count, last) in [(9, 0, true), (9, 0, false), (24, 6, false)] {
        starts_over(rt, k, sent, count, last)?;
    }
    starts_again(rt, class)?;
    returns(rt, k)
}

// Gives the number of a class, as a record holds it.
fn number(class: Class) -> u8 {
    match class {
        Class::One => 1,
        Class::Two => 2,
    }
}

// Gives a record that holds a frame of class k, of which `sent` bits have left, with the last of
// them, the levels and C as they are then.
fn holding(k: u8, low: bool, sent: u16, count: u8, last: bool) -> Access {
    Access {
        length: 24,
        sent,
        count,
        held: k,
        low1: low,
        low2: low,
        last,
    }
}

// Prints a level, and a bit that left with its echo, which differs.
fn echo(rt: &impl Print, low: bool, sent: bool) -> io::Result<()> {
    let level = if low { "low" } else { "normal" };
    let sent_bit = sent as u8;
    let echo_bit = !sent as u8;
    print!(rt; " {level} sent {sent_bit} echo {echo_bit}")
}

// Runs (a): an echo that differs stops the sending, and the next D is 1.
fn mismatch(rt: &impl Print, k: u8, low: bool, last: bool) -> io::Result<()> {
    print!(rt; "\nIV.2.2 a class {k}")?;
    echo(rt, low, last)?;
    let turn = holding(k, low, 9, 0, last).access_step(!last, false);
    let d = turn.d as u8;
    print!(rt; " D {d}")
}

// Runs (b): after an echo that differs, how many 1s of the echo go before the start.
fn starts_over(rt: &impl Print, k: u8, sent: u16, count: u8, last: bool) -> io::Result<()> {
    print!(rt; "\nIV.2.2 b class {k}")?;
    echo(rt, false, last)?;
    let turn = holding(k, false, sent, count, last).access_step(!last, false);
    settles(rt, "starts", turn.access)
}

// Runs (c) with a next frame: after a sent frame, how many 1s of the echo go before the next one's
// start.
fn starts_again(rt: &impl Print, class: Class) -> io::Result<()> {
    let k = number(class);
    print!(rt; "\nIV.2.2 c class {k} low")?;
    let before = done(k);
    settles(rt, "starts", before.hand(class, 24).unwrap_or(before))
}

// Runs (c) without one: how many 1s of the echo bring the terminal back to the normal level.
fn returns(rt: &impl Print, k: u8) -> io::Result<()> {
    print!(rt; "\nIV.2.2 c class {k} low")?;
    settles(rt, "normal", done(k))
}

// Gives the record after a frame of class k has been sent: the echo of its last bit, a 0, agrees.
fn done(k: u8) -> Access {
    let turn = holding(k, false, 24, 0, false).access_step(false, false);
    turn.access
}

// Prints C; how many 1s of the echo come, at most 20, until a held frame starts or, without one,
// both levels are normal; and C then.
fn settles(rt: &impl Print, what: &str, access: Access) -> io::Result<()> {
    let mut a = access;
    let mut ones = 0u8;
    for n in 0..20 {
        if is_settled(a) {
            break;
        }
        let turn = a.access_step(true, false);
        a = turn.access;
        ones = n + 1;
    }
    let before = access.count;
    let after = a.count;
    print!(rt; " C {before} {what} after {ones} at C {after}")
}

// Tests whether a held frame has started or, without one, both levels are normal.
fn is_settled(a: Access) -> bool {
    (0 < a.sent) | !((a.held != 0) | a.low1 | a.low2)
}

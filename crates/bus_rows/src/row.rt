// What the row of an event has, and that of a period. A row begins with the end of the line before
// it.
use super::bench::{Bench, NO_LETTERS};
use super::print::{note, notes, octets, word};
use bus_by_value::{HeldEvent, HeldRun, opportunity};
use bus_record::echo::first_tally;
use notes_and_cells::events::D1;
use notes_and_cells::notes::{DONE1, DONE2};
use std::io;
use table_6_2::F7;
use table_6_3::G3;
use terminal::Terminal;

// The events by their numbers, from 1 on. Behind those of a frame its octet is printed.
const EVENTS: [&str; 7] = ["on", "off", "ar", "dr", "d1 ", "d2 ", "hit "];

// Prints the row of an event, with its octet from D1 on, and what the call gives.
pub(crate) fn event(
    rt: &impl Print,
    period: u32,
    unit: u32,
    code: u8,
    octet: u8,
    g: HeldEvent,
) -> io::Result<()> {
    let name = word(&EVENTS, code);
    print!(rt; "\n{period:2} {unit} {name}")?;
    if D1 <= code {
        octets(rt, &[octet])?;
    }
    if g.told.reply != 0 {
        print!(rt; "  refused {}", g.told.reply)?;
    }
    notes(rt, unit, g.told.notes)
}

// Runs the four opportunities of a period without a hit, and prints the states after them and the
// pairs of E and D. Counts each E in G3 by the D before it.
pub(crate) fn exchange(rt: &impl Print, bench: &mut Bench) -> io::Result<()> {
    let mut pairs = [b' '; 12];
    let mut terminals = bench.terminals;
    let mut m = first_tally(bench.bus, &NO_LETTERS);
    for i in 0..4 {
        let last = m.echo;
        let after = opportunity(terminals, &bench.images, m);
        terminals = after.terminals;
        m = after.tally;
        pairs[i * 3 + 1] = b'0' | m.e as u8;
        pairs[i * 3 + 2] = b'0' | m.echo as u8;
        let at = ((last as usize) << 1 | m.e as usize) % 4;
        bench.echoes[at] = bench.echoes[at].wrapping_add((m.state == G3) as u32);
    }
    let period = bench.bus.periods.0;
    let state = bench.bus.network.state;
    let info = table_6_3::info_sent(state);
    print!(rt; "\n{period:2} G{state} I{info}")?;
    for t in terminals.iter().take(bench.used) {
        terminal(rt, *t)?;
    }
    rt.print(" ")?;
    rt.write_all(&pairs)
}

// Prints a terminal: state, INFO, and in F7 its C, X1 and X2: 8 and 10 are even, and the low level
// is one more.
fn terminal(rt: &impl Print, t: Terminal) -> io::Result<()> {
    let state = t.state;
    let info = table_6_2::info_sent(state);
    print!(rt; "  F{state} I{info}")?;
    if state != F7 {
        return rt.print("  -  -  -");
    }
    let count = t.access.count;
    // 8 or 9, and 10 or 11.
    let x1 = 8 | t.access.low1 as u8;
    let x2 = 10 | t.access.low2 as u8;
    print!(rt; " {count:2} {x1:2} {x2:2}")
}

// Prints the notes of a period: unit 0 with the octets of a heard body, the terminals, then those
// of timers due at the next one's start.
pub(crate) fn said(rt: &impl Print, p: HeldRun, body: &[u8]) -> io::Result<()> {
    let answer = p.answer;
    note(rt, 0, answer.said)?;
    octets(rt, &body[..(answer.body as usize).min(body.len())])?;
    notes(rt, 0, answer.network.hearing)?;
    for (i, of) in p.notes.iter().enumerate() {
        let unit = i as u32 + 1;
        note(rt, unit, completed(answer.done1, i, DONE1))?;
        note(rt, unit, completed(answer.done2, i, DONE2))?;
        notes(rt, unit, of.hearing)?;
    }
    notes(rt, 0, answer.network.timers)?;
    for (i, of) in p.notes.iter().enumerate() {
        notes(rt, i as u32 + 1, of.timers)?;
    }
    Ok(())
}

// Gives a note's code where the terminal at an index has completed a frame, else 0: bit i is for
// index i.
fn completed(done: u8, i: usize, code: u8) -> u8 {
    if i < 8 && (done >> i) % 2 == 1 {
        code
    } else {
        0
    }
}

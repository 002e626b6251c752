// The calls on a bus, period by period: document 01's bench book, and the test of the echo, annex
// IV.2.1 of JT-I430. `stdout` is written from document 01 and the standard.
//
// A row for an event has the period, the unit, the event and its value. A row for a period has,
// from left to right:
// - the period; the state of unit 0 and the INFO that it sends, as G3 I4;
// - for each terminal in use its state and the INFO that it sends, as F7 I3, and in F7, as figure
//   6-1 has them after the last E of the period: C, X1 and X2, the values of C at which a frame of
//   class 1 and of class 2 starts (8 and 10, at the low level 9 and 11);
// - four pairs: E11 D12, E24 D25, E35 D36, E46 D47, each E as the terminals hear it and each D as
//   unit 0 hears it;
// - the notes, each with its unit.
// States and notes are those of the calls. A call that runs periods hands back no bits: the pairs,
// C, X1 and X2 are those of the four D opportunities, called one by one beside it from the same
// record.
//
// In the first book terminal 1 activates the bus and sends a frame. In the second, for IV.2.1,
// unit 0 activates it, and the terminals start together: terminal 1, with body 01, sends a 1 where
// terminal 2, with body 00, sends a 0, and stops at the next E; terminal 2 is done, and its second
// frame waits for C = 9 while terminal 1 starts over at C = 8. Its last rows count what E follows
// each D in G3.
#![tactic(auto)]

use bench::Bench;
use notes_and_cells::events::{AR, D1, ON};
use std::io;

mod bench;
mod print;
mod row;

// The events of a book: unit, event, the octet of a frame, and the period before which the next
// event is given, or the book ends.
const DOCUMENT_01: [(u32, u8, u8, u32); 3] = [(1, ON, 0, 1), (1, AR, 0, 9), (1, D1, 0x00, 20)];

const IV_2_1: [(u32, u8, u8, u32); 6] = [
    (1, ON, 0, 0),
    (2, ON, 0, 1),
    (0, AR, 0, 8),
    (1, D1, 0x01, 8),
    (2, D1, 0x00, 16),
    (2, D1, 0x00, 33),
];

// Prints the rows of a book, and gives how often each E followed each D in G3.
fn book(rt: &impl Print, events: &[(u32, u8, u8, u32)], used: usize) -> io::Result<[u32; 4]> {
    let mut bench = Bench::fresh(used);
    for &(unit, code, octet, end) in events {
        bench.give(rt, unit, code, octet)?;
        bench.run_until(rt, end)?;
    }
    Ok(bench.echoes)
}

// Prints how often E was 0, and how often 1, after a D of 0 and after a D of 1.
fn echoes(rt: &impl Print, n: [u32; 4]) -> io::Result<()> {
    let [none_0, one_0, none_1, one_1] = n;
    print!(rt; "\nIV.2.1 D 0 echo 0:{none_0:2} 1:{one_0:2}")?;
    print!(rt; "\nIV.2.1 D 1 echo 0:{none_1:2} 1:{one_1:2}")?;
    rt.print("\n")
}

fn main(rt: HostRuntime) -> io::Result<()> {
    rt.print("document 01: the bench book")?;
    book(&rt, &DOCUMENT_01, 1)?;
    rt.print("\nIV.2.1: the echo")?;
    let counts = book(&rt, &IV_2_1, 2)?;
    echoes(&rt, counts)
}

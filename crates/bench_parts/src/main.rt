// The bench in parts, for tests: the first argument is the most octets of the book that are read at
// a time, and the room holds the notes of one period, so that calls stop for text and for room as
// often as they can. The report is the same.
#![tactic(auto)]

use book_line::number::digits;
use period_text::period::PERIOD_ROOM;
use std::env::Env;

// The most octets of a part, where the argument is missing or no number.
const ONE: u32 = 1;

// The most octets of an argument that is looked at: a longer one counts as missing.
const ARGUMENT_ROOM: usize = 4_096;

// Gives the number that the first argument writes.
fn part(rt: &HostRuntime) -> u32 {
    let mut word = [0u8; ARGUMENT_ROOM];
    let Ok(n) = rt.arg(1, &mut word) else {
        return ONE;
    };
    digits(&word[..n]).unwrap_or(ONE)
}

fn main(rt: HostRuntime) {
    let mut room = [0u8; PERIOD_ROOM];
    driver::run::run(&rt, &mut room, part(&rt) as usize);
}

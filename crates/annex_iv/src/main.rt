// Annex IV of JT-I430 run against the calls: tables IV-2 and IV-3 row by row, and the tests of
// IV.2.2. A row has its number, the state, the stimulus, the next state and the INFO that is sent
// there, as the annex has them; then the reply, the notes and the period at whose start each timer
// is due, as tables 6-2 and 6-3 and document 01 have them. `stdout` is written from those. IV.2.1,
// the echo, is in `bus_rows`.
#![tactic(auto)]

use dchannel::access::Class;
use frame::fields::Four;
use std::io;

mod d_channel;
mod network_end;
mod print;
mod table;
mod terminals;

// The period in which a stimulus comes.
const NOW: u32 = 1000;
// The four D or E bits of a line.
const ONES: Four = Four {
    first: true,
    second: true,
    third: true,
    fourth: true,
};

// Gives a timer before a stimulus: it is due now, or, if it runs, at `later`, or does not run.
fn due(now: bool, runs: bool, later: u64) -> u64 {
    if now {
        return NOW as u64;
    }
    if runs { later } else { 0 }
}

fn main(rt: HostRuntime) -> io::Result<()> {
    rt.print("JT-I430, annex IV")?;
    network_end::rows(&rt)?;
    terminals::rows(&rt)?;
    d_channel::tests(&rt, Class::One)?;
    d_channel::tests(&rt, Class::Two)?;
    rt.print("\n")
}

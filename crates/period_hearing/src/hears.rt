// One terminal's hearing of a period, and then its timer.
ghost use Rattle.std.specs.Prelude.{◌≡◌};
ghost use Rattle.period_hearing.specs.Hears.{rests, heard_one};
ghost use Rattle.terminal.specs.Steps.{step_of};
ghost use Rattle.terminal.specs.Terminal.{unchanged};

use heard_line::heard::Downward;
use notes_and_cells::cell::NO_NOTES;
use notes_and_cells::notes::Notes;
use table_6_2::{F1, F3, F5, F7};
use terminal::{Terminal, TerminalStep};
use timing::counts::Periods;
use timing::timers::due;

// The notes of one unit: those of its hearing, and those of its timers at the next period's start.
#[derive(Clone, Copy)]
pub struct UnitNotes {
    pub hearing: Notes,
    pub timers: Notes,
}

impl UnitNotes {
    // No notes.
    pub const NONE: UnitNotes = UnitNotes {
        hearing: NO_NOTES,
        timers: NO_NOTES,
    };
}

// A terminal after a period, its notes, and whether there is any.
#[derive(Clone, Copy)]
pub struct HeardOne {
    pub terminal: Terminal,
    pub notes: UnitNotes,
    pub told: bool,
}

// Tests whether a terminal hears what it heard before, so that nothing happens: in F1 it hears
// nothing; unaligned in F3, F4 or F5, no pulse; aligned in F7, INFO 4.
#[tactic(auto, unfolding(crate::specs::Hears::rests))]
pub fn rests(terminal: Terminal, line: Downward) -> bool
    ensures { result ≡ rests line terminal }
{
    let state = terminal.state;
    let aligned = terminal.alignment.aligned;
    if terminal.alignment.run == 0 {
        if state == F7 {
            return aligned & line.pulse & line.framed & line.a;
        }
        if (F3 <= state) & (state <= F5) {
            return !aligned & !line.pulse;
        }
    }
    state == F1
}

// Lets a terminal hear the line of period `now`, and then takes its timer at the next one's start.
#[tactic(auto, using(crate::proofs::Rests::rested))]
pub fn hear_one(terminal: Terminal, line: Downward, now: Periods) -> HeardOne
    ensures { result ≡ heard_one line now terminal }
{
    if rests(terminal, line) {
        if !due(terminal.t3, now.next_period()) {
            return HeardOne {
                terminal,
                notes: UnitNotes::NONE,
                told: false,
            };
        }
    }
    hear_and_time(terminal, line, now)
}

// Does so where something may happen. Most terminals rest in most periods: so this stays a call of
// its own, and the fields of a terminal that rests stay together in the walk over all of them.
#[inline(never)]
#[tactic(auto, using(terminal::proofs::Answered::heard_given, terminal::proofs::Answered::timed_given), unfolding(crate::specs::Hears::heard_one, crate::specs::Hears::timer_step, crate::specs::Hears::hearing_step, crate::specs::Hears::has_note))]
fn hear_and_time(terminal: Terminal, line: Downward, now: Periods) -> HeardOne
    ensures { result ≡ heard_one line now terminal }
{
    let heard = terminal.hear(line, now).unwrap_or(without_notes(terminal));
    let after = heard.terminal;
    let timed = after
        .timer_due(now.next_period())
        .unwrap_or(without_notes(after));
    HeardOne {
        terminal: timed.terminal,
        notes: UnitNotes {
            hearing: heard.notes,
            timers: timed.notes,
        },
        told: (0 < heard.notes.0) | (0 < timed.notes.0),
    }
}

// Gives what a call of a terminal leaves where it is refused: the record as it was.
fn without_notes(terminal: Terminal) -> TerminalStep
    ensures { result ≡ step_of (unchanged 0 terminal) }
{
    TerminalStep {
        terminal,
        notes: NO_NOTES,
    }
}

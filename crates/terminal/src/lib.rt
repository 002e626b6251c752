// A terminal: states F1 to F8, alignment, T3 and its D access.
#![tactic(auto)]

ghost use Rattle.std.specs.Prelude.{◌≡◌, cond, ◌++◌, Ok, Err, Some, None};
ghost use Rattle.notes_and_cells.specs.declared.cell.Cell.TheVariants.{To};
ghost use Rattle.notes_and_cells.specs.Cells.{cell_of};
ghost use Rattle.notes_and_cells.specs.CellParts.{is_void};
ghost use Rattle.notes_and_cells.specs.Notes.{packed_notes, noted};
ghost use Rattle.refusals.specs.declared.Refusal.TheVariants.{OutOfRange};
ghost use Rattle.table_6_2.specs.Table62.{table62};
ghost use Rattle.terminal.specs.Calls as calls;
ghost use Rattle.terminal.specs.Steps.{step_of, as_result};
ghost use Rattle.terminal.specs.Terminal as spec;

use alignment::Alignment;
use dchannel::access::{Access, Class, Left};
use heard_line::heard::Downward;
use notes_and_cells::cell::{Cell, NO_NOTES};
use notes_and_cells::notes::{DROPPED1, DROPPED2, Notes};
use refusals::Refusal;
use table_6_2::{AR_ROW, F1, F7, F8, OFF_ROW, ON_ROW, T3_ROW, cell};
use timing::counts::{MOST_PERIODS, Periods};
use timing::timers::{T3, due, timer_after};

// The latest T3: one started when the last period has been run.
const LATEST_T3: u64 = MOST_PERIODS as u64 + T3 as u64;

// Kept: what may not change: the public calls take a record with any `t3` (0 for none) and any
// `state`, and refuse one that is out of range with `OutOfRange`.
#[derive(Clone, Copy)]
pub struct Terminal {
    // The period at whose start T3 is due, 0 for none.
    pub t3: u64,
    pub access: Access,
    // F1 to F8.
    pub state: u8,
    pub alignment: Alignment,
}

// What a call gives: the record and the notes. Where a call is refused, the terminal keeps the
// record as it was.
#[derive(Clone, Copy)]
pub struct TerminalStep {
    pub terminal: Terminal,
    pub notes: Notes,
}

impl Terminal {
    // Gives a terminal in F1, unaligned, with no timer running and both levels normal.
    pub fn fresh() -> Self
        ensures { result ≡ spec.fresh }
    {
        Terminal {
            t3: 0,
            access: Access::fresh(),
            state: F1,
            alignment: Alignment::fresh(),
        }
    }

    // Tests whether every field is in its range.
    #[tactic(auto, unfolding(crate::specs::Calls::terminal_in_range))]
    pub fn in_range(self) -> bool
        ensures { result ≡ calls.terminal_in_range self }
    {
        F1 <= self.state
            && self.state <= F8
            && self.t3 <= LATEST_T3
            && self.alignment.in_range()
            && self.access.in_range()
    }

    // Switches power on: barred outside F1. It finds the terminal unaligned, with no run.
    #[tactic(auto, using(crate::proofs::Barred::refused_by_1, crate::proofs::Barred::switched_on), unfolding(crate::specs::Calls::checked, crate::specs::Terminal::aligned))]
    pub fn switch_on(self, now: Periods) -> Result<TerminalStep, Refusal>
        ensures { result ≡ as_result (calls.switch_on_call now self) }
    {
        self.ready(now)?;
        if self.state != F1 {
            return Err(Refusal::Barred);
        }
        let alignment = Alignment::fresh();
        Ok(Terminal { alignment, ..self }.takes(ON_ROW, now))
    }

    // Switches power off: barred in F1. It stops T3.
    #[tactic(auto, using(crate::proofs::Barred::refused_by_1, crate::proofs::Barred::switched_off), unfolding(crate::specs::Calls::checked, crate::specs::Terminal::no_timer))]
    pub fn switch_off(self, now: Periods) -> Result<TerminalStep, Refusal>
        ensures { result ≡ as_result (calls.switch_off_call now self) }
    {
        self.ready(now)?;
        if self.state == F1 {
            return Err(Refusal::Barred);
        }
        Ok(Terminal { t3: 0, ..self }.takes(OFF_ROW, now))
    }

    // Takes `ar`, the request for activation: barred where its cell is impossible or empty.
    #[tactic(auto, using(crate::proofs::Barred::refused_by_1, crate::proofs::Barred::asked), unfolding(crate::specs::Calls::checked))]
    pub fn request(self, now: Periods) -> Result<TerminalStep, Refusal>
        ensures { result ≡ as_result (calls.request_call now self) }
    {
        self.ready(now)?;
        self.happens(AR_ROW, now).ok_or(Refusal::Barred)
    }

    // Hands over a frame of a class, whose image has `length` bits: refused outside F7, and else as
    // the D access refuses it.
    #[tactic(auto, unfolding(crate::specs::Calls::hand_over_call, crate::specs::Calls::hands_over, crate::specs::Calls::holding, dchannel::specs::Calls::handed, crate::specs::Steps::as_result))]
    pub fn hand_over(self, class: Class, length: u16) -> Result<TerminalStep, Refusal>
        ensures { result ≡ as_result (calls.hand_over_call class length self) }
    {
        if !self.in_range() {
            return Err(Refusal::OutOfRange);
        }
        if self.state != F7 {
            return Err(Refusal::OutsideF7);
        }
        let access = self.access.hand(class, length)?;
        Ok(self.with_access(access).stays(NO_NOTES))
    }

    // Starts a period: takes the event of T3 where it is due, and T3 is spent.
    #[tactic(auto, using(crate::proofs::Barred::refused_by_1, crate::proofs::Barred::timed), unfolding(crate::specs::Calls::checked, crate::specs::Terminal::no_timer))]
    pub fn timer_due(self, now: Periods) -> Result<TerminalStep, Refusal>
        ensures { result ≡ as_result (calls.timer_call now self) }
    {
        self.ready(now)?;
        if !due(self.t3, now) {
            return Ok(self.stays(NO_NOTES));
        }
        Ok(Terminal { t3: 0, ..self }.takes(T3_ROW, now))
    }

    // Hears a period's downward line: takes the event that the line is. A terminal in F1 hears
    // nothing.
    #[tactic(auto, using(crate::proofs::Barred::refused_by_1, crate::proofs::Barred::heard), unfolding(crate::specs::Calls::checked, crate::specs::Terminal::heard_as, crate::specs::Terminal::aligned))]
    pub fn hear(self, line: Downward, now: Periods) -> Result<TerminalStep, Refusal>
        ensures { result ≡ as_result (calls.hear_call line now self) }
    {
        self.ready(now)?;
        if self.state == F1 {
            return Ok(self.stays(NO_NOTES));
        }
        let f = self.alignment.follow(line.pulse, line.framed);
        let alignment = f.alignment;
        Ok(Terminal { alignment, ..self }.takes(line.event(f), now))
    }

    // Refuses a call where the record or the period is out of range.
    #[tactic(auto, unfolding(crate::specs::Calls::ready))]
    fn ready(self, now: Periods) -> Result<(), Refusal>
        ensures { result ≡ cond (calls.ready now self) (Ok tt) (Err OutOfRange) }
    {
        if self.in_range() && now.in_range() {
            Ok(())
        } else {
            Err(Refusal::OutOfRange)
        }
    }

    // Gives the record as it is, with notes.
    fn stays(self, notes: Notes) -> TerminalStep
        ensures { result ≡ record { terminal = self; notes = notes } }
    {
        TerminalStep {
            terminal: self,
            notes,
        }
    }

    // Gives the record with these fields, and what else it has as it was.
    pub fn with_fields(self, t3: u64, access: Access, state: u8, alignment: Alignment) -> Self
        ensures { result ≡ spec.with_fields t3 access state alignment self }
    {
        Terminal {
            t3,
            access,
            state,
            alignment,
        }
    }

    // Gives the record with another D access.
    pub fn with_access(self, access: Access) -> Self
        ensures { result ≡ spec.with_access access self }
    {
        Terminal { access, ..self }
    }

    // Moves to a cell's next state, with the cell's timer action; its notes come after the note of
    // a frame that is dropped on the way.
    #[tactic(auto, unfolding(crate::specs::Terminal::acts, crate::specs::Terminal::moved))]
    fn moves(self, next: u8, action: u8, notes: Notes, now: Periods) -> TerminalStep
        requires { packed_notes (noted notes) ≡ notes }
        ensures { result ≡ step_of (spec.acts (To next action notes) now.0 self) }
    {
        let way = access_after(self.state, next, self.access);
        let t3 = timer_after(T3, action, now, self.t3);
        self.with_fields(t3, way.access, next, self.alignment)
            .stays(after_dropped(way.dropped, notes))
    }

    // Takes an event of table 6-2: does what its cell says, where this is not impossible or empty.
    #[tactic(auto, unfolding(crate::specs::Terminal::happens, crate::specs::Terminal::acts))]
    fn happens(self, event: u8, now: Periods) -> Option<TerminalStep>
        ensures { result ≡ cond (is_void (cell_of table62 event self.state)) None (Some (step_of (spec.happens event now.0 self))) }
    {
        match cell(event, self.state) {
            Cell::To(next, action, notes) => Some(self.moves(next, action, notes, now)),
            Cell::Stay(notes) => Some(self.stays(notes)),
            Cell::Impossible | Cell::Absent => None,
        }
    }

    // Takes an event that is no request: where its cell is impossible or empty, it changes nothing.
    #[tactic(auto, using(crate::proofs::Barred::happened))]
    fn takes(self, event: u8, now: Periods) -> TerminalStep
        ensures { result ≡ step_of (spec.happens event now.0 self) }
    {
        self.happens(event, now).unwrap_or(self.stays(NO_NOTES))
    }
}

// Gives the D access on the way from a state to the next, and the class of the frame that is
// dropped there, 0 for none.
#[tactic(auto, unfolding(crate::specs::Terminal::access_after))]
fn access_after(from: u8, next: u8, access: Access) -> Left
    ensures { result ≡ spec.access_after from next access }
{
    if from == F7 {
        if next == F7 {
            return Left { access, dropped: 0 };
        }
        return access.leave();
    }
    if next == F7 {
        Left {
            access: access.enter(),
            dropped: 0,
        }
    } else {
        Left { access, dropped: 0 }
    }
}

// Gives the notes of a cell, after the note of a dropped frame of this class, 0 for none.
#[tactic(auto, using(notes_and_cells::proofs::NotesKept::few, notes_and_cells::proofs::NotesKept::put_first), unfolding(crate::specs::Terminal::dropped_note))]
fn after_dropped(class: u8, notes: Notes) -> Notes
    requires { packed_notes (noted notes) ≡ notes }
    ensures { result ≡ packed_notes (spec.dropped_note class ++ noted notes) }
{
    match class {
        1 => Notes(notes.0 + 1, DROPPED1, notes.1, notes.2, notes.3),
        2 => Notes(notes.0 + 1, DROPPED2, notes.1, notes.2, notes.3),
        _ => notes,
    }
}

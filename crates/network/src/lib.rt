// The network end: states G1 to G4, alignment, T1 and T2.
#![tactic(auto)]

ghost use Rattle.std.specs.Prelude.{cond, ◌≡◌, Ok, Err, Some, None};
ghost use Rattle.notes_and_cells.specs.Cells.{cell_of};
ghost use Rattle.notes_and_cells.specs.CellParts.{is_void};
ghost use Rattle.network.specs.Calls as calls;
ghost use Rattle.network.specs.Network as spec;
ghost use Rattle.network.specs.Steps.{step_of, as_result};
ghost use Rattle.refusals.specs.declared.Refusal.TheVariants.{OutOfRange};
ghost use Rattle.table_6_3.specs.Table63.{table63};

use alignment::Alignment;
use heard_line::heard::{Upward, loss_up};
use notes_and_cells::cell::{Cell, NO_NOTES, START_T2};
use notes_and_cells::notes::Notes;
use refusals::Refusal;
use table_6_3::{AR_ROW, DR_ROW, G1, G4, T1_ROW, T2_ROW, cell};
use timing::counts::{MOST_PERIODS, Periods};
use timing::timers::{T1, T2, due, started_by, timer_after};

// The latest T1 and T2: those started when the last period has been run.
const LATEST_T1: u64 = MOST_PERIODS as u64 + T1 as u64;

const LATEST_T2: u64 = MOST_PERIODS as u64 + T2 as u64;

// Kept: what may not change: the public calls take a record with any `t1`, `t2` (0 for none) and any
// `state`, and refuse one that is out of range with `OutOfRange`.
#[derive(Clone, Copy)]
pub struct Network {
    // The periods at whose start T1 and T2 are due, 0 for none.
    pub t1: u64,
    pub t2: u64,
    // G1 to G4.
    pub state: u8,
    pub alignment: Alignment,
}

// What a call gives: the record and the notes. Where a call is refused, the network end keeps the
// record as it was.
#[derive(Clone, Copy)]
pub struct NetworkStep {
    pub network: Network,
    pub notes: Notes,
}

impl Network {
    // Gives a network end in G1, unaligned, with no timer running.
    pub fn fresh() -> Self
        ensures { result ≡ spec.fresh }
    {
        Network {
            t1: 0,
            t2: 0,
            state: G1,
            alignment: Alignment::fresh(),
        }
    }

    // Tests whether every field is in its range.
    #[tactic(auto, unfolding(crate::specs::Calls::network_in_range))]
    pub fn in_range(self) -> bool
        ensures { result ≡ calls.network_in_range self }
    {
        G1 <= self.state
            && self.state <= G4
            && self.t1 <= LATEST_T1
            && self.t2 <= LATEST_T2
            && self.alignment.in_range()
    }

    // Takes a request, `ar` or `dr`, by its number in table 6-3. Any other number is refused as no
    // event for this unit, and a request whose cell is impossible or empty as barred.
    #[tactic(auto, using(crate::proofs::Barred::asked, crate::proofs::TwoEvents::is_request_lem), unfolding(crate::specs::Calls::checked, crate::specs::Network::requests, crate::specs::Steps::as_result))]
    pub fn request(self, event: u8, now: Periods) -> Result<NetworkStep, Refusal>
        ensures { result ≡ as_result (calls.request_call event now self) }
    {
        self.ready(now)?;
        let is_request = (event == AR_ROW) | (event == DR_ROW);
        if !is_request {
            return Err(Refusal::NotForUnit);
        }
        self.happens(event, now).ok_or(Refusal::Barred)
    }

    // Starts a period: takes the events of T1, then of T2, where they are due.
    #[tactic(auto, using(crate::proofs::TwoEvents::refused_out_of_range, crate::proofs::TwoEvents::t1_is, crate::proofs::TwoEvents::t2_is, crate::proofs::TwoEvents::timers_are), unfolding(crate::specs::Calls::checked))]
    pub fn timer_due(self, now: Periods) -> Result<NetworkStep, Refusal>
        ensures { result ≡ as_result (calls.timer_call now self) }
    {
        self.ready(now)?;
        let first = self.expires(due(self.t1, now), 0, self.t2, T1_ROW, now);
        let t2_due = due(first.network.t2, now);
        let second = first
            .network
            .expires(t2_due, first.network.t1, 0, T2_ROW, now);
        // The row of T2 has no notes.
        Ok(NetworkStep {
            notes: first.notes,
            ..second
        })
    }

    // Hears a period's upward line: takes the event of loss, if any, and then the event that the
    // line is.
    #[tactic(auto, using(crate::proofs::TwoEvents::refused_out_of_range, crate::proofs::TwoEvents::heard_with_loss, crate::proofs::TwoEvents::heard_without), unfolding(crate::specs::Calls::checked, crate::specs::Network::aligned))]
    pub fn hear(self, line: Upward, now: Periods) -> Result<NetworkStep, Refusal>
        ensures { result ≡ as_result (calls.hear_call line now self) }
    {
        self.ready(now)?;
        let f = self.alignment.follow(line.pulse, line.framed);
        let alignment = f.alignment;
        let first = Network { alignment, ..self }.takes(loss_up(f), now);
        let second = first.network.takes(line.event(f), now);
        // Where alignment is lost, the line is INFO 1, whose row has no notes, or a signal.
        let notes = if f.lost { first.notes } else { second.notes };
        Ok(NetworkStep { notes, ..second })
    }

    // Refuses a call where the record or the period is out of range.
    #[tactic(auto, unfolding(crate::specs::Calls::ready))]
    fn ready(self, now: Periods) -> Result<(), Refusal>
        ensures { result ≡ cond (calls.ready now self) (Ok tt) (Err OutOfRange) }
    {
        if self.in_range() && now.in_range() {
            Ok(())
        } else {
            Err(Refusal::OutOfRange)
        }
    }

    // Takes an event of table 6-3: does what its cell says, where this is not impossible or empty.
    #[tactic(auto, unfolding(crate::specs::Network::happens, crate::specs::Network::acts, crate::specs::Network::moved))]
    fn happens(self, event: u8, now: Periods) -> Option<NetworkStep>
        ensures { result ≡ cond (is_void (cell_of table63 event self.state)) None (Some (step_of (spec.happens event now.0 self))) }
    {
        match cell(event, self.state) {
            Cell::To(next, action, notes) => Some(NetworkStep {
                network: Network {
                    t1: timer_after(T1, action, now, self.t1),
                    t2: started_by(START_T2, T2, action, now, self.t2),
                    state: next,
                    alignment: self.alignment,
                },
                notes,
            }),
            Cell::Stay(notes) => Some(self.stays(notes)),
            Cell::Impossible | Cell::Absent => None,
        }
    }

    // Takes an event that is no request: where its cell is impossible or empty, it changes nothing.
    #[tactic(auto, using(crate::proofs::Barred::happened))]
    fn takes(self, event: u8, now: Periods) -> NetworkStep
        ensures { result ≡ step_of (spec.happens event now.0 self) }
    {
        self.happens(event, now).unwrap_or(self.stays(NO_NOTES))
    }

    // Gives the record as it is, with notes.
    fn stays(self, notes: Notes) -> NetworkStep
        ensures { result ≡ record { network = self; notes = notes } }
    {
        NetworkStep {
            network: self,
            notes,
        }
    }

    // Takes the event of a timer if it has `expired`, at the record with t1 and t2 in the place of
    // its timers; else changes nothing.
    fn expires(self, expired: bool, t1: u64, t2: u64, event: u8, now: Periods) -> NetworkStep
        ensures { result ≡ step_of (cond expired
            (spec.happens event now.0 (record { t1 = t1; t2 = t2; state = self.state; alignment = self.alignment }))
            (spec.unchanged 0 self)) }
    {
        if expired {
            Network { t1, t2, ..self }.takes(event, now)
        } else {
            self.stays(NO_NOTES)
        }
    }
}

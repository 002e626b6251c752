// The calls over terminals held by value: a caller that has the eight records in an array hands it
// over and gets it back, and lends no terminal.
#![tactic(auto)]

ghost use Rattle.std.specs.Prelude.{◌≡◌};
ghost use Rattle.exchange.specs.Opportunities as opportunities;
ghost use Rattle.bus_call_specs.specs.Event as events;
ghost use Rattle.bus_call_specs.specs.Run.{run_answer, kept_after};
ghost use Rattle.bus_call_specs.specs.Kept.{found};

use bus_event::event::Told;
use bus_record::record::BusRecord;
use bus_record::side::RunAnswer;
use exchange::tally::Tally;
use period_hearing::hears::UnitNotes;
use terminal::Terminal;

// What an opportunity gives back.
#[derive(Clone, Copy)]
pub struct HeldTally {
    pub terminals: [Terminal; 8],
    pub tally: Tally,
}

// What an event gives back.
#[derive(Clone, Copy)]
pub struct HeldEvent {
    pub told: Told,
    pub terminals: [Terminal; 8],
}

// What a run gives back, with the notes of each terminal in its last period.
#[derive(Clone, Copy)]
pub struct HeldRun {
    pub answer: RunAnswer,
    pub terminals: [Terminal; 8],
    pub notes: [UnitNotes; 8],
}

// Runs one D opportunity.
pub fn opportunity(before: [Terminal; 8], images: &[u8], tally: Tally) -> HeldTally
    ensures tally_value { result.tally ≡ opportunities.tally_after images.now tally before }
    ensures terminals_value { result.terminals ≡ opportunities.terminals_after images.now tally before }
{
    let mut terminals = before;
    let after = exchange::opportunity::opportunity(&mut terminals, images, tally);
    HeldTally {
        terminals,
        tally: after,
    }
}

// Gives the bus an event: any unit number, any event number, any value.
pub fn event(
    bus: BusRecord,
    before: [Terminal; 8],
    images: &mut [u8],
    letters: &mut [u8],
    unit: u32,
    event: u8,
    value: &[u8],
) -> HeldEvent
    ensures told_value { result.told ≡ events.event_told unit event value.now bus before images.old letters.old }
    ensures terminals_value { result.terminals
        ≡ events.terminals_after unit event value.now bus before images.old letters.old }
    ensures images_after { images.new
        ≡ events.images_after unit event value.now bus before images.old letters.old }
    ensures letters_after { letters.new
        ≡ events.letters_after unit event value.now bus before images.old letters.old }
{
    let mut terminals = before;
    let told = bus_calls::event::event(bus, &mut terminals, images, letters, unit, event, value);
    HeldEvent { told, terminals }
}

// Runs periods until `most` of them are run or one hands back notes.
pub fn run(
    bus: BusRecord,
    before: [Terminal; 8],
    images: &[u8],
    octets: &mut [u8],
    letters: &[u8],
    most: u32,
) -> HeldRun
    ensures answer_value { result.answer ≡ run_answer most (found bus before images.now octets.old letters.now) }
    ensures terminals_value { result.terminals
        ≡ (kept_after most (found bus before images.now octets.old letters.now)).terminals }
    ensures notes_value { result.notes
        ≡ (kept_after most (found bus before images.now octets.old letters.now)).notes }
    ensures octets_after { octets.new
        ≡ (kept_after most (found bus before images.now octets.old letters.now)).octets }
{
    let mut terminals = before;
    let mut notes = [UnitNotes::NONE; 8];
    let answer = bus_calls::run::run(
        bus,
        &mut terminals,
        images,
        octets,
        letters,
        &mut notes,
        most,
    );
    HeldRun {
        answer,
        terminals,
        notes,
    }
}

// The notes of a period, in the report's order.
ghost use Rattle.std.specs.Prelude.{◌≡◌, ◌++◌};
ghost use Rattle.bus_rules.specs.Bus.{notes_of};
ghost use Rattle.bus_rules.specs.Order.{part_in_order};
ghost use Rattle.bus_call_specs.specs.Lists.{reader_told, done_notes, terminals_told, timers_told, heard_told, timed_told, period_told};
ghost use Rattle.bus_record.specs.declared.side.RunAnswer.{RunAnswer};
ghost use Rattle.notes_and_cells.specs.Notes.{noted};
ghost use Rattle.note_text.specs.Room.{Put};
ghost use Rattle.note_text.specs.NoteText.{notes_in};

use bus_record::side::RunAnswer;
use combining::combine::TERMINALS;
use hdlc::LONGEST_BODY;
use note_text::form::Form;
use note_text::note::{HEARD_ROOM, LINE_ROOM, OCTETS_ROOM, put_note, put_notes, put_plain};
use note_text::room::put;
use notes_and_cells::cell::NO_NOTES;
use notes_and_cells::notes::{DONE1, DONE2, HEARD, Notes};
use period_hearing::hears::UnitNotes;

// The most notes of what is heard in a period, beside the reader's: four of unit 0's hearing and six
// of each terminal's, two of them of its frames.
const MOST_HEARD: usize = 4 + TERMINALS * 6;
// Those of the timers: four of unit 0's and four of each terminal's.
const MOST_TIMED: usize = 4 + TERMINALS * 4;

const MOST_NOTES: usize = MOST_HEARD + MOST_TIMED;
// The most octets that the notes of a period take, the reader's with a body among them: as text,
pub const PERIOD_ROOM: usize = HEARD_ROOM + MOST_NOTES * LINE_ROOM;
// and as octets.
pub const PERIOD_OCTETS_ROOM: usize = (OCTETS_ROOM + LONGEST_BODY) + MOST_NOTES * OCTETS_ROOM;

// Puts the reader's note: `heard` with the octets of the body, or `torn`.
// Kept: what may not change: `put_period` takes any `RunAnswer`, with any `said` and `body`.
fn put_reader(
    form: Form,
    room: &mut [u8],
    wrote: usize,
    period: u64,
    said: u8,
    body: u16,
    octets: &[u8],
) -> usize
    ensures { (answer : RunAnswer) → answer.said ≡ said → answer.body ≡ body
        → Put room.old wrote (notes_in form (reader_told period answer octets.now)) result room.new }
{
    if said == 0 {
        return put(room, wrote, b"");
    }
    if said == HEARD {
        let count = (body as usize).min(octets.len());
        return put_note(form, room, wrote, period, 0, HEARD, &octets[..count]);
    }
    put_plain(form, room, wrote, period, 0, said)
}

// Gives the notes of completed frames.
#[tactic(auto, unfolding(notes_and_cells::specs::Notes::noted))]
fn done_notes(done1: bool, done2: bool) -> Notes
    ensures { noted result ≡ done_notes done1 done2 }
{
    match (done1, done2) {
        (true, true) => Notes(2, DONE1, DONE2, 0, 0),
        (true, false) => Notes(1, DONE1, 0, 0, 0),
        (false, true) => Notes(1, DONE2, 0, 0, 0),
        (false, false) => NO_NOTES,
    }
}

// Puts the notes of one terminal's hearing: those of completed frames come first.
fn put_terminal(
    form: Form,
    room: &mut [u8],
    wrote: usize,
    period: u64,
    unit: u32,
    done1: bool,
    done2: bool,
    notes: Notes,
) -> usize
    ensures { Put room.old wrote (notes_in form (notes_of period unit (done_notes done1 done2 ++ noted notes))) result
        room.new }
{
    let done = done_notes(done1, done2);
    let a = put_notes(form, room, wrote, period, unit, done);
    put_notes(form, room, a, period, unit, notes)
}

// Puts the notes of the terminals' hearing.
fn put_terminals(
    form: Form,
    room: &mut [u8],
    wrote: usize,
    period: u64,
    done1: u8,
    done2: u8,
    notes: [UnitNotes; 8],
) -> usize
    ensures { (answer : RunAnswer) → answer.done1 ≡ done1 → answer.done2 ≡ done2
        → Put room.old wrote (notes_in form (terminals_told period answer 0 notes)) result room.new }
{
    let mut at = wrote.min(room.len());
    for (i, n) in notes.iter().enumerate() {
        at = put_terminal(
            form,
            room,
            at,
            period,
            i as u32 + 1,
            (done1 >> i) % 2 == 1,
            (done2 >> i) % 2 == 1,
            n.hearing,
        );
    }
    at
}

// Puts the notes of the terminals' timers.
fn put_timers(
    form: Form,
    room: &mut [u8],
    wrote: usize,
    period: u64,
    notes: [UnitNotes; 8],
) -> usize
    ensures { Put room.old wrote (notes_in form (timers_told period 0 notes)) result room.new }
{
    let mut at = wrote.min(room.len());
    for (i, n) in notes.iter().enumerate() {
        at = put_notes(form, room, at, period, i as u32 + 1, n.timers);
    }
    at
}

// Puts the notes of what is heard in a period: the reader's, unit 0's, then the terminals'.
fn put_heard(
    form: Form,
    room: &mut [u8],
    wrote: usize,
    period: u64,
    answer: RunAnswer,
    notes: [UnitNotes; 8],
    octets: &[u8],
) -> usize
    ensures { Put room.old wrote
        (notes_in form (part_in_order period (heard_told period answer notes octets.now))) result room.new }
{
    let network = answer.network;
    let a = put_reader(form, room, wrote, period, answer.said, answer.body, octets);
    let b = put_notes(form, room, a, period, 0, network.hearing);
    put_terminals(form, room, b, period, answer.done1, answer.done2, notes)
}

// Puts the notes of the timers due at the start of a period: unit 0's, then the terminals'.
fn put_timed(
    form: Form,
    room: &mut [u8],
    wrote: usize,
    period: u64,
    network: UnitNotes,
    notes: [UnitNotes; 8],
) -> usize
    ensures { Put room.old wrote (notes_in form (part_in_order period (timed_told network notes))) result room.new }
{
    let a = put_notes(form, room, wrote, period, 0, network.timers);
    put_timers(form, room, a, period, notes)
}

// Puts the notes of a period: those of what is heard in it, then those of the timers due at the
// next one's start.
pub fn put_period(
    form: Form,
    room: &mut [u8],
    wrote: usize,
    period: u32,
    answer: RunAnswer,
    notes: [UnitNotes; 8],
    octets: &[u8],
) -> usize
    ensures { Put room.old wrote (notes_in form (period_told period answer notes octets.now)) result
        room.new }
{
    let this = period as u64;
    let a = put_heard(form, room, wrote, this, answer, notes, octets);
    put_timed(form, room, a, this + 1, answer.network, notes)
}

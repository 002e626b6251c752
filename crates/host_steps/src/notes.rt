// The notes of a call as octets, in room that holds those of any call.
ghost use Rattle.std.specs.Prelude.{◌≡◌, ◌-◌};
ghost use Rattle.bus_rules.specs.Bus.{notes_of};
ghost use Rattle.bus_call_specs.specs.Lists.{period_told};
ghost use Rattle.notes_and_cells.specs.Notes.{noted};
ghost use Rattle.note_text.specs.Room.{laid};
ghost use Rattle.host_steps.specs.Stepping.{notes_octets, notes_room};

use bus_record::side::RunAnswer;
use note_text::form::Form;
use note_text::note::put_notes;
use note_text::room::put;
use notes_and_cells::notes::Notes;
use period_hearing::hears::UnitNotes;
use period_text::period::{PERIOD_OCTETS_ROOM, put_period};

// The room that holds the notes of any call, their end included.
pub(crate) const NOTES_LENGTH: usize = PERIOD_OCTETS_ROOM + 1;

pub fn sbus_notes_length() -> usize
    ensures { result ≡ notes_room }
{
    NOTES_LENGTH
}

// Puts the notes of an event.
pub(crate) fn put_told(room: &mut [u8], period: u32, unit: u32, notes: Notes)
    ensures { room.new ≡ laid room.old 0 (notes_octets (notes_of period unit (noted notes))) }
{
    let wrote = put_notes(Form::Octets, room, 0, period as u64, unit, notes);
    put(room, wrote, &[0]);
}

// Puts the notes of a run: those of its last period.
pub(crate) fn put_run(room: &mut [u8], answer: RunAnswer, notes: [UnitNotes; 8], octets: &[u8])
    ensures { room.new
        ≡ laid room.old 0 (notes_octets (period_told (answer.bus.periods.0 - 1) answer notes octets.now)) }
{
    let last = answer.bus.periods.0.saturating_sub(1);
    let wrote = put_period(Form::Octets, room, 0, last, answer, notes, octets);
    put(room, wrote, &[0]);
}

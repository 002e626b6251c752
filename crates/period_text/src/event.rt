// The notes of an event as lines of the report.
ghost use Rattle.note_text.specs.Room.{Put};
ghost use Rattle.note_text.specs.NoteText.{notes_text};
ghost use Rattle.period_text.specs.PeriodText.{event_noted};

use note_text::form::Form;
use note_text::note::{put_note, put_notes};
use notes_and_cells::notes::{Notes, REFUSED};

// Puts the notes that an event's call hands back or, where the reply is the number of a refusal,
// `refused` with that number.
// Kept: what may not change: `put_event` takes any number as the reply, one of no reason too.
pub fn put_event(
    room: &mut [u8],
    wrote: usize,
    period: u32,
    unit: u32,
    notes: Notes,
    reply: u8,
) -> usize
    ensures { Put room.old wrote (notes_text (event_noted period unit notes reply)) result room.new }
{
    if reply == 0 {
        return put_notes(Form::Line, room, wrote, period as u64, unit, notes);
    }
    put_note(
        Form::Line,
        room,
        wrote,
        period as u64,
        unit,
        REFUSED,
        &[reply],
    )
}

// Giving the bus an event of the book.
ghost use Rattle.std.specs.Prelude.{◌≡◌, [], ◌-◌};
ghost use Rattle.notes_and_cells.specs.Notes.{packed_notes};
ghost use Rattle.refusals.specs.Numbers.{number};
ghost use Rattle.bus_event.specs.Event.{told};
ghost use Rattle.bus_call_specs.specs.Event.{event_told, terminals_after, images_after, letters_after};

use super::network_end::network_event;
use super::ready::in_range;
use bus_event::event::{Told, event_settled, first_reason, replied, terminal_event};
use bus_record::record::BusRecord;
use notes_and_cells::cell::NO_NOTES;
use refusals::Refusal;
use terminal::{Terminal, TerminalStep};

// Turns the call down: the record as it is, no note, and the number of the refusal.
fn refused(bus: BusRecord, refusal: Refusal) -> Told
    ensures { result ≡ told bus (packed_notes []) (number refusal) }
{
    replied(bus, NO_NOTES, refusal.number())
}

// Gives the index of a terminal, from its unit.
fn index_of(unit: u32) -> usize
    ensures { result ≡ unit - 1 }
{
    unit.saturating_sub(1) as usize
}

// Gives the bus an event: any unit number, any event number, any value.
pub fn event(
    bus: BusRecord,
    terminals: &mut [Terminal],
    images: &mut [u8],
    letters: &mut [u8],
    unit: u32,
    event: u8,
    value: &[u8],
) -> Told
    ensures value { result
        ≡ event_told unit event value.now bus terminals.old images.old letters.old }
    ensures terminals_after { terminals.new
        ≡ terminals_after unit event value.now bus terminals.old images.old letters.old }
    ensures images_after { images.new
        ≡ images_after unit event value.now bus terminals.old images.old letters.old }
    ensures letters_after { letters.new
        ≡ letters_after unit event value.now bus terminals.old images.old letters.old }
{
    let ready = in_range(terminals);
    if let Err(refusal) = first_reason(ready, bus, images.len(), letters, unit, event, value) {
        return refused(bus, refusal);
    }
    if unit == 0 {
        return network_event(bus, letters, event, value);
    }
    let i = index_of(unit);
    let t = terminals[i];
    match terminal_event(t, images, i, event, value, bus.periods) {
        Ok(step) => {
            terminals[i] = step.terminal;
            event_settled(bus, unit, event, value, step, 0)
        }
        Err(refusal) => {
            let kept = TerminalStep {
                terminal: t,
                notes: NO_NOTES,
            };
            event_settled(bus, unit, event, value, kept, refusal.number())
        }
    }
}

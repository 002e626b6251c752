// An event of unit 0, once the call `event` has looked at the reasons to turn it down: no other
// crate gives one.
ghost use Rattle.std.specs.Prelude.{◌≡◌, cond, eqb};
ghost use Rattle.table_6_3.specs.Table63 as table;
ghost use Rattle.bus_event.specs.Event as spec;

use bus_event::event::{Told, replied};
use bus_record::record::BusRecord;
use bus_record::side::reader_after;
use notes_and_cells::cell::NO_NOTES;
use notes_and_cells::events::{AR, HIT};
use table_6_3::{AR_ROW, DR_ROW, G3};

// Takes over the letters of a hit, where they are as many as the letters lent.
#[tactic(auto, unfolding(bus_event::specs::Event::taken_over))]
fn take_over(value: &[u8], letters: &mut [u8])
    ensures { letters.new ≡ spec.taken_over value.now letters.old }
{
    if value.len() == letters.len() {
        letters.copy_from_slice(value);
    }
}

// Gives the row of table 6-3 for a request: `ar`, and `dr` for every other number, since the event
// has been looked at.
fn request_row(event: u8) -> u8
    ensures { result ≡ cond (eqb event AR) table.ar_row table.dr_row }
{
    if event == AR { AR_ROW } else { DR_ROW }
}

// Makes a request to the network end; where it is refused, the record stays as it was.
fn request(bus: BusRecord, event: u8) -> Told
    ensures { result ≡ spec.network_asked event bus }
{
    match bus.network.request(request_row(event), bus.periods) {
        Ok(step) => {
            let left = (bus.network.state == G3) & (step.network.state != G3);
            let after = bus.with_network(step.network, reader_after(left, bus.reader));
            replied(after, step.notes, 0)
        }
        Err(refusal) => replied(bus, NO_NOTES, refusal.number()),
    }
}

// Gives unit 0 an event.
#[tactic(auto, unfolding(bus_event::specs::Event::network_told, bus_event::specs::Event::letters_after))]
pub(crate) fn network_event(bus: BusRecord, letters: &mut [u8], event: u8, value: &[u8]) -> Told
    ensures value { result ≡ spec.network_told event bus }
    ensures letters_after { letters.new ≡ spec.letters_after event value.now letters.old }
{
    if event == HIT {
        take_over(value, letters);
        return replied(bus.with_hit(true), NO_NOTES, 0);
    }
    request(bus, event)
}

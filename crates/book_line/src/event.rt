// The events of a book by number and by name.
ghost use Rattle.std.specs.Prelude.{◌≡◌, map};
ghost use Rattle.book_line.specs.EventNames as spec;
ghost use Rattle.book_line.specs.Line as line;

use notes_and_cells::events::{AR, D1, D2, DR, END, HIT, OFF, ON};

// Each event's number, and its name.
const EVENTS: [(u8, &[u8]); 8] = [
    (ON, b"on"),
    (OFF, b"off"),
    (AR, b"ar"),
    (DR, b"dr"),
    (D1, b"d1"),
    (D2, b"d2"),
    (HIT, b"hit"),
    (END, b"end"),
];

// Gives the number that stands beside a name in a list of events, if the name stands in it.
fn number_beside(name: &[u8], events: &[(u8, &[u8])]) -> Option<u8>
    ensures { result ≡ spec.if_beside name.now (map (λ event. (event.0, event.1.now)) events.now) }
{
    for (event, its_name) in events {
        if *its_name == name {
            return Some(*event);
        }
    }
    None
}

// Gives the number of the event that a name names, if it names one.
#[tactic(auto, using(crate::proofs::EventTable::event_beside), unfolding(crate::specs::EventNames::event_names))]
pub fn event_named(name: &[u8]) -> Option<u8>
    ensures { result ≡ spec.event_if_named name.now }
{
    number_beside(name, &EVENTS)
}

// Tests whether an event is an `end` that is accepted.
#[tactic(auto, unfolding(crate::specs::Line::is_end))]
pub fn is_end(unit: u32, event: u8) -> bool
    ensures { result ≡ line.is_end unit event }
{
    (event == END) & (unit == 0)
}

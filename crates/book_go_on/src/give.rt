// Giving the bus the event of a line; its notes go into the room.
ghost use Rattle.std.specs.Prelude.{List, ℕ, ◌+◌, ◌≤◌, length};
ghost use Rattle.bus_call_specs.specs.Kept.{found};
ghost use Rattle.timing.specs.Counts.{most_periods};
ghost use Rattle.book_line.specs.Value.{value_octets};
ghost use Rattle.book_line.specs.Laying.{value_room};
ghost use Rattle.period_text.specs.PeriodText.{period_room};
ghost use Rattle.book_go_on.specs.RunTo.{Gives};

use super::run_to::BusAndRoom;
use book_line::value;
use book_line::value::VALUE_ROOM;
use period_text::event::put_event;

// Gives a line's event to the bus and puts its notes, or `refused`, into the room; the value is as
// it stands in the line.
pub(crate) fn give(
    u: BusAndRoom,
    images: &mut [u8],
    letters: &mut [u8],
    unit: u32,
    event: u8,
    value: &[u8],
    room: &mut [u8],
) -> BusAndRoom
    requires periods_le_most_periods { u.bus.periods.0 ≤ most_periods }
    requires value_len_bound { length (value_octets event value.now) ≤ value_room }
    requires period_room_in_bounds { u.wrote + period_room ≤ length room.old }
    ensures { (octets : List ℕ) → Gives
        (found u.bus u.terminals images.old octets letters.old) unit event value.now
        room.old u.wrote
        (found result.bus result.terminals images.new octets letters.new) result.wrote room.new }
{
    let mut octets = [0u8; VALUE_ROOM];
    let n = value::octets(event, value, &mut octets);
    let before = u.terminals;
    let g = bus_by_value::event(u.bus, before, images, letters, unit, event, &octets[..n]);
    let told = g.told;
    let bus = told.bus;
    let notes = told.notes;
    let terminals = g.terminals;
    let wrote = put_event(room, u.wrote, u.bus.periods.0, unit, notes, told.reply);
    BusAndRoom {
        bus,
        terminals,
        wrote,
    }
}

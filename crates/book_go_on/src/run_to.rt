// Running the periods up to a line's, as long as there is room for the notes of one.
ghost use Rattle.std.specs.Prelude.{◌≡◌, ◌+◌, ◌≤◌, ◌<◌, leb, length};
ghost use Rattle.bus_call_specs.specs.Kept.{found};
ghost use Rattle.timing.specs.Counts.{most_periods};
ghost use Rattle.period_text.specs.PeriodText.{period_room};
ghost use Rattle.report.specs.Told.{Ready};
ghost use Rattle.book_go_on.specs.RunTo.{RunsTo};

use super::progress::GoneOn;
use bus_record::record::BusRecord;
use note_text::form::Form;
use period_text::period::{PERIOD_ROOM, put_period};
use terminal::Terminal;

// The bus with its terminals, and the octets written into the room.
#[derive(Clone, Copy)]
pub(crate) struct BusAndRoom {
    pub(crate) bus: BusRecord,
    pub(crate) terminals: [Terminal; 8],
    pub(crate) wrote: usize,
}

// Tests whether `room` octets, of which `wrote` are written, hold the notes of one more period.
pub(crate) fn has_room(room: usize, wrote: usize) -> bool
    ensures { result ≡ leb (wrote + period_room) room }
{
    if room < PERIOD_ROOM {
        return false;
    }
    wrote <= room - PERIOD_ROOM
}

// Runs periods before the one of number `to` by one call, one of them at least, and puts the notes
// into the room as text.
fn advance(
    u: BusAndRoom,
    images: &[u8],
    octets: &mut [u8],
    letters: &[u8],
    room: &mut [u8],
    to: u32,
) -> BusAndRoom
    requires ready { Ready (found u.bus u.terminals images.now octets.old letters.now) }
    requires periods_lt_to { u.bus.periods.0 < to }
    requires to_le_most_periods { to ≤ most_periods }
    requires period_room_in_bounds { u.wrote + period_room ≤ length room.old }
    ensures runs_to { RunsTo (found u.bus u.terminals images.now octets.old letters.now)
        to room.old u.wrote
        (found result.bus result.terminals images.now octets.new letters.now) result.wrote room.new }
    ensures periods_lt_periods { u.bus.periods.0 < result.bus.periods.0 }
{
    let before = u.terminals;
    let g = bus_by_value::run(u.bus, before, images, octets, letters, to - u.bus.periods.0);
    let answer = g.answer;
    let bus = answer.bus;
    let terminals = g.terminals;
    if !answer.told {
        return BusAndRoom {
            bus,
            terminals,
            wrote: u.wrote,
        };
    }
    let notes = g.notes;
    let wrote = put_period(
        Form::Line,
        room,
        u.wrote,
        bus.periods.0 - 1,
        answer,
        notes,
        octets,
    );
    BusAndRoom {
        bus,
        terminals,
        wrote,
    }
}

// Runs the periods before the one of number `to`, as far as the room goes.
pub(crate) fn run_to(
    w: GoneOn,
    images: &[u8],
    octets: &mut [u8],
    letters: &[u8],
    room: &mut [u8],
    to: u32,
) -> BusAndRoom
    requires ready { Ready (found w.progress.bus w.progress.terminals images.now octets.old letters.now) }
    requires periods_le_to { w.progress.bus.periods.0 ≤ to }
    requires to_le_most_periods { to ≤ most_periods }
    requires wrote_in_bounds { w.wrote ≤ length room.old }
    ensures runs_to { RunsTo
        (found w.progress.bus w.progress.terminals images.now octets.old letters.now)
        to room.old w.wrote
        (found result.bus result.terminals images.now octets.new letters.now) result.wrote room.new }
    ensures room_len_bound { result.bus.periods.0 < to → length room.old < result.wrote + period_room }
{
    let p = w.progress;
    let bus = p.bus;
    let terminals = p.terminals;
    let mut u = BusAndRoom {
        bus,
        terminals,
        wrote: w.wrote,
    };
    while (u.bus.periods.0 < to) & has_room(room.len(), u.wrote) {
        u = advance(u, images, octets, letters, room, to);
    }
    u
}

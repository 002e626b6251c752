// A line of the book.
ghost use Rattle.std.specs.Prelude.{true, false, ◌≡◌, ◌≤◌, length};
ghost use Rattle.text.specs.declared.field.Ends.{Ends};
ghost use Rattle.book_line.specs.Value.{value_octets};
ghost use Rattle.book_line.specs.Laying.{value_room};
ghost use Rattle.book_reader.specs.declared.step.Step.TheVariants.{Entry};
ghost use Rattle.timing.specs.Counts.{most_periods};
ghost use Rattle.book_go_on.specs.Progress as spec;
ghost use Rattle.book_go_on.specs.Steps.{StepsBy};

use super::give::give;
use super::progress::{GoneOn, Progress, ROOM};
use super::run_to::{BusAndRoom, has_room, run_to};
use book_line::event::is_end;
use book_reader::step::{AFTER_END, AT_LINES};

// Gives the book at `stage`, with the bus and what was written as they are now.
fn reached(w: GoneOn, u: BusAndRoom, stage: u8, taken: usize, why: u8) -> GoneOn
    ensures { result ≡ spec.reached w u stage taken why }
{
    let terminals = u.terminals;
    GoneOn {
        progress: Progress {
            bus: u.bus,
            terminals,
            stage,
            ..w.progress
        },
        taken,
        wrote: u.wrote,
        why,
    }
}

// Runs the periods before the line's own; then, where there is room, gives the line's event, or
// ends the book's lines. The line has `size` octets, its LF included, and its value is as it stands
// in it.
pub(crate) fn line(
    w: GoneOn,
    images: &mut [u8],
    octets: &mut [u8],
    letters: &mut [u8],
    value: &[u8],
    room: &mut [u8],
    period: u32,
    unit: u32,
    event: u8,
    size: usize,
) -> GoneOn
    requires goes { spec.Goes w images.old octets.old letters.old room.old }
    requires begun_value { w.progress.begun ≡ true }
    requires over_value { w.progress.over ≡ false }
    requires periods_le_period { w.progress.bus.periods.0 ≤ period }
    requires period_le_most_periods { period ≤ most_periods }
    requires value_len_bound { length (value_octets event value.now) ≤ value_room }
    ensures { (ends : Ends) → StepsBy (Entry period unit event ends size) value.now
        (spec.book_state_of w.progress images.old octets.old letters.old) room.old w.wrote
        (spec.book_state_of result.progress images.new octets.new letters.new) result.taken room.new
        result.wrote result.why }
{
    let u = run_to(w, images, octets, letters, room, period);
    if !has_room(room.len(), u.wrote) {
        return reached(w, u, w.progress.stage, 0, ROOM);
    }
    if is_end(unit, event) {
        return reached(w, u, AFTER_END, size, 0);
    }
    let g = give(u, images, letters, unit, event, value, room);
    reached(w, g, AT_LINES, size, 0)
}

// One step of a book: the report's first line, the book's first line, a line, or its end.
ghost use Rattle.std.specs.Prelude.{true, false, ◌≡◌, ◌+◌, ◌≤◌, length};
ghost use Rattle.period_text.specs.PeriodText.{period_room};
ghost use Rattle.book_go_on.specs.Progress as spec;
ghost use Rattle.book_go_on.specs.Steps.{IsRead, StepsBy};

use super::line::line;
use super::progress::{GoneOn, OVER, Progress, ROOM, TEXT};
use super::run_to::has_room;
use book_reader::step::{AT_LINES, Step, octets_of};
use note_text::note::{put_heading, put_stopped};

// Gives the same bus, at another stage of the book and of its report.
fn turned(
    w: GoneOn,
    stage: u8,
    begun: bool,
    over: bool,
    taken: usize,
    wrote: usize,
    why: u8,
) -> GoneOn
    ensures { result ≡ spec.turned w stage begun over taken wrote why }
{
    GoneOn {
        progress: Progress {
            stage,
            begun,
            over,
            ..w.progress
        },
        taken,
        wrote,
        why,
    }
}

// Gives the same bus at another place of the text, with nothing written.
fn stays(w: GoneOn, stage: u8, taken: usize, why: u8) -> GoneOn
    ensures { result ≡ spec.turned w stage w.progress.begun w.progress.over taken w.wrote why }
{
    GoneOn {
        progress: Progress {
            stage,
            ..w.progress
        },
        taken,
        why,
        ..w
    }
}

// Carries out what the reader has read; the value is that of the line.
fn carry_out(
    w: GoneOn,
    images: &mut [u8],
    octets: &mut [u8],
    letters: &mut [u8],
    said: Step,
    value: &[u8],
    room: &mut [u8],
) -> GoneOn
    requires goes { spec.Goes w images.old octets.old letters.old room.old }
    requires read { IsRead (spec.book_state_of w.progress images.old octets.old letters.old) said value.now }
    requires period_room_in_bounds { w.wrote + period_room ≤ length room.old }
    requires begun_value { w.progress.begun ≡ true }
    requires over_value { w.progress.over ≡ false }
    ensures { StepsBy said value.now
        (spec.book_state_of w.progress images.old octets.old letters.old) room.old w.wrote
        (spec.book_state_of result.progress images.new octets.new letters.new) result.taken room.new
        result.wrote result.why }
{
    let stage = w.progress.stage;
    match said {
        Step::Begun => stays(w, AT_LINES, octets_of(said), 0),
        Step::Entry {
            period,
            unit,
            event,
            ends: _,
            octets: size,
        } => line(
            w, images, octets, letters, value, room, period, unit, event, size,
        ),
        Step::Done => turned(w, stage, w.progress.begun, true, 0, w.wrote, OVER),
        Step::Fault(n) => {
            let wrote = put_stopped(room, w.wrote, n);
            turned(w, stage, w.progress.begun, true, 0, wrote, OVER)
        }
        Step::More => stays(w, stage, 0, TEXT),
    }
}

// Takes one step: the report's first line, or what the reader has read. Room for the notes of a
// period is asked for first, so that nothing is ever pending. What it gives back says how many
// octets of the text this step has taken.
pub(crate) fn step(
    w: GoneOn,
    images: &mut [u8],
    octets: &mut [u8],
    letters: &mut [u8],
    said: Step,
    value: &[u8],
    room: &mut [u8],
) -> GoneOn
    requires goes { spec.Goes w images.old octets.old letters.old room.old }
    requires read { IsRead (spec.book_state_of w.progress images.old octets.old letters.old) said value.now }
    ensures { StepsBy said value.now
        (spec.book_state_of w.progress images.old octets.old letters.old) room.old w.wrote
        (spec.book_state_of result.progress images.new octets.new letters.new) result.taken room.new
        result.wrote result.why }
{
    if w.progress.over {
        return stays(w, w.progress.stage, 0, OVER);
    }
    if !has_room(room.len(), w.wrote) {
        return stays(w, w.progress.stage, 0, ROOM);
    }
    if !w.progress.begun {
        let wrote = put_heading(room, w.wrote);
        return turned(w, w.progress.stage, true, w.progress.over, 0, wrote, 0);
    }
    carry_out(w, images, octets, letters, said, value, room)
}

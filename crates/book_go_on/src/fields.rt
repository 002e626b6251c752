// What the loop over the book's lines needs of the record that its steps hand on, each by value.
ghost use Rattle.std.specs.Prelude.{◌≡◌, eqb};
ghost use Rattle.book_go_on.specs.Progress as spec;

use super::progress::{GoneOn, Progress};

// Starts before the first step: nothing is taken or written yet.
pub(crate) fn untaken(progress: Progress) -> GoneOn
    ensures { result ≡ spec.untaken progress }
{
    GoneOn {
        progress,
        taken: 0,
        wrote: 0,
        why: 0,
    }
}

// Gives how far the book's reader has come.
pub(crate) fn stage_of(w: GoneOn) -> u8
    ensures { result ≡ w.progress.stage }
{
    w.progress.stage
}

// Gives the number of periods run: the last line's period.
pub(crate) fn periods_of(w: GoneOn) -> u32
    ensures { result ≡ w.progress.bus.periods.0 }
{
    w.progress.bus.periods.0
}

// Gives how many octets the last step has taken.
pub(crate) fn taken_of(w: GoneOn) -> usize
    ensures { result ≡ w.taken }
{
    w.taken
}

// Tests whether there is another step to come.
pub(crate) fn goes_on(w: GoneOn) -> bool
    ensures { result ≡ eqb w.why 0 }
{
    w.why == 0
}

// Ends after the last step: `taken` octets of the text are taken in all.
pub(crate) fn ended(w: GoneOn, taken: usize) -> GoneOn
    ensures { result ≡ spec.ended w taken }
{
    GoneOn { taken, ..w }
}

// The places for the terminals' notes, emptied.
ghost use Rattle.std.specs.Prelude.{◌≡◌};
ghost use Rattle.slice_lemmas.specs.Over.{map_from};
ghost use Rattle.period_hearing.specs.Hears.{silenced};

use super::hears::UnitNotes;

// Empties all places for notes.
pub fn silence(notes: &mut [UnitNotes])
    ensures { notes.new ≡ map_from silenced 0 notes.old }
{
    notes.fill(UnitNotes::NONE);
}

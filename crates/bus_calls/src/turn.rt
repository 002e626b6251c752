// A turn of a run's loop: as many periods at once as a lemma allows. Where one terminal sends alone
// these are the periods in which it does; else those in which the bus is still, if any, and one
// more.
ghost use Rattle.std.specs.Prelude.{◌≡◌, length};
ghost use Rattle.bus_call_specs.specs.Kept.{kept};
ghost use Rattle.idle_periods.specs.Turn.{Turns};

use super::step::step;
use bus_record::record::BusRecord;
use bus_record::side::RunAnswer;
use idle_periods::leap::leapt;
use idle_periods::reach::reach;
use lone_sender::alone::run_alone;
use lone_sender::follow::follow;
use lone_sender::search::{find, in_vain};
use period_hearing::hears::UnitNotes;
use period_hearing::silence::silence;
use terminal::Terminal;

// What a turn gives: the answer of its last period, and how many periods were run before that one.
#[derive(Clone, Copy)]
pub struct Turn {
    pub answer: RunAnswer,
    pub over: u32,
}

// Steps over the periods in which the bus is still, with `left` periods left to run, and runs one
// more.
fn leap_on(
    bus: BusRecord,
    terminals: &mut [Terminal],
    images: &[u8],
    octets: &mut [u8],
    letters: &[u8],
    notes: &mut [UnitNotes],
    left: u32,
) -> Turn
    requires { length notes.old ≡ length terminals.old }
    ensures { Turns left
        (kept bus terminals.old images.now octets.old letters.now notes.old)
        result.answer result.over
        (kept result.answer.bus terminals.new images.now octets.new letters.now
        notes.new) }
{
    let over = reach(bus, terminals, left);
    let answer = step(leapt(bus, over), terminals, images, octets, letters, notes);
    Turn { answer, over }
}

// Runs one turn, with `left` periods left to run: where one terminal sends alone, the periods in
// which it does; else what `leap_on` runs.
pub(crate) fn advance(
    bus: BusRecord,
    terminals: &mut [Terminal],
    images: &[u8],
    octets: &mut [u8],
    letters: &[u8],
    notes: &mut [UnitNotes],
    left: u32,
) -> Turn
    requires { length notes.old ≡ length terminals.old }
    ensures { Turns left
        (kept bus terminals.old images.now octets.old letters.now notes.old)
        result.answer result.over
        (kept result.answer.bus terminals.new images.now octets.new letters.now
        notes.new) }
{
    if in_vain(bus) {
        return leap_on(bus, terminals, images, octets, letters, notes, left);
    }
    let found = find(terminals, bus.periods, left);
    let most = found.alone_for();
    if most == 0 {
        return leap_on(bus, terminals, images, octets, letters, notes, left);
    }
    let alone = run_alone(bus, images, octets, found.lone, most);
    if alone.over == 0 {
        return leap_on(bus, terminals, images, octets, letters, notes, left);
    }
    follow(terminals, alone.lone);
    silence(notes);
    Turn {
        answer: alone.answer,
        over: alone.over - 1,
    }
}

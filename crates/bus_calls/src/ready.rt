// The checks before a run: refusals 1, 2 and 9; and whether a run goes on. `in_range` serves
// `event` too.
ghost use Rattle.std.specs.Prelude.{◌≡◌};
ghost use Rattle.refusals.specs.Numbers.{unless_refused};
ghost use Rattle.bus_call_specs.specs.Ready.{eight_in_range, run_reason, run_goes_on};

use bus_event::event::IMAGES_ROOM;
use bus_record::record::BusRecord;
use bus_record::side::RunAnswer;
use combining::combine::TERMINALS;
use combining::hit::NONE_LETTER;
use hdlc::LONGEST_BODY;
use refusals::Refusal;
use symbols::{LINE_LENGTH, fits};
use terminal::Terminal;

// Tests whether the slice has eight terminals, each in its range.
#[tactic(auto, using(crate::proofs::Gathered::ready_gathered))]
pub fn in_range(terminals: &[Terminal]) -> bool
    ensures { result ≡ eight_in_range terminals.now }
{
    let eight = terminals.len() == TERMINALS;
    terminals
        .iter()
        .copied()
        .fold(eight, |ok, terminal| ok & terminal.in_range())
}

// Gives the first of the reasons 1, 2 and 9 for which a run of at most `most` periods is turned
// down, where one holds: `ready` is whether the slice of terminals is in order; `images`, `octets`
// and `notes` are the lengths of what is lent.
#[tactic(auto, unfolding(bus_call_specs::specs::Ready::run_reason, bus_call_specs::specs::Ready::lent_fits))]
pub fn run_reason(
    ready: bool,
    bus: BusRecord,
    images: usize,
    octets: usize,
    letters: &[u8],
    notes: usize,
    most: u32,
) -> Result<(), Refusal>
    ensures { result
        ≡ unless_refused (run_reason ready bus images octets letters.now notes most) tt }
{
    if !(ready & bus.in_range()) {
        return Err(Refusal::OutOfRange);
    }
    let lent = (images == IMAGES_ROOM) & (LONGEST_BODY <= octets) & (notes == TERMINALS);
    if !(lent & fits(letters, LINE_LENGTH, NONE_LETTER)) {
        return Err(Refusal::WrongSlice);
    }
    if (0 < most) & bus.periods.all_run() {
        return Err(Refusal::AllPeriodsRun);
    }
    Ok(())
}

// Tests whether a run goes on with `left` periods left: the last one has no note, and one more can
// be run.
#[tactic(auto, unfolding(bus_call_specs::specs::Ready::run_goes_on))]
pub fn goes_on(last: RunAnswer, left: u32) -> bool
    ensures { result ≡ run_goes_on last left }
{
    (last.reply == 0) & !last.told & (0 < left) & !last.bus.periods.all_run()
}

// One period: exchange, hearing, then the timers due at the next one's start.
ghost use Rattle.std.specs.Prelude.{◌≡◌, length};
ghost use Rattle.bus_call_specs.specs.Step.{step_answer, step_terminals, step_octets, step_notes};

use bus_record::echo::{first_tally, heard_down};
use bus_record::record::BusRecord;
use bus_record::side::{RunAnswer, network_side};
use exchange::opportunity::exchange;
use period_hearing::hears::UnitNotes;
use period_hearing::listen::listen;
use terminal::Terminal;

// Runs one period.
pub(crate) fn step(
    bus: BusRecord,
    terminals: &mut [Terminal],
    images: &[u8],
    octets: &mut [u8],
    letters: &[u8],
    notes: &mut [UnitNotes],
) -> RunAnswer
    requires { length notes.old ≡ length terminals.old }
    ensures value { result ≡ step_answer bus terminals.old images.now octets.old letters.now }
    ensures terminals_after { terminals.new ≡ step_terminals bus terminals.old images.now letters.now }
    ensures octets_after { octets.new
        ≡ step_octets bus terminals.old images.now octets.old letters.now }
    ensures notes_after { notes.new ≡ step_notes bus terminals.old images.now letters.now }
{
    let first = first_tally(bus, letters);
    let tally = exchange(terminals, images, first);
    let line = heard_down(bus, tally.ds, letters);
    let told = listen(terminals, notes, line, bus.periods);
    network_side(bus, tally, octets, told)
}

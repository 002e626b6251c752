// The step over the periods of a still bus.
ghost use Rattle.std.specs.Prelude.{◌≡◌};
ghost use Rattle.idle_periods.specs.Still as spec;

use bus_record::record::BusRecord;
use bus_record::side::counted_over;
use timing::counts::{MOST_PERIODS, Periods};

// Steps over `over` periods: they count as run, in G3 four times as many D opportunities, and all
// else stays as it was.
#[tactic(auto, unfolding(crate::specs::Still::leapt))]
pub fn leapt(bus: BusRecord, over: u32) -> BusRecord
    ensures { result ≡ spec.leapt over bus }
{
    let periods = bus.periods.0 as u64 + over as u64;
    if (MOST_PERIODS as u64) < periods {
        return bus;
    }
    let opportunities = counted_over(bus.network.state, over, bus.opportunities);
    bus.with_counts(Periods(periods as u32), opportunities)
}

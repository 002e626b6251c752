// How far a bus is still, over the lent terminals.
ghost use Rattle.std.specs.Prelude.{◌≡◌};
ghost use Rattle.idle_periods.specs.Still as spec;

use super::ahead::Ahead;
use bus_record::record::BusRecord;
use terminal::Terminal;

// Gives how many periods are one step, with `left` periods left to run: one of these stays to be
// run after it. 0 where the bus is not still; most often the bus record alone says so.
#[tactic(auto, using(crate::proofs::Gathered::reach_gathered, crate::proofs::NoReach::reach_none))]
pub fn reach(bus: BusRecord, terminals: &[Terminal], left: u32) -> u32
    ensures { result ≡ spec.reach bus terminals.now left }
{
    let first = Ahead::first(bus, left);
    if first.over == 0 {
        return 0;
    }
    let ahead = terminals.iter().copied().fold(first, Ahead::also);
    ahead.reached(bus.network)
}

// How far a bus is still, gathered by value from its units.
ghost use Rattle.std.specs.Prelude.{◌≡◌};
ghost use Rattle.idle_periods.specs.Still as spec;

use bus_record::echo::shown_by;
use bus_record::reading::waits;
use bus_record::record::BusRecord;
use bus_record::side::{network_rests, shown_from};
use exchange::rest::part_rests;
use heard_line::heard::Downward;
use network::Network;
use period_hearing::hears::rests;
use table_6_2::info_sent;
use table_6_3::G3;
use terminal::Terminal;
use timing::counts::{MOST_PERIODS, Periods};
use timing::timers::clear;

// How far a bus is still, as far as the units looked at so far allow.
#[derive(Clone, Copy)]
pub struct Ahead {
    // How many periods are one step.
    pub over: u32,
    // The number of the coming period.
    pub now: Periods,
    // What all powered terminals hear in it.
    pub line: Downward,
    // Whether any terminal sends INFO 1, and INFO 3.
    pub info1: bool,
    pub info3: bool,
}

// Tests whether no hit is pending, D was 1, and in G3 the reader waits.
#[tactic(auto, using(test_lemmas::proofs::Operators::not_or), unfolding(crate::specs::Still::quiet))]
fn quiet(bus: BusRecord) -> bool
    ensures { result ≡ spec.quiet bus }
{
    !bus.hit & bus.echo & ((bus.network.state != G3) | waits(bus.reader))
}

// Gives how far the network end's own timers and `left`, the periods left to run, allow; one of
// these stays to be run.
#[tactic(auto, unfolding(crate::specs::Still::farthest))]
fn farthest(bus: BusRecord, left: u32) -> u32
    ensures { result ≡ spec.farthest bus left }
{
    if quiet(bus) {
        let asked = clear(bus.periods, left.saturating_sub(1), MOST_PERIODS as u64);
        let before_t1 = clear(bus.periods, asked, bus.network.t1);
        clear(bus.periods, before_t1, bus.network.t2)
    } else {
        0
    }
}

impl Ahead {
    // Starts with the network end: no terminal has been looked at.
    #[tactic(auto, unfolding(crate::specs::Still::first_ahead))]
    pub fn first(bus: BusRecord, left: u32) -> Self
        ensures { result ≡ spec.first_ahead bus left }
    {
        Ahead {
            over: farthest(bus, left),
            now: bus.periods,
            line: shown_by(bus.network.state),
            info1: false,
            info3: false,
        }
    }

    // Gives how far one terminal more allows: it takes no part in the exchange and hears what it
    // heard before, until its timer is due.
    #[tactic(auto, unfolding(crate::specs::Still::over_with))]
    fn over_with(self, terminal: Terminal) -> u32
        ensures { result ≡ spec.over_with self terminal }
    {
        if rests(terminal, self.line) & part_rests(terminal) {
            clear(self.now, self.over, terminal.t3)
        } else {
            0
        }
    }

    // Adds one terminal.
    #[tactic(auto, unfolding(crate::specs::Still::also_ahead))]
    pub fn also(self, terminal: Terminal) -> Self
        ensures { result ≡ spec.also_ahead 0 self terminal }
    {
        let info = info_sent(terminal.state);
        Ahead {
            over: self.over_with(terminal),
            info1: self.info1 | (info == 1),
            info3: self.info3 | (info == 3),
            ..self
        }
    }

    // Gives how far the bus is still, once all terminals have been added: 0 unless the network end
    // hears what it heard before.
    #[tactic(auto, unfolding(crate::specs::Still::reached))]
    pub fn reached(self, network: Network) -> u32
        ensures { result ≡ spec.reached network self }
    {
        if network_rests(network, shown_from(self.info1, self.info3)) {
            self.over
        } else {
            0
        }
    }
}

// The bus record.
ghost use Rattle.std.specs.Prelude.{◌≡◌};
ghost use Rattle.bus_record.specs.Record as spec;

use cycle::record::Cycle;
use d_reader::Reader;
use network::Network;
use timing::counts::{Opportunities, Periods};

#[derive(Clone, Copy)]
pub struct BusRecord {
    pub network: Network,
    // Periods run, which is the number of the period that comes next, and D opportunities run.
    pub periods: Periods,
    pub opportunities: Opportunities,
    pub reader: Reader,
    // The cycle of Q and S bits: nothing starts it yet.
    pub cycle: Cycle,
    // The last combined D that the network end heard, which the next E echoes.
    pub echo: bool,
    // Whether a hit is given for the coming exchange; its letters are lent.
    pub hit: bool,
}

impl BusRecord {
    // Gives a fresh bus: G1, unaligned, no timer running, nothing run and nothing read.
    pub fn fresh() -> Self
        ensures { result ≡ spec.fresh_record }
    {
        BusRecord {
            network: Network::fresh(),
            periods: Periods(0),
            opportunities: Opportunities(0),
            reader: Reader::fresh(),
            cycle: Cycle::fresh(),
            echo: true,
            hit: false,
        }
    }

    // Gives the record with other counts of periods and D opportunities.
    pub fn with_counts(self, periods: Periods, opportunities: Opportunities) -> Self
        ensures { result ≡ spec.with_counts periods opportunities self }
    {
        BusRecord {
            periods,
            opportunities,
            ..self
        }
    }

    // Gives the record with another network end, and with its reader.
    pub fn with_network(self, network: Network, reader: Reader) -> Self
        ensures { result ≡ spec.with_network network reader self }
    {
        BusRecord {
            network,
            reader,
            ..self
        }
    }

    // Gives the record with another last D.
    pub fn with_echo(self, echo: bool) -> Self
        ensures { result ≡ spec.with_echo echo self }
    {
        BusRecord { echo, ..self }
    }

    // Gives the record with a hit pending, or with none.
    pub fn with_hit(self, hit: bool) -> Self
        ensures { result ≡ spec.with_hit hit self }
    {
        BusRecord { hit, ..self }
    }

    // Tests whether every field is in its range.
    #[tactic(auto, unfolding(crate::specs::Record::record_in_range))]
    pub fn in_range(self) -> bool
        ensures { result ≡ spec.record_in_range self }
    {
        self.network.in_range()
            & self.periods.in_range()
            & self.opportunities.in_range(self.periods)
            & self.reader.in_range()
            & self.cycle.rests()
    }
}

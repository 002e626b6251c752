// The network end's side of a period: it reads D, hears the upward line, and then come the timers
// due at the next one's start.
ghost use Rattle.std.specs.Prelude.{◌≡◌};
ghost use Rattle.bus_rules.specs.Quick.{shown_from};
ghost use Rattle.network.specs.Network.{unchanged};
ghost use Rattle.network.specs.Steps.{step_of};
ghost use Rattle.bus_record.specs.NetworkSide.{reader_after, network_rests, network_listens, counted_over};
ghost use Rattle.bus_record.specs.NetworkSide.{answer_with, answer_after, octets_after, refused_run};

use super::reading::{Spoken, read_in};
use super::record::BusRecord;
use d_reader::Reader;
use exchange::tally::Tally;
use heard_line::heard::Upward;
use network::{Network, NetworkStep};
use notes_and_cells::cell::NO_NOTES;
use period_hearing::hears::UnitNotes;
use table_6_3::{G1, G2, G3, G4};
use timing::counts::{MOST_PERIODS, Opportunities, Periods};
use timing::timers::due;

// What a run of periods gives: the record; the last period's notes of unit 0, of the reader (its
// code, 0 for none, and the length of the heard body) and of frames completed (bit i for
// terminal i + 1); whether that period has a note; and 0 or the number of the refusal.
// Kept: what may not change: period_text's `put_period` takes an answer with any of these numbers.
#[derive(Clone, Copy)]
pub struct RunAnswer {
    pub bus: BusRecord,
    pub network: UnitNotes,
    pub body: u16,
    pub said: u8,
    pub done1: u8,
    pub done2: u8,
    pub told: bool,
    pub reply: u8,
}

// The network end after a period, and its notes.
#[derive(Clone, Copy)]
pub struct NetworkHeard {
    pub network: Network,
    pub notes: UnitNotes,
    // Whether it has left G3 on the way.
    pub left: bool,
}

// Gives what the terminals' line shows, where any terminal sends INFO 1 (`info1`), any INFO 3
// (`info3`).
#[tactic(auto, using(crate::proofs::EchoLaws::shown_up_lem))]
pub fn shown_from(info1: bool, info3: bool) -> Upward
    ensures { result ≡ shown_from info1 info3 }
{
    Upward {
        pulse: info1 | info3,
        framed: info3 & !info1,
        info1: info1 & !info3,
    }
}

// Tests whether the network end hears what it heard before, so that nothing happens: in G1 and G2
// unaligned no pulse, in G3 aligned INFO 3, in G4 unaligned INFO 1.
#[tactic(auto, unfolding(crate::specs::NetworkSide::network_rests))]
pub fn network_rests(network: Network, line: Upward) -> bool
    ensures { result ≡ network_rests line network }
{
    let state = network.state;
    let aligned = network.alignment.aligned;
    if network.alignment.run != 0 {
        return false;
    }
    if state == G3 {
        return aligned & line.pulse & line.framed & !line.info1;
    }
    if line.pulse {
        return !aligned & (!line.framed & line.info1 & (state == G4));
    }
    !aligned & ((state == G1) | (state == G2))
}

// Lets the network end hear the line of a period, and then takes its timers at the next one's
// start.
fn network_listens(network: Network, line: Upward, period: Periods) -> NetworkHeard
    ensures { result ≡ network_listens line period network }
{
    let next = period.next_period();
    let timer_due = due(network.t1, next) | due(network.t2, next);
    if network_rests(network, line) & !timer_due {
        return NetworkHeard {
            network,
            notes: UnitNotes::NONE,
            left: false,
        };
    }
    let heard = network.hear(line, period).unwrap_or(without_notes(network));
    let after = heard.network;
    let timed = after.timer_due(next).unwrap_or(without_notes(after));
    let last = timed.network;
    NetworkHeard {
        network: last,
        notes: UnitNotes {
            hearing: heard.notes,
            timers: timed.notes,
        },
        left: ((network.state == G3) & (after.state != G3))
            | ((after.state == G3) & (last.state != G3)),
    }
}

// Gives what a call of the network end leaves where it is refused: the record as it was.
fn without_notes(network: Network) -> NetworkStep
    ensures { result ≡ step_of (unchanged 0 network) }
{
    NetworkStep {
        network,
        notes: NO_NOTES,
    }
}

// Clears the reader where G3 has been left.
#[tactic(auto, unfolding(crate::specs::NetworkSide::reader_after))]
pub fn reader_after(left: bool, reader: Reader) -> Reader
    ensures { result ≡ reader_after left reader }
{
    if left { Reader::fresh() } else { reader }
}

// Counts four D opportunities more for each of `over` periods in G3, elsewhere none.
#[tactic(auto, unfolding(crate::specs::NetworkSide::counted_over))]
pub fn counted_over(state: u8, over: u32, opportunities: Opportunities) -> Opportunities
    ensures { result ≡ counted_over state over opportunities }
{
    if (state == G3) & (opportunities.0 <= 4 * MOST_PERIODS) & (over <= MOST_PERIODS) {
        Opportunities(opportunities.0 + 4 * over)
    } else {
        opportunities
    }
}

// Gathers all that a period gives: from what the reader said, the network end heard and the
// exchange left.
#[tactic(auto, using(crate::proofs::Counted::counted_one), unfolding(crate::specs::NetworkSide::answer_with, crate::specs::NetworkSide::period_has_note))]
fn ran_with(
    bus: BusRecord,
    tally: Tally,
    spoken: Spoken,
    side: NetworkHeard,
    told: bool,
) -> RunAnswer
    ensures { result ≡ answer_with bus tally spoken side told }
{
    let notes = side.notes;
    let reader = reader_after(side.left, spoken.reader);
    let opportunities = counted_over(bus.network.state, 1, bus.opportunities);
    let said = spoken.note();
    let heard = bus
        .with_hit(false)
        .with_echo(tally.echo)
        .with_network(side.network, reader);
    RunAnswer {
        bus: heard.with_counts(bus.periods.next_period(), opportunities),
        network: notes,
        body: spoken.body(),
        said,
        done1: tally.done1,
        done2: tally.done2,
        told: told
            | (said != 0)
            | (tally.done1 != 0)
            | (tally.done2 != 0)
            | (0 < notes.hearing.0)
            | (0 < notes.timers.0),
        reply: 0,
    }
}

// Runs the network end's side of a period, after the exchange and the terminals' hearing.
#[tactic(auto, unfolding(crate::specs::NetworkSide::answer_after, crate::specs::NetworkSide::octets_after))]
pub fn network_side(bus: BusRecord, tally: Tally, octets: &mut [u8], told: bool) -> RunAnswer
    ensures value { result ≡ answer_after bus tally octets.old told }
    ensures octets_after { octets.new ≡ octets_after bus tally octets.old }
{
    let spoken = read_in(bus.network.state, bus.reader, tally.ds, octets);
    let side = network_listens(
        bus.network,
        shown_from(tally.info1, tally.info3),
        bus.periods,
    );
    ran_with(bus, tally, spoken, side, told)
}

// Gives the record as it is, with a reply: nothing is run.
#[tactic(auto, unfolding(crate::specs::NetworkSide::refused_run))]
pub fn refused_run(bus: BusRecord, reply: u8) -> RunAnswer
    ensures { result ≡ refused_run reply bus }
{
    RunAnswer {
        bus,
        network: UnitNotes::NONE,
        body: 0,
        said: 0,
        done1: 0,
        done2: 0,
        told: false,
        reply,
    }
}

// What a person asks of a bus that is lent as octets: the counts, and one unit.
ghost use Rattle.std.specs.Prelude.{◌≡◌, ◌≤◌};
ghost use Rattle.refusals.specs.Numbers.{reply_of};
ghost use Rattle.bus_rules.specs.Bus.{terminals};
ghost use Rattle.bus_octets.specs.Layout.{shown};
ghost use Rattle.host_bus.specs.Looking.{counts_reply, counts_after, network_seen, terminal_seen, unit_seen, unit_reply, unit_after};

use super::lent::lent_reason;
use bus_octets::shown::{record_in, terminals_in};
use combining::combine::TERMINALS;
use network::Network;
use note_text::low::put_word;
use note_text::room::put;
use refusals::{Refusal, reply};
use terminal::Terminal;

// How many octets the counts take, and how many a unit.
const COUNTS: usize = 8;

const SEEN: usize = 7;

// The highest unit number: that of the last terminal.
const LAST_UNIT: u32 = TERMINALS as u32;

// Writes the periods run and the D opportunities run.
fn put_counts(bus: &[u8], counts: &mut [u8]) -> Result<(), Refusal>
    ensures value { reply_of result ≡ counts_reply bus.now counts.old }
    ensures counts_after { counts.new ≡ counts_after bus.now counts.old }
{
    lent_reason(bus, counts.len(), COUNTS)?;
    let record = record_in(bus);
    let wrote = put_word(counts, 0, record.periods.0);
    put_word(counts, wrote, record.opportunities.0);
    Ok(())
}

// Writes the periods run and the D opportunities run. Gives 0; 1 where the octets are no bus; 2
// where less than eight octets are lent for the counts.
pub fn sbus_counts(bus: &[u8], counts: &mut [u8]) -> u32
    ensures value { result ≡ counts_reply bus.now counts.old }
    ensures counts_after { counts.new ≡ counts_after bus.now counts.old }
{
    reply(put_counts(bus, counts))
}

// Gives what is shown of the network end, which holds no frame.
fn network_seen(n: Network) -> [u8; SEEN]
    ensures { result ≡ network_seen n }
{
    [n.state, n.alignment.aligned as u8, 0, 0, 0, 0, 0]
}

fn terminal_seen(t: Terminal) -> [u8; SEEN]
    ensures { result ≡ terminal_seen t }
{
    let length = t.access.length.to_le_bytes();
    let sent = t.access.sent.to_le_bytes();
    [
        t.state,
        t.alignment.aligned as u8,
        t.access.held,
        length[0],
        length[1],
        sent[0],
        sent[1],
    ]
}

fn unit_seen(bus: &[u8], unit: u32) -> [u8; SEEN]
    requires { unit ≤ terminals }
    ensures { result ≡ unit_seen unit (shown bus.now) }
{
    if unit == 0 {
        let record = record_in(bus);
        return network_seen(record.network);
    }
    let i = (unit - 1) as usize;
    let all = terminals_in(bus);
    let t = all[i];
    terminal_seen(t)
}

// Writes a unit's state, alignment and held frame.
fn put_unit(bus: &[u8], unit: u32, seen: &mut [u8]) -> Result<(), Refusal>
    ensures value { reply_of result ≡ unit_reply unit bus.now seen.old }
    ensures seen_after { seen.new ≡ unit_after unit bus.now seen.old }
{
    lent_reason(bus, seen.len(), SEEN)?;
    if LAST_UNIT < unit {
        return Err(Refusal::NoSuchUnit);
    }
    let octets = unit_seen(bus, unit);
    put(seen, 0, &octets);
    Ok(())
}

// Writes a unit's state, alignment and held frame. Gives 0; 1 where the octets are no bus; 2 where
// less than seven octets are lent for them; 3 where the unit is above 8.
pub fn sbus_unit(bus: &[u8], unit: u32, seen: &mut [u8]) -> u32
    ensures value { result ≡ unit_reply unit bus.now seen.old }
    ensures seen_after { seen.new ≡ unit_after unit bus.now seen.old }
{
    reply(put_unit(bus, unit, seen))
}

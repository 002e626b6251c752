// Records as octets, in lent room. A record's parts stand one behind the other and never move or
// grow: a field more goes behind them, over what was reserved.
ghost use Rattle.std.specs.Prelude.{[], ◌∷◌, ◌++◌, ◌≡◌, replicate};
ghost use Rattle.note_text.specs.Room.{Put, laid};
ghost use Rattle.bus_octets.specs.Layout.{record_length, terminal_length, counts_fields, network_fields, reader_fields};
ghost use Rattle.bus_octets.specs.Layout.{access_fields, flag, record_fields, terminal_fields};
ghost use Rattle.bus_octets.specs.Layout.{record_octets, terminal_octets, terminals_octets, head_octets};

use super::layout::{RECORD_LENGTH, TERMINAL_LENGTH, VERSION};
use alignment::Alignment;
use bus_record::record::BusRecord;
use d_reader::Reader;
use dchannel::access::Access;
use network::Network;
use note_text::low::{put_half, put_word};
use note_text::room::put;
use terminal::Terminal;

// Puts what the record begins with: the letters, the version and the counts.
fn put_counts(room: &mut [u8], wrote: usize, periods: u32, opportunities: u32) -> usize
    ensures { Put room.old wrote (counts_fields periods opportunities) result room.new }
{
    let a = put(room, wrote, &[b'S', b'B', b'U', b'S', VERSION]);
    let b = put_word(room, a, periods);
    put_word(room, b, opportunities)
}

// Puts whether a unit is aligned, and how long its run is.
fn put_alignment(room: &mut [u8], wrote: usize, alignment: Alignment) -> usize
    ensures { Put room.old wrote (flag alignment.aligned ∷ alignment.run ∷ []) result room.new }
{
    put(room, wrote, &[alignment.aligned as u8, alignment.run])
}

// Puts the network end: of its timers the low-order four octets, its state, its alignment.
fn put_network(room: &mut [u8], wrote: usize, network: Network) -> usize
    ensures { Put room.old wrote (network_fields network) result room.new }
{
    let a = put(room, wrote, &network.t1.to_le_bytes()[..4]);
    let b = put(room, a, &network.t2.to_le_bytes()[..4]);
    let c = put(room, b, &[network.state]);
    put_alignment(room, c, network.alignment)
}

// Puts its reader.
fn put_reader(room: &mut [u8], wrote: usize, reader: Reader) -> usize
    ensures { Put room.old wrote (reader_fields reader) result room.new }
{
    let a = put_half(room, wrote, reader.bits);
    put(
        room,
        a,
        &[
            reader.ones,
            reader.octet,
            reader.opened as u8,
            reader.zero as u8,
        ],
    )
}

// Puts the last D heard, and whether a hit is pending.
fn put_flags(room: &mut [u8], wrote: usize, echo: bool, hit: bool) -> usize
    ensures { Put room.old wrote (flag echo ∷ flag hit ∷ []) result room.new }
{
    put(room, wrote, &[echo as u8, hit as u8])
}

// Gives the record's octets: its parts, over as many 0s as it has octets.
fn record_octets(bus: BusRecord) -> [u8; RECORD_LENGTH]
    ensures { result ≡ laid (replicate record_length 0) 0 (record_fields bus) }
{
    let mut octets = [0u8; RECORD_LENGTH];
    let counts = put_counts(&mut octets, 0, bus.periods.0, bus.opportunities.0);
    let network = put_network(&mut octets, counts, bus.network);
    let reader = put_reader(&mut octets, network, bus.reader);
    put_flags(&mut octets, reader, bus.echo, bus.hit);
    octets
}

// Puts the record.
fn put_record(room: &mut [u8], wrote: usize, bus: BusRecord) -> usize
    ensures { Put room.old wrote (record_octets bus) result room.new }
{
    let octets = record_octets(bus);
    put(room, wrote, &octets)
}

// Puts how a terminal stands with D.
fn put_access(room: &mut [u8], wrote: usize, access: Access) -> usize
    ensures { Put room.old wrote (access_fields access) result room.new }
{
    let a = put_half(room, wrote, access.length);
    let b = put_half(room, a, access.sent);
    put(
        room,
        b,
        &[
            access.count,
            access.held,
            access.low1 as u8,
            access.low2 as u8,
            access.last as u8,
        ],
    )
}

// Gives a terminal's octets: its fields, over as many 0s as it has octets.
fn terminal_octets(terminal: Terminal) -> [u8; TERMINAL_LENGTH]
    ensures { result ≡ laid (replicate terminal_length 0) 0 (terminal_fields terminal) }
{
    let mut octets = [0u8; TERMINAL_LENGTH];
    let a = put(&mut octets, 0, &terminal.t3.to_le_bytes()[..4]);
    let b = put_access(&mut octets, a, terminal.access);
    let c = put(&mut octets, b, &[terminal.state]);
    put_alignment(&mut octets, c, terminal.alignment);
    octets
}

// Puts a terminal.
fn put_terminal(room: &mut [u8], wrote: usize, terminal: Terminal) -> usize
    ensures { Put room.old wrote (terminal_octets terminal) result room.new }
{
    let octets = terminal_octets(terminal);
    put(room, wrote, &octets)
}

// Puts the terminals, one behind the other.
fn put_terminals(room: &mut [u8], wrote: usize, terminals: [Terminal; 8]) -> usize
    ensures { Put room.old wrote (terminals_octets terminals) result room.new }
{
    let mut at = wrote.min(room.len());
    for t in &terminals {
        at = put_terminal(room, at, *t);
    }
    at
}

// Puts the record and the terminals.
pub fn put_head(room: &mut [u8], bus: BusRecord, terminals: [Terminal; 8]) -> usize
    ensures { Put room.old 0 (head_octets bus terminals) result room.new }
{
    let wrote = put_record(room, 0, bus);
    put_terminals(room, wrote, terminals)
}

// Writes all of a bus but its images over its first octets: the record, the terminals, the letters
// of the hit and the reader's octets.
pub fn lay(s: &mut [u8], bus: BusRecord, terminals: [Terminal; 8], letters: &[u8], octets: &[u8])
    ensures { s.new ≡ laid s.old 0 (head_octets bus terminals ++ (letters.now ++ octets.now)) }
{
    let a = put_head(s, bus, terminals);
    let b = put(s, a, letters);
    put(s, b, octets);
}

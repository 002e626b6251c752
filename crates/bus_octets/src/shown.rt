// What the octets of a bus stand for.
ghost use Rattle.std.specs.Prelude.{◌≡◌, ◌≤◌, ◌+◌, ◌*◌};
ghost use Rattle.bus_octets.specs.Layout.{alignment_at, terminals_at, terminal_length, network_in, reader_in, record_in, access_at, terminal_at};
ghost use Rattle.bus_octets.specs.Layout.{bus_length, terminals_in, part_read, letters_read, octets_of};

use super::layout::{BUS_LENGTH, LETTERS_AT, OCTETS_AT, TERMINAL_LENGTH, TERMINALS_AT};
use super::numbers::{flag_at, half_at, octet_at, word_at};
use alignment::Alignment;
use bus_record::record::BusRecord;
use cycle::record::Cycle;
use d_reader::Reader;
use dchannel::access::Access;
use hdlc::LONGEST_BODY;
use network::Network;
use symbols::LINE_LENGTH;
use terminal::Terminal;
use timing::counts::{Opportunities, Periods};

// Reads whether a unit is aligned, and how long its run is.
fn alignment_at(s: &[u8], at: u16) -> Alignment
    ensures { result ≡ alignment_at s.now at }
{
    let i = at as usize;
    Alignment {
        aligned: flag_at(s, i),
        run: octet_at(s, i + 1),
    }
}

// Reads the network end.
fn network_in(s: &[u8]) -> Network
    ensures { result ≡ network_in s.now }
{
    Network {
        t1: word_at(s, 13) as u64,
        t2: word_at(s, 17) as u64,
        state: octet_at(s, 21),
        alignment: alignment_at(s, 22),
    }
}

// Reads the network end's reader.
fn reader_in(s: &[u8]) -> Reader
    ensures { result ≡ reader_in s.now }
{
    Reader {
        bits: half_at(s, 24),
        ones: octet_at(s, 26),
        octet: octet_at(s, 27),
        opened: flag_at(s, 28),
        zero: flag_at(s, 29),
    }
}

// Reads the record. Its cycle of Q and S bits rests: it has no octets yet.
pub fn record_in(s: &[u8]) -> BusRecord
    ensures { result ≡ record_in s.now }
{
    BusRecord {
        network: network_in(s),
        periods: Periods(word_at(s, 5)),
        opportunities: Opportunities(word_at(s, 9)),
        reader: reader_in(s),
        cycle: Cycle::fresh(),
        echo: flag_at(s, 30),
        hit: flag_at(s, 31),
    }
}

// Reads how the terminal whose octets begin at index `at` stands with D.
fn access_at(s: &[u8], at: u16) -> Access
    ensures { result ≡ access_at s.now at }
{
    let i = at as usize;
    let start = at as u32;
    Access {
        length: half_at(s, start + 4),
        sent: half_at(s, start + 6),
        count: octet_at(s, i + 8),
        held: octet_at(s, i + 9),
        low1: flag_at(s, i + 10),
        low2: flag_at(s, i + 11),
        last: flag_at(s, i + 12),
    }
}

// Reads terminal i + 1.
fn terminal_at(s: &[u8], i: u8) -> Terminal
    ensures { result ≡ terminal_at s.now (terminals_at + i * terminal_length) }
{
    let at = TERMINALS_AT + i as usize * TERMINAL_LENGTH;
    Terminal {
        t3: word_at(s, at as u32) as u64,
        access: access_at(s, at as u16),
        state: octet_at(s, at + 13),
        alignment: alignment_at(s, at as u16 + 14),
    }
}

// Reads the eight terminals.
// Kept: tried as `array::from_fn`: `result ≡ terminals_in s` stayed open in three tries.
pub fn terminals_in(s: &[u8]) -> [Terminal; 8]
    ensures { result ≡ terminals_in s.now }
{
    [
        terminal_at(s, 0),
        terminal_at(s, 1),
        terminal_at(s, 2),
        terminal_at(s, 3),
        terminal_at(s, 4),
        terminal_at(s, 5),
        terminal_at(s, 6),
        terminal_at(s, 7),
    ]
}

// Reads the N octets from index `at` on; gives nothing but 0 where the octets are not as many as those
// of a bus.
fn part<const N: usize>(s: &[u8], at: usize) -> [u8; N]
    requires { at + N ≤ bus_length }
    ensures { result ≡ part_read N at s.now }
{
    let mut octets = [0u8; N];
    if s.len() == BUS_LENGTH {
        octets.copy_from_slice(&s[at..at + N]);
    }
    octets
}

// Reads the letters of the hit; gives nothing but 0 where the octets are not as many as those of a
// bus.
pub fn letters_in(s: &[u8]) -> [u8; LINE_LENGTH]
    ensures { result ≡ letters_read s.now }
{
    part(s, LETTERS_AT)
}

// Reads the reader's octets; gives nothing but 0 where the octets are not as many as those of a
// bus.
pub fn octets_in(s: &[u8]) -> [u8; LONGEST_BODY]
    ensures { result ≡ octets_of s.now }
{
    part(s, OCTETS_AT)
}

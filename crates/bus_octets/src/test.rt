// Whether octets are a bus.
ghost use Rattle.std.specs.Prelude.{◌≡◌};
ghost use Rattle.bus_octets.specs.Layout.{is_bus, is_head};

use super::laid::put_head;
use super::layout::{BUS_LENGTH, LETTERS_AT, OCTETS_AT};
use super::shown::{record_in, terminals_in};
use bus_calls::ready::in_range;
use bus_record::record::BusRecord;
use combining::hit::NONE_LETTER;
use symbols::{LINE_LENGTH, fits};
use terminal::Terminal;

// Tests whether a record and terminals are written as the octets given.
fn is_head(bus: BusRecord, terminals: [Terminal; 8], octets: &[u8]) -> bool
    ensures { result ≡ is_head bus terminals octets.now }
{
    let mut back = [0u8; LETTERS_AT];
    put_head(&mut back, bus, terminals);
    back[..] == octets[..]
}

// Tests whether octets are a bus: as many as one has, written as the records that they stand for
// are, with every field in its range.
pub fn is_bus(s: &[u8]) -> bool
    ensures { result ≡ is_bus s.now }
{
    if s.len() != BUS_LENGTH {
        return false;
    }
    let bus = record_in(s);
    let terminals = terminals_in(s);
    is_head(bus, terminals, &s[..LETTERS_AT])
        & bus.in_range()
        & in_range(&terminals)
        & fits(&s[LETTERS_AT..OCTETS_AT], LINE_LENGTH, NONE_LETTER)
}

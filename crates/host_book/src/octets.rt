// How far a book has come, as octets: its bus, and three octets behind it.
ghost use Rattle.std.specs.Prelude.{◌≡◌};
ghost use Rattle.host_book.specs.Octets.{is_book};

use bus_octets::layout::BUS_LENGTH;
use bus_octets::numbers::octet_at;
use bus_octets::test::is_bus;

// The places behind the bus, and the length of all.
pub(crate) const STAGE_AT: usize = BUS_LENGTH;

pub(crate) const BEGUN_AT: usize = BUS_LENGTH + 1;

pub(crate) const OVER_AT: usize = BUS_LENGTH + 2;

pub(crate) const BOOK_LENGTH: usize = BUS_LENGTH + 3;

// Tests whether octets are a book.
pub(crate) fn is_book(b: &[u8]) -> bool
    ensures { result ≡ is_book b.now }
{
    if b.len() != BOOK_LENGTH {
        return false;
    }
    is_bus(&b[..BUS_LENGTH]) & (octet_at(b, BEGUN_AT) <= 1) & (octet_at(b, OVER_AT) <= 1)
}

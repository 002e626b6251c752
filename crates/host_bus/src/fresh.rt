// Making a bus.
ghost use Rattle.std.specs.Prelude.{cond, ◌≡◌, eqb, length};
ghost use Rattle.refusals.specs.Numbers.{reply_of};
ghost use Rattle.bus_octets.specs.Layout.{bus_length};
ghost use Rattle.host_bus.specs.Fresh.{fresh_octets};

use bus_octets::laid::lay;
use bus_octets::layout::BUS_LENGTH;
use bus_record::record::BusRecord;
use hdlc::LONGEST_BODY;
use refusals::{Refusal, reply};
use symbols::LINE_LENGTH;
use terminal::Terminal;

// Gives the number of octets of a bus.
pub fn sbus_bus_length() -> usize
    ensures { result ≡ bus_length }
{
    BUS_LENGTH
}

// Makes a fresh bus, where what is lent has the length of one.
pub fn make_fresh(bus: &mut [u8]) -> Result<(), Refusal>
    ensures value { reply_of result ≡ cond (eqb (length bus.old) bus_length) 0 1 }
    ensures bus_after { bus.new ≡ cond (eqb (length bus.old) bus_length) fresh_octets bus.old }
{
    if bus.len() != BUS_LENGTH {
        return Err(Refusal::OutOfRange);
    }
    bus.fill(0);
    let t = Terminal::fresh();
    let letters = [0u8; LINE_LENGTH];
    let octets = [0u8; LONGEST_BODY];
    lay(bus, BusRecord::fresh(), [t; 8], &letters, &octets);
    Ok(())
}

// Makes a fresh bus. Gives 0, or 1 where what is lent has not the length of a bus.
pub fn sbus_fresh(bus: &mut [u8]) -> u32
    ensures value { result ≡ cond (eqb (length bus.old) bus_length) 0 1 }
    ensures bus_after { bus.new ≡ cond (eqb (length bus.old) bus_length) fresh_octets bus.old }
{
    reply(make_fresh(bus))
}

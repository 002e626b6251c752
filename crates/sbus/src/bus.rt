// Making a bus, and what a person asks of it.
ghost use Rattle.std.specs.Prelude.{cond, ◌≡◌, eqb, length};
ghost use Rattle.bus_octets.specs.Layout.{bus_length};
ghost use Rattle.host_bus.specs.Fresh.{fresh_octets};
ghost use Rattle.host_bus.specs.Looking.{counts_reply, counts_after, unit_reply, unit_after};

// Gives the number of octets of a bus.
#[unsafe(no_mangle)]
pub extern "C" fn sbus_bus_length() -> usize
    ensures { result ≡ bus_length }
{
    host_bus::fresh::sbus_bus_length()
}

// Makes a fresh bus. Gives 0, or 1 where what is lent has not the length of a bus.
#[unsafe(no_mangle)]
pub extern "C" fn sbus_fresh(bus: &mut [u8]) -> u32
    ensures value { result ≡ cond (eqb (length bus.old) bus_length) 0 1 }
    ensures bus_after { bus.new ≡ cond (eqb (length bus.old) bus_length) fresh_octets bus.old }
{
    host_bus::fresh::sbus_fresh(bus)
}

// Writes the periods run and the D opportunities run. Gives 0; 1 where the octets are no bus; 2
// where less than eight octets are lent for the counts.
#[unsafe(no_mangle)]
pub extern "C" fn sbus_counts(bus: &[u8], counts: &mut [u8]) -> u32
    ensures value { result ≡ counts_reply bus.now counts.old }
    ensures counts_after { counts.new ≡ counts_after bus.now counts.old }
{
    host_bus::looking::sbus_counts(bus, counts)
}

// Writes a unit's state, alignment and held frame. Gives 0; 1 where the octets are no bus; 2 where
// less than seven octets are lent for them; 3 where the unit is above 8.
#[unsafe(no_mangle)]
pub extern "C" fn sbus_unit(bus: &[u8], unit: u32, seen: &mut [u8]) -> u32
    ensures value { result ≡ unit_reply unit bus.now seen.old }
    ensures seen_after { seen.new ≡ unit_after unit bus.now seen.old }
{
    host_bus::looking::sbus_unit(bus, unit, seen)
}

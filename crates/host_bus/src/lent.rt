// What every call on a lent bus looks at first.
ghost use Rattle.std.specs.Prelude.{◌≡◌};
ghost use Rattle.refusals.specs.Numbers.{reply_of};
ghost use Rattle.host_bus.specs.Lent.{lent_reason};

use bus_octets::test::is_bus;
use refusals::Refusal;

// Tests whether the octets lent are a bus, and the room lent is as much as is needed.
#[tactic(auto, unfolding(crate::specs::Lent::lent_reason))]
pub fn lent_reason(bus: &[u8], room: usize, needed: usize) -> Result<(), Refusal>
    ensures { reply_of result ≡ lent_reason bus.now room needed }
{
    if !is_bus(bus) {
        return Err(Refusal::OutOfRange);
    }
    if room < needed {
        return Err(Refusal::WrongSlice);
    }
    Ok(())
}

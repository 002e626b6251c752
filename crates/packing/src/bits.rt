// The last eight bits as an octet.
ghost use Rattle.std.specs.Prelude.{◌≡◌};
ghost use Rattle.packing.specs.Octets.{shifted};

// Gives the last eight bits with a new one: it is the high-order bit, and the oldest falls out.
#[tactic(auto, unfolding(crate::specs::Octets::shifted))]
pub fn shifted(octet: u8, bit: bool) -> u8
    ensures { result ≡ shifted octet bit }
{
    if bit { octet / 2 + 128 } else { octet / 2 }
}

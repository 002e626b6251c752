// Comparing texts.
ghost use Rattle.std.specs.Prelude.{◌≡◌};
ghost use Rattle.text.specs.Text as spec;

// Tests whether two texts are the same, octet for octet.
#[tactic(auto, using(symbols::proofs::Comparing::pointwise_same))]
pub fn same(a: &[u8], b: &[u8]) -> bool
    ensures { result ≡ spec.same a.now b.now }
{
    a == b
}

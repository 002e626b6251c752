// A cycle at rest: no message has been given.
ghost use Rattle.std.specs.Prelude.{◌≡◌};
ghost use Rattle.cycle.specs.Rest.{rests};

use super::record::Cycle;

impl Cycle {
    // Tests whether no message has been given: every field is as a fresh cycle's.
    #[tactic(auto, using(crate::proofs::Rest::by_fields))]
    pub fn rests(self) -> bool
        ensures { result ≡ rests self }
    {
        self == Cycle::fresh()
    }
}

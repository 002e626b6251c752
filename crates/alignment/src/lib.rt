// Alignment of one end (document 01, "The line", last paragraph).
#![tactic(auto)]

ghost use Rattle.std.specs.Prelude.{◌≡◌};
ghost use Rattle.alignment.specs.Alignment as spec;

// How many framed periods running give alignment, and how many unframed ones running, each with a
// pulse, lose it.
const FRAMED_TO_GAIN: u8 = 3;

const UNFRAMED_TO_LOSE: u8 = 2;

// Whether an end is aligned, and its run: the periods that count towards a change of that.
#[derive(Clone, Copy)]
pub struct Alignment {
    pub aligned: bool,
    // While unaligned, how many framed periods are running; while aligned, how many unframed ones,
    // each with a pulse.
    pub run: u8,
}

// What a period makes of alignment, and whether it gives the event of loss.
#[derive(Clone, Copy)]
pub struct Followed {
    pub alignment: Alignment,
    pub lost: bool,
}

impl Alignment {
    // Gives an end that is not aligned, with no run.
    pub fn fresh() -> Self
        ensures { result ≡ spec.fresh }
    {
        Alignment {
            aligned: false,
            run: 0,
        }
    }

    // Tests whether the run is in its range.
    pub fn in_range(self) -> bool
        ensures { result ≡ spec.alignment_in_range self }
    {
        self.run < FRAMED_TO_GAIN
    }

    // Follows a period, with or without a pulse, framed or not. A framed one counts while
    // unaligned, an unframed one with a pulse while aligned. One that counts makes the run longer,
    // or changes alignment where the run is then long enough.
    #[tactic(auto, unfolding(crate::specs::Alignment::followed, crate::specs::Alignment::framed_period, crate::specs::Alignment::unframed_period))]
    pub fn follow(self, pulse: bool, framed: bool) -> Followed
        ensures { result ≡ spec.followed spec.framed_to_gain spec.unframed_to_lose pulse framed self }
    {
        let counts = pulse & (framed != self.aligned);
        let short = (self.aligned & (self.run < UNFRAMED_TO_LOSE - 1))
            | (!self.aligned & (self.run < FRAMED_TO_GAIN - 1));
        let changes = counts & !short;
        Followed {
            alignment: Alignment {
                aligned: pulse & (self.aligned != changes),
                run: if counts & short { self.run + 1 } else { 0 },
            },
            lost: changes & self.aligned,
        }
    }
}

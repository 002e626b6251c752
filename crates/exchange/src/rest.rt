// An exchange in which no terminal takes part.
ghost use Rattle.std.specs.Prelude.{◌≡◌, true};
ghost use Rattle.exchange.specs.Rest.{part_rests, none_yet, also_rests, rest_of};

use table_6_2::{F7, info_sent};
use terminal::Terminal;

// What is known of the terminals looked at so far: `still` is whether none of them takes part in an
// exchange whose E are 1 and none sends INFO 1, `info3` whether any sends INFO 3.
#[derive(Clone, Copy)]
pub struct Rest {
    pub still: bool,
    pub info3: bool,
}

// Tests whether an E of 1 changes nothing in a terminal, which then sends 1 as its D.
#[tactic(auto, using(test_lemmas::proofs::Operators::not_or), unfolding(crate::specs::Rest::part_rests))]
pub fn part_rests(terminal: Terminal) -> bool
    ensures { result ≡ part_rests true terminal }
{
    (terminal.state != F7) | terminal.access.at_rest()
}

impl Rest {
    // Starts with no terminal looked at.
    fn start() -> Self
        ensures { result ≡ none_yet }
    {
        Rest {
            still: true,
            info3: false,
        }
    }

    // Adds one terminal.
    pub fn also(self, terminal: Terminal) -> Self
        ensures { result ≡ also_rests 0 self terminal }
    {
        let info = info_sent(terminal.state);
        Rest {
            still: self.still & part_rests(terminal) & (info != 1),
            info3: self.info3 | (info == 3),
        }
    }
}

// Looks at all terminals.
#[tactic(auto, using(crate::proofs::Gathered::rest_gathered))]
pub fn rest_of(terminals: &[Terminal]) -> Rest
    ensures { result ≡ rest_of terminals.now }
{
    terminals.iter().copied().fold(Rest::start(), Rest::also)
}

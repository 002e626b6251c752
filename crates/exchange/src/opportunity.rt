// The D opportunities over the terminals, lent as one slice.
ghost use Rattle.std.specs.Prelude.{◌≡◌};
ghost use Rattle.exchange.specs.Opportunities.{tally_after, terminals_after, tally_after_four, terminals_after_four};

use super::part::one_part;
use super::rest::rest_of;
use super::tally::Tally;
use terminal::Terminal;

// Runs one D opportunity: an E that all terminals in F7 hear, and the D after it.
pub fn opportunity(terminals: &mut [Terminal], images: &[u8], before: Tally) -> Tally
    ensures value { result ≡ tally_after images.now before terminals.old }
    ensures terminals_after { terminals.new ≡ terminals_after images.now before terminals.old }
{
    let mut tally = before.begun();
    for (i, terminal) in terminals.iter_mut().enumerate() {
        let part = one_part(*terminal, images, i, tally);
        *terminal = part.terminal;
        tally = part.tally;
    }
    tally.ended()
}

// Runs the four D opportunities of a period one after the other.
#[tactic(auto, unfolding(crate::specs::Opportunities::tally_after_four, crate::specs::Opportunities::terminals_after_four))]
fn four_opportunities(terminals: &mut [Terminal], images: &[u8], first: Tally) -> Tally
    ensures value { result ≡ tally_after_four images.now first terminals.old }
    ensures terminals_after { terminals.new ≡ terminals_after_four images.now first terminals.old }
{
    let second = opportunity(terminals, images, first);
    let third = opportunity(terminals, images, second);
    let fourth = opportunity(terminals, images, third);
    opportunity(terminals, images, fourth)
}

// Runs the four D opportunities of a period. Where all E are 1 and no terminal takes part, no
// terminal changes and D is 1 each time: they are not run one by one.
pub fn exchange(terminals: &mut [Terminal], images: &[u8], first: Tally) -> Tally
    ensures value { result ≡ tally_after_four images.now first terminals.old }
    ensures terminals_after { terminals.new ≡ terminals_after_four images.now first terminals.old }
{
    if first.must_exchange() {
        return four_opportunities(terminals, images, first);
    }
    let rest = rest_of(terminals);
    if rest.still {
        return first.rested(rest.info3);
    }
    four_opportunities(terminals, images, first)
}

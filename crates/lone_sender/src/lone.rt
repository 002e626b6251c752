// The one terminal that sends, in the few values that its sending takes.
ghost use Rattle.std.specs.Prelude.{◌≡◌};
ghost use Rattle.lone_sender.specs.Lone.{lone_after_e, lone_sends, lone_step, tally_of};

use dchannel::access::{NORMAL_1, counted};
use exchange::part::image_bit;
use exchange::tally::{Letters, Tally};
use frame::fields::Four;

// The terminal that sends alone.
#[derive(Clone, Copy)]
pub struct LoneSender {
    // Its index.
    pub at: usize,
    // The bits of its image, and those that have left.
    pub length: u16,
    pub sent: u16,
    // C, which all terminals in F7 share.
    pub count: u8,
    // The bit that left last.
    pub last: bool,
}

// What a period gives: the sender after it, the four D, and whether it sends alone at all four.
#[derive(Clone, Copy)]
pub struct LoneStep {
    pub lone: LoneSender,
    pub ds: Four,
    pub goes: bool,
}

impl LoneSender {
    // Takes one opportunity: its E is the last bit, and the next bit leaves.
    #[tactic(auto, unfolding(crate::specs::Lone::lone_after_e, crate::specs::Lone::lone_bit, crate::specs::Lone::counted_at))]
    fn turned(self, images: &[u8]) -> Self
        ensures { result ≡ lone_after_e images.now self }
    {
        let sent = if self.sent < self.length {
            self.sent + 1
        } else {
            self.sent
        };
        LoneSender {
            sent,
            count: counted(self.count, self.last),
            last: image_bit(images, self.at, self.sent),
            ..self
        }
    }

    // Tests whether the next bit leaves and no other terminal starts: at a C below the lowest
    // threshold none does, and no level changes.
    #[tactic(auto, unfolding(crate::specs::Lone::lone_sends, crate::specs::Lone::counted_at))]
    fn turns(self) -> bool
        ensures { result ≡ lone_sends self }
    {
        (0 < self.sent) & (self.sent < self.length) & (counted(self.count, self.last) < NORMAL_1)
    }

    // Takes the four opportunities of a period.
    #[tactic(auto, unfolding(crate::specs::Lone::lone_after_four, crate::specs::Lone::lone_bits, crate::specs::Lone::lone_goes, crate::specs::Lone::lone_after_e))]
    pub fn after_four(self, images: &[u8]) -> LoneStep
        ensures { result ≡ lone_step images.now self }
    {
        let second = self.turned(images);
        let third = second.turned(images);
        let fourth = third.turned(images);
        let lone = fourth.turned(images);
        LoneStep {
            lone,
            ds: Four {
                first: second.last,
                second: third.last,
                third: fourth.last,
                fourth: lone.last,
            },
            goes: self.turns() & second.turns() & third.turns() & fourth.turns(),
        }
    }
}

// Gives the tally that the four opportunities leave.
#[tactic(auto, unfolding(crate::specs::Lone::tally_of))]
pub fn tally_of(state: u8, ds: Four) -> Tally
    ensures { result ≡ tally_of state ds }
{
    Tally {
        ds,
        e: ds.third,
        d: ds.fourth,
        info3: true,
        ..Tally::first(state, Letters::KEEP, ds.fourth)
    }
}

// One terminal's access to the D channel (document 01, "D access (6.1)").
ghost use Rattle.std.specs.Prelude.{◌≡◌, cond};
ghost use Rattle.dchannel.specs.Access.{normal1, normal2, fresh, entered, count_after, after_e, may_start, completes, stops, access_step};
ghost use Rattle.dchannel.specs.AtRest.{at_rest};
ghost use Rattle.dchannel.specs.Handing.{left};
ghost use Rattle.dchannel.specs.Calls.{handed};
ghost use Rattle.dchannel.specs.Ranges.{access_in_range};
ghost use Rattle.refusals.specs.Numbers.{unless_refused};

use hdlc::LONGEST_BODY;
use refusals::Refusal;

// The C at which class 1 starts at its normal level. At the low level it is one more.
pub const NORMAL_1: u8 = 8;
// The same for class 2.
pub const NORMAL_2: u8 = 10;
// The bits of the longest body.
const BODY_BITS: u16 = 8 * LONGEST_BODY as u16;
// The bits of the shortest image: two flags and one octet.
const SHORTEST_IMAGE: u16 = 16 + 8;
// The bits of the longest image: two flags, the longest body and a 0 after every five 1s of it.
const LONGEST_IMAGE: u16 = 16 + BODY_BITS + BODY_BITS / 5;

// The two priority classes of frames.
#[derive(Clone, Copy)]
pub enum Class {
    One,
    Two,
}

// A terminal's D access record.
#[derive(Clone, Copy)]
pub struct Access {
    // Bits of the held frame's image, 0 where no frame is held.
    pub length: u16,
    // Bits of the image that have left in the sending under way, 0 where there is none.
    pub sent: u16,
    // C, the running 1s of E.
    pub count: u8,
    // The class of the held frame, 0 where none is held.
    // Kept: what may not change: public calls take a record with any `held`, and `in_range` tests it.
    pub held: u8,
    // Whether class 1 is at its low level.
    pub low1: bool,
    // Whether class 2 is at its low level.
    pub low2: bool,
    // The bit that left last in the sending under way, 1 where there is none.
    pub last: bool,
}

// What one D opportunity gives: the record after it, the bit for D and the class of a completed
// frame, 0 for none.
#[derive(Clone, Copy)]
pub struct AccessStep {
    pub access: Access,
    pub d: bool,
    // Kept: what may not change: `access_step` gives the number that `held` was, which may be any.
    pub done: u8,
}

// What leaving F7 gives: the record, and the class of the dropped frame, 0 for none.
#[derive(Clone, Copy)]
pub struct Left {
    pub access: Access,
    // Kept: what may not change: `leave` gives the number that `held` was, which may be any.
    pub dropped: u8,
}

// Gives C after an E: a 1 counts one more, up to the low level of class 2, and a 0 starts anew.
#[tactic(auto, unfolding(crate::specs::Access::count_after))]
pub fn counted(count: u8, e: bool) -> u8
    ensures { result ≡ count_after normal2 e count }
{
    if e {
        count.saturating_add(1).min(NORMAL_2 + 1)
    } else {
        0
    }
}

impl Access {
    // Gives a record with no frame held, C at 0 and both levels normal.
    pub fn fresh() -> Self
        ensures { result ≡ fresh }
    {
        Access {
            length: 0,
            sent: 0,
            count: 0,
            held: 0,
            low1: false,
            low2: false,
            last: true,
        }
    }

    // Hands over a frame of a class, whose image has `length` bits, and gives the record that holds
    // it. It is refused for its length where that is less than the shortest image has or more than
    // the longest, and where a frame is held; the terminal then keeps the record as it was.
    #[tactic(auto, unfolding(crate::specs::Calls::handed, crate::specs::Calls::is_image_length, crate::specs::Handing::taken_up))]
    pub fn hand(self, class: Class, length: u16) -> Result<Access, Refusal>
        ensures { let call = handed class length self in result ≡ unless_refused call.reply call.access }
    {
        if length < SHORTEST_IMAGE || LONGEST_IMAGE < length {
            return Err(Refusal::BodyLength);
        }
        if self.held != 0 {
            return Err(Refusal::FrameHeld);
        }
        let held = match class {
            Class::One => 1,
            Class::Two => 2,
        };
        Ok(Access {
            length,
            sent: 0,
            held,
            last: true,
            ..self
        })
    }

    // Gives the record as the terminal enters F7: C is 0.
    #[tactic(auto, unfolding(crate::specs::Access::entered))]
    pub fn enter(self) -> Self
        ensures { result ≡ entered self }
    {
        Access { count: 0, ..self }
    }

    // Gives the record as the terminal leaves F7: a held frame is dropped, and both levels are
    // normal.
    #[tactic(auto, unfolding(crate::specs::Handing::left))]
    pub fn leave(self) -> Left
        ensures { result ≡ left self }
    {
        Left {
            access: Access::fresh(),
            dropped: self.held,
        }
    }

    // Takes one D opportunity in F7: e is the E heard, and `next` is the image's bit number `sent`.
    #[tactic(auto, using(test_lemmas::proofs::Operators::and_cond, crate::proofs::AccessLaws::leaves_at, crate::proofs::AccessLaws::access_step_leaves, crate::proofs::AccessLaws::access_step_ends, crate::proofs::AccessLaws::access_step_idles, crate::proofs::AccessLaws::same_beq), unfolding(crate::proofs::AccessLaws::leaves_at, crate::specs::Access::sends_next, crate::specs::Access::after_e, crate::specs::Access::idles))]
    pub fn access_step(self, e: bool, next: bool) -> AccessStep
        ensures { result ≡ access_step normal1 normal2 e next self }
    {
        let heard = self.after_e(e);
        let leaves = if 0 < self.sent {
            (e == self.last) & (self.sent < self.length)
        } else {
            heard.may_start()
        };
        if leaves {
            return AccessStep {
                access: Access {
                    sent: self.sent + 1,
                    last: next,
                    ..heard
                },
                d: next,
                done: 0,
            };
        }
        if 0 < self.sent {
            heard.ends(e == self.last)
        } else {
            AccessStep {
                access: heard,
                d: true,
                done: 0,
            }
        }
    }

    // Gives the record with C and the levels after an E.
    #[tactic(auto, using(test_lemmas::proofs::Operators::without_cond), unfolding(crate::specs::Access::after_e, crate::specs::Access::low_after))]
    fn after_e(self, e: bool) -> Self
        ensures { result ≡ after_e normal1 normal2 e self }
    {
        let count = counted(self.count, e);
        Access {
            count,
            low1: (count != NORMAL_1 + 1) & self.low1,
            low2: (count != NORMAL_2 + 1) & self.low2,
            ..self
        }
    }

    // Ends a sending under way: the frame is completed, or it stays held and starts over.
    #[tactic(auto, using(test_lemmas::proofs::Operators::or_cond), unfolding(crate::specs::Access::completes, crate::specs::Access::stops))]
    fn ends(self, completed: bool) -> AccessStep
        ensures { result ≡ cond completed (completes self) (stops self) }
    {
        if completed {
            AccessStep {
                access: Access {
                    length: 0,
                    sent: 0,
                    held: 0,
                    low1: (self.held == 1) | self.low1,
                    low2: (self.held == 2) | self.low2,
                    last: true,
                    ..self
                },
                d: true,
                done: self.held,
            }
        } else {
            AccessStep {
                access: Access {
                    sent: 0,
                    last: true,
                    ..self
                },
                d: true,
                done: 0,
            }
        }
    }

    // Tests whether a held frame starts: C has reached the threshold of its class at its level.
    #[tactic(auto, using(test_lemmas::proofs::Operators::without_cond, test_lemmas::proofs::Operators::byte_cond), unfolding(crate::specs::Access::may_start, crate::specs::Access::threshold, crate::specs::Access::low_of))]
    fn may_start(self) -> bool
        ensures { result ≡ may_start normal1 normal2 self }
    {
        if self.held == 1 {
            return NORMAL_1 + self.low1 as u8 <= self.count;
        }
        (self.held != 0) & (NORMAL_2 + self.low2 as u8 <= self.count)
    }

    // Tests whether every further E of 1 leaves the record as it is.
    #[tactic(auto, unfolding(crate::specs::AtRest::at_rest))]
    pub fn at_rest(self) -> bool
        ensures { result ≡ at_rest normal2 self }
    {
        (self.held == 0) & (self.sent == 0) & (self.count == NORMAL_2 + 1) & !self.low2
    }

    // Tests whether every field is in its range.
    #[tactic(auto, unfolding(crate::specs::Ranges::access_in_range))]
    pub fn in_range(self) -> bool
        ensures { result ≡ access_in_range normal2 self }
    {
        (self.held <= 2)
            & (self.length <= LONGEST_IMAGE)
            & (self.sent <= LONGEST_IMAGE)
            & (self.count <= NORMAL_2 + 1)
    }
}

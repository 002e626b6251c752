// The reasons for which a call is turned down (document 01, "Reasons a call is turned down"). Where
// a number is wanted, in a report or by a C host, a reason has the one that the document gives it.
#![tactic(auto)]

ghost use Rattle.std.specs.Prelude.{◌≡◌, Some};
ghost use Rattle.std.specs.Fmt.{decimal};
ghost use Rattle.refusals.specs.Numbers.{number, reply_of};

use std::fmt;

#[derive(Clone, Copy, PartialEq, Eq, Debug)]
pub enum Refusal {
    // A field of a record lies outside its range, or the terminal records are not eight.
    OutOfRange,
    // A lent slice has a wrong length, or holds a code that stands for nothing.
    WrongSlice,
    // The unit is above 8.
    NoSuchUnit,
    // The event is not one for this unit.
    NotForUnit,
    // The state bars the event.
    Barred,
    // A frame is given to a terminal outside F7.
    OutsideF7,
    // The body has no octets, or more than 266.
    BodyLength,
    // The terminal already holds a frame.
    FrameHeld,
    // The bus has run all its periods.
    AllPeriodsRun,
    // No frame is written as the symbols.
    NoFrame,
    // The book does not begin with its first line.
    NoFirstLine,
    // A line has a wrong form.
    WrongLine,
    // A line's period is before the last one's, or past the last period.
    WrongPeriod,
    // The book has no accepted `end` line, or something after it.
    NoEnd,
}

impl Refusal {
    // Gives the reason's number.
    pub fn number(self) -> u8
        ensures { result ≡ number self }
    {
        match self {
            Refusal::OutOfRange => 1,
            Refusal::WrongSlice => 2,
            Refusal::NoSuchUnit => 3,
            Refusal::NotForUnit => 4,
            Refusal::Barred => 5,
            Refusal::OutsideF7 => 6,
            Refusal::BodyLength => 7,
            Refusal::FrameHeld => 8,
            Refusal::AllPeriodsRun => 9,
            Refusal::NoFrame => 10,
            Refusal::NoFirstLine => 11,
            Refusal::WrongLine => 12,
            Refusal::WrongPeriod => 13,
            Refusal::NoEnd => 14,
        }
    }
}

// A reason is printed as its number.
impl fmt::Display for Refusal {
    ghost output = { λ refusal. Some (decimal (number refusal)) };

    fn fmt<W: fmt::Write>(&self, f: &mut fmt::Formatter<W>) -> fmt::Result {
        write!(f, "{}", self.number())
    }
}

// Gives the number that a C host is told of a call that comes out so: 0, or that of the reason for
// which the call was turned down.
// Kept: the C interface: a host is told numbers.
pub fn reply(outcome: Result<(), Refusal>) -> u32
    ensures { result ≡ reply_of outcome }
{
    match outcome {
        Ok(()) => 0,
        Err(refusal) => u32::from(refusal.number()),
    }
}

// The network end's reader of D (document 01, "D access (6.1)").
#![tactic(auto)]

ghost use Rattle.std.specs.Prelude.{◌≡◌, List, ℕ, ◌≤◌, length, OnErr};
ghost use Rattle.hdlc.specs.Image.{longest_body};
ghost use Rattle.hdlc.specs.Reading.{cleared};
ghost use Rattle.d_reader.specs.Counters.{fresh_reader, take_up, after_bit, store_whole, answer_to, read_bit, read_octets};
ghost use Rattle.d_reader.specs.ReaderRange.{reader_in_range};
ghost use Rattle.d_reader.specs.StandsFor.{StandsFor, ReadsOn};

use hdlc::LONGEST_BODY;
use refusals::Refusal;

// The bits of the longest body.
const BODY_BITS: u16 = 8 * LONGEST_BODY as u16;
// The count of bits goes up to here: MOST_BITS, even less the seven of a flag, are too many for a
// body.
const MOST_BITS: u16 = BODY_BITS + 8;

// What has been read of the frame under way, in counters. The frame's whole octets stand in a lent
// buffer.
#[derive(Clone, Copy, PartialEq, Eq, Debug)]
pub struct Reader {
    // How many bits of the frame under way have been read, inserted 0s left out; MOST_BITS stands
    // for that many and for all more. The bits of the closing flag are counted too, as they come.
    // While `opened` is false, this and `octet` have no meaning.
    pub bits: u16,
    // The 1s read since the last 0; 7 for seven or more, or where no 0 has been read.
    pub ones: u8,
    // The last eight bits of the frame, the newest as high-order bit.
    pub octet: u8,
    // Whether a flag has been read, and no seven 1s since.
    pub opened: bool,
    // Whether the last 0 read is one that `bits` counts.
    pub zero: bool,
}

// What the reader says to a bit.
#[derive(Clone, Copy, PartialEq, Eq, Debug)]
pub enum ReaderAnswer {
    Nothing,
    // A body: this many octets, the first of the lent buffer.
    Heard(u16),
    Torn,
}

impl Reader {
    // Gives a reader that waits for a flag and has read nothing, whatever the buffer holds.
    pub fn fresh() -> Self
        ensures value { result ≡ fresh_reader }
        ensures by_index { (buf : List ℕ) → StandsFor result buf cleared }
    {
        Reader {
            bits: 0,
            ones: 7,
            octet: 0,
            opened: false,
            zero: false,
        }
    }

    // Reads one bit, and gives what is said to it. The frame's octets are in `octets`; where this
    // has no room for the longest body, the call is refused as a wrong slice, and both the reader
    // and the octets stay as they were.
    #[tactic(auto, unfolding(crate::specs::Counters::read_bit, crate::specs::Counters::read_octets))]
    pub fn read(&mut self, bit: bool, octets: &mut [u8]) -> Result<ReaderAnswer, Refusal>
        ensures reader_after { self.new ≡ (read_bit bit octets.old self.old).reader }
        ensures value { result ≡ (read_bit bit octets.old self.old).answer }
        ensures octets_after { octets.new ≡ read_octets bit self.old octets.old }
        ensures reads_on { ReadsOn self.old octets.old bit (record { reader = self.new; answer = result }) octets.new }
        ensures refused_reader { OnErr result (self.new ≡ self.old) }
        ensures refused_octets { OnErr result (octets.new ≡ octets.old) }
    {
        if octets.len() < LONGEST_BODY {
            return Err(Refusal::WrongSlice);
        }
        self.store_whole(bit, octets);
        let said = self.answer_to(bit);
        *self = self.after_bit(bit);
        Ok(said)
    }

    // Tests whether every field is in its range.
    #[tactic(auto, unfolding(crate::specs::ReaderRange::reader_in_range))]
    pub fn in_range(self) -> bool
        ensures { result ≡ reader_in_range self }
    {
        self.bits <= MOST_BITS && self.ones <= 7
    }

    // Puts an octet that is whole with this bit in its place, unless the longest body ends before
    // it.
    #[tactic(auto, unfolding(crate::specs::Counters::store_whole, crate::specs::Counters::fills, crate::specs::Counters::is_data))]
    fn store_whole(self, bit: bool, octets: &mut [u8])
        requires { longest_body ≤ length octets.old }
        ensures { octets.new ≡ store_whole bit self octets.old }
    {
        let is_data = if bit {
            self.ones < 6
        } else {
            self.ones != 5 && self.ones != 6
        };
        if self.opened && is_data && self.bits % 8 == 7 && self.bits < BODY_BITS {
            let at = (self.bits / 8) as usize;
            octets[at] = packing::bits::shifted(self.octet, bit);
        }
    }

    // Gives the record after a bit.
    #[tactic(auto, unfolding(crate::specs::Counters::after_bit))]
    fn after_bit(self, bit: bool) -> Self
        ensures { result ≡ after_bit bit self }
    {
        if bit {
            if self.ones < 6 {
                return self.take_up(true, self.ones + 1, self.zero);
            }
            return Reader::fresh();
        }
        if self.ones == 6 {
            return Reader {
                bits: 0,
                ones: 0,
                octet: 0,
                opened: true,
                zero: false,
            };
        }
        if self.ones == 5 {
            return Reader {
                ones: 0,
                zero: false,
                ..self
            };
        }
        self.take_up(false, 0, self.opened)
    }

    // Gives the record after a data bit; `ones` and `zero` are what these fields become.
    #[tactic(auto, unfolding(crate::specs::Counters::one_more))]
    fn take_up(self, bit: bool, ones: u8, zero: bool) -> Self
        ensures { result ≡ take_up bit ones zero self }
    {
        Reader {
            bits: MOST_BITS.min(self.bits.saturating_add(1)),
            ones,
            octet: packing::bits::shifted(self.octet, bit),
            zero,
            ..self
        }
    }

    // Gives the answer to a bit. Where this bit ends a flag or is the seventh 1, the six 1s before
    // it are no data bits, nor is the 0 before these where a flag ends.
    #[tactic(auto, unfolding(crate::specs::Counters::answer_to, crate::specs::Counters::aborted_after, crate::specs::Counters::between_flags))]
    fn answer_to(self, bit: bool) -> ReaderAnswer
        ensures { result ≡ answer_to bit self }
    {
        if !self.opened || self.ones != 6 {
            return ReaderAnswer::Nothing;
        }
        let own = if !bit && self.zero { 7 } else { 6 };
        if self.bits < own + 8 {
            return ReaderAnswer::Nothing;
        }
        let n = self.bits - own;
        if !bit && n % 8 == 0 && n <= BODY_BITS {
            return ReaderAnswer::Heard(n / 8);
        }
        ReaderAnswer::Torn
    }
}

// What has been gathered of the terminals at a D opportunity, in the few values that the exchange
// of a period takes: no symbol is built.
ghost use Rattle.std.specs.Prelude.{◌≡◌, false, not};
ghost use Rattle.combining.specs.StruckBits.{struck_bit};
ghost use Rattle.bus_rules.specs.Quick.{sent_e};
ghost use Rattle.exchange.specs.Tally as spec;
ghost use Rattle.exchange.specs.Rest as rest;

use combining::hit::{KEEP_LETTER, MINUS_LETTER, PLUS_LETTER};
use frame::fields::Four;
use packing::bits::shifted;
use table_6_2::info_sent;

// The letters of a hit at the four coming E; the keep letter where there is no hit.
#[derive(Clone, Copy, PartialEq, Eq, Debug)]
pub struct Letters {
    pub first: u8,
    pub second: u8,
    pub third: u8,
    pub fourth: u8,
}

impl Letters {
    // The letters where there is no hit.
    pub const KEEP: Letters = Letters {
        first: KEEP_LETTER,
        second: KEEP_LETTER,
        third: KEEP_LETTER,
        fourth: KEEP_LETTER,
    };
}

#[derive(Clone, Copy, PartialEq, Eq, Debug)]
pub struct Tally {
    pub letters: Letters,
    // The last four D heard.
    pub ds: Four,
    // The network end's state.
    pub state: u8,
    // Which of the four opportunities this is, from 0.
    pub place: u8,
    // Which terminals have completed a frame of class 1 in this period, and of class 2: bit i for
    // terminal i + 1.
    pub done1: u8,
    pub done2: u8,
    // The last combined D that the network end heard, which the next E echoes.
    pub echo: bool,
    // The E that comes, and the AND of the D sent after it so far.
    pub e: bool,
    pub d: bool,
    // Whether any terminal added so far sends INFO 1, and INFO 3.
    pub info1: bool,
    pub info3: bool,
}

// Gives the E that a network end in `state` sends, where `d` is the last D heard.
#[tactic(auto, using(crate::proofs::Images::not_cond), unfolding(bus_rules::specs::Quick::sent_e))]
fn sent_e(state: u8, d: bool) -> bool
    ensures { result ≡ sent_e state d }
{
    let info = table_6_3::info_sent(state);
    if info == 4 { d } else { info != 2 }
}

// Applies a hit's letter to a bit.
fn struck_bit(letter: u8, bit: bool) -> bool
    ensures { result ≡ struck_bit letter bit }
{
    if letter == KEEP_LETTER {
        bit
    } else {
        (letter != PLUS_LETTER) & (letter != MINUS_LETTER)
    }
}

impl Tally {
    // Gives the tally as the first E of a period comes: from the network end's state, the letters
    // at the four E, and `echo`, the last D heard.
    pub fn first(state: u8, letters: Letters, echo: bool) -> Self
        ensures { result ≡ spec.first_tally state letters echo }
    {
        Tally {
            letters,
            ds: Four::all(true),
            state,
            place: 0,
            done1: 0,
            done2: 0,
            echo,
            e: true,
            d: true,
            info1: false,
            info3: false,
        }
    }

    // Begins an opportunity: its E has come, and no terminal has been added yet.
    #[tactic(auto, unfolding(crate::specs::Tally::begun))]
    pub fn begun(self) -> Self
        ensures { result ≡ spec.begun self }
    {
        Tally {
            e: struck_bit(self.letters.first, sent_e(self.state, self.echo)),
            d: true,
            info1: false,
            info3: false,
            ..self
        }
    }

    // Adds one terminal: its state, its D, and the class of the frame that it has completed at this
    // E, 0 for none. The octets turn by one bit at each terminal: after eight, bit i is
    // terminal i + 1's again.
    // Kept: what may not change: `also` takes any number as a state and as a class.
    #[tactic(auto, unfolding(crate::specs::Tally::also))]
    pub fn also(self, state: u8, d: bool, done: u8) -> Self
        ensures { result ≡ spec.also state d done self }
    {
        let info = info_sent(state);
        Tally {
            done1: shifted(self.done1, (self.done1 % 2 == 1) | (done == 1)),
            done2: shifted(self.done2, (self.done2 % 2 == 1) | (done == 2)),
            d: self.d & d,
            info1: self.info1 | (info == 1),
            info3: self.info3 | (info == 3),
            ..self
        }
    }

    // Gives the D that the network end hears: INFO 1 inverts that of the second opportunity, D25.
    #[tactic(auto, using(crate::proofs::Images::xor_cond), unfolding(crate::specs::Tally::d_heard))]
    fn d_heard(self) -> bool
        ensures { result ≡ spec.d_heard self }
    {
        self.d ^ ((self.place == 1) & self.info1)
    }

    // Ends an opportunity: all terminals have been added.
    #[tactic(auto, unfolding(crate::specs::Tally::ended))]
    pub fn ended(self) -> Self
        ensures { result ≡ spec.ended self }
    {
        let echo = self.d_heard();
        let letters = Letters {
            first: self.letters.second,
            second: self.letters.third,
            third: self.letters.fourth,
            fourth: KEEP_LETTER,
        };
        let ds = Four {
            first: self.ds.second,
            second: self.ds.third,
            third: self.ds.fourth,
            fourth: echo,
        };
        let place = if self.place < 3 { self.place + 1 } else { 0 };
        Tally {
            letters,
            ds,
            place,
            echo,
            ..self
        }
    }

    // Tests whether the four opportunities must be run one by one: one has been run already, or
    // some E is 0, be it for the last D heard, the network end's state or a hit.
    #[tactic(auto, using(crate::proofs::First::by_fields), unfolding(crate::specs::Rest::may_rest, crate::specs::Rest::ones_sent))]
    pub fn must_exchange(self) -> bool
        ensures { result ≡ not (rest.may_rest self) }
    {
        let letters = self.letters;
        let first = self == Tally::first(self.state, letters, self.echo);
        let e = sent_e(self.state, true);
        let ones = struck_bit(letters.first, sent_e(self.state, self.echo))
            & struck_bit(letters.second, e)
            & struck_bit(letters.third, e)
            & struck_bit(letters.fourth, e);
        !(first & ones)
    }

    // Gives what four opportunities leave in which D was 1 throughout: no terminal sends INFO 1.
    // `info3` is whether any sends INFO 3.
    pub fn rested(self, info3: bool) -> Self
        ensures { result ≡ rest.rest_tally self.state self.letters false info3 }
    {
        let e = struck_bit(self.letters.fourth, sent_e(self.state, true));
        Tally {
            e,
            info3,
            ..Tally::first(self.state, Letters::KEEP, true)
        }
    }
}

// The network end reads the four D of a period.
ghost use Rattle.std.specs.Prelude.{◌≡◌};
ghost use Rattle.bus_record.specs.Reading.{quiet_reading, spoken_to, octets_to, said_note, said_body, reader_waits};
ghost use Rattle.bus_record.specs.Reading.{spoken_to_four, octets_to_four, read_in, octets_in};

use d_reader::{Reader, ReaderAnswer};
use frame::fields::Four;
use notes_and_cells::notes::{HEARD, TORN};
use table_6_3::G3;

// The reader, and what it has said in this period.
#[derive(Clone, Copy)]
pub struct Spoken {
    pub reader: Reader,
    pub said: ReaderAnswer,
}

// Starts a period: the reader has read nothing in it yet.
fn quiet(reader: Reader) -> Spoken
    ensures { result ≡ quiet_reading reader }
{
    Spoken {
        reader,
        said: ReaderAnswer::Nothing,
    }
}

impl Spoken {
    // Reads one bit more.
    #[tactic(auto, unfolding(crate::specs::Reading::spoken_to, crate::specs::Reading::octets_to, crate::specs::Reading::said_with))]
    fn read_on(self, bit: bool, octets: &mut [u8]) -> Self
        ensures value { result ≡ spoken_to bit octets.old self }
        ensures octets_after { octets.new ≡ octets_to bit self octets.old }
    {
        let mut reader = self.reader;
        match reader.read(bit, octets) {
            Ok(ReaderAnswer::Nothing) | Err(_) => Spoken { reader, ..self },
            Ok(said) => Spoken { reader, said },
        }
    }

    // Gives the note's code, 0 for none.
    pub(crate) fn note(self) -> u8
        ensures { result ≡ said_note self.said }
    {
        match self.said {
            ReaderAnswer::Nothing => 0,
            ReaderAnswer::Heard(_) => HEARD,
            ReaderAnswer::Torn => TORN,
        }
    }

    // Gives how many of the lent octets are the heard body.
    pub(crate) fn body(self) -> u16
        ensures { result ≡ said_body self.said }
    {
        match self.said {
            ReaderAnswer::Heard(n) => n,
            ReaderAnswer::Nothing | ReaderAnswer::Torn => 0,
        }
    }
}

// Tests whether a reader waits for a flag, after seven 1s or more: further 1s change nothing.
#[tactic(auto, using(crate::proofs::SpokenLaws::by_fields))]
pub fn waits(reader: Reader) -> bool
    ensures { result ≡ reader_waits reader }
{
    reader == Reader::fresh()
}

// Reads the four D of a period.
#[tactic(auto, unfolding(crate::specs::Reading::spoken_to_four, crate::specs::Reading::octets_to_four))]
fn read_four(start: Spoken, ds: Four, octets: &mut [u8]) -> Spoken
    ensures value { result ≡ spoken_to_four ds octets.old start }
    ensures octets_after { octets.new ≡ octets_to_four ds start octets.old }
{
    let first = start.read_on(ds.first, octets);
    let second = first.read_on(ds.second, octets);
    let third = second.read_on(ds.third, octets);
    third.read_on(ds.fourth, octets)
}

// Reads the four D of a period, where the network end is in G3; elsewhere nothing.
#[tactic(auto, unfolding(crate::specs::Reading::read_in, crate::specs::Reading::octets_in))]
pub fn read_in(state: u8, reader: Reader, ds: Four, octets: &mut [u8]) -> Spoken
    ensures value { result ≡ read_in state ds octets.old reader }
    ensures octets_after { octets.new ≡ octets_in state ds reader octets.old }
{
    let start = quiet(reader);
    if state != G3 {
        return start;
    }
    if waits(reader) & (ds.first & ds.second & ds.third & ds.fourth) {
        return start;
    }
    read_four(start, ds, octets)
}

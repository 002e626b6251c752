// The book's lines: a reader of the lent text goes from one to the next, and a step does what it
// has read.
ghost use Rattle.std.specs.Prelude.{◌≡◌};
ghost use Rattle.report.specs.Ahead.{Stopped};
ghost use Rattle.book_go_on.specs.Progress as spec;

use super::fields::{ended, goes_on, periods_of, stage_of, taken_of, untaken};
use super::progress::{GoneOn, Progress};
use super::step::step;
use book_reader::lent::Reader;

// Reads on until a step needs text or room, or the book is over. How much of the text is taken is
// how far the reader has come.
pub(crate) fn read_on(
    progress: Progress,
    images: &mut [u8],
    octets: &mut [u8],
    letters: &mut [u8],
    text: &[u8],
    room: &mut [u8],
    whole: bool,
) -> GoneOn
    requires { spec.reason (spec.book_state_of progress images.old octets.old letters.old) ≡ 0 }
    ensures { Stopped (spec.book_state_of progress images.old octets.old letters.old)
        text.now room.old whole
        (spec.book_state_of result.progress images.new octets.new letters.new)
        result.taken result.wrote result.why room.new }
{
    let mut w = untaken(progress);
    let mut reader = Reader::new(text);
    'lines: while goes_on(w) {
        let said = reader.read(stage_of(w), periods_of(w), whole);
        let value = reader.value(said);
        w = step(w, images, octets, letters, said, value, room);
        reader = reader.next(taken_of(w));
    }
    ended(w, reader.at())
}

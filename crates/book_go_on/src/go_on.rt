// The call that goes on with a book.
ghost use Rattle.std.specs.Prelude.{◌≡◌};
ghost use Rattle.book_go_on.specs.Progress as spec;
ghost use Rattle.book_go_on.specs.GoOn.{GoesOn};

use super::progress::{GoneOn, Progress};
use super::reading::read_on;
use refusals::Refusal;

// Gives the first of the reasons 1 and 2 that holds, if one does: as for a run of no periods, which
// changes nothing.
fn refusal(progress: Progress, images: &[u8], octets: &mut [u8], letters: &[u8]) -> Option<Refusal>
    ensures value { result ≡ spec.refusal (spec.book_state_of progress images.now octets.old letters.now) }
    ensures octets_unchanged { octets.new ≡ octets.old }
{
    let terminals = progress.terminals;
    let g = bus_by_value::run(progress.bus, terminals, images, octets, letters, 0);
    match g.answer.reply {
        0 => None,
        1 => Some(Refusal::OutOfRange),
        _ => Some(Refusal::WrongSlice),
    }
}

// Goes on with a book in lent text, its report in lent room, until it needs more text or room, or
// is finished; `whole` says that the text reaches to the book's end. Room for less than PERIOD_ROOM
// octets is never enough. A refused call changes nothing.
pub fn go_on(
    progress: Progress,
    images: &mut [u8],
    octets: &mut [u8],
    letters: &mut [u8],
    text: &[u8],
    room: &mut [u8],
    whole: bool,
) -> Result<GoneOn, Refusal>
    ensures { GoesOn progress images.old octets.old letters.old
        text.now room.old whole
        result images.new octets.new letters.new room.new }
{
    match refusal(progress, images, octets, letters) {
        Some(reason) => Err(reason),
        None => Ok(read_on(progress, images, octets, letters, text, room, whole)),
    }
}

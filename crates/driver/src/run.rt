// All turns, from a fresh bus to the end of the book.
ghost use Rattle.std.specs.Prelude.{◌≡◌, ◌≤◌, true, length};
ghost use Rattle.std.specs.NonZero.{non_zero_usize_get};
ghost use Rattle.hdlc.specs.Image.{longest_body};
ghost use Rattle.bus_event.specs.Event.{images_room, are_letters};
ghost use Rattle.book_line.specs.Line.{longest_line};
ghost use Rattle.driver.specs.Turn.{Drives, Runs};

use super::turn::{Held, turn};
use book_go_on::progress::{OVER, Progress, TEXT};
use bus_event::event::IMAGES_ROOM;
use hdlc::LONGEST_BODY;
use period_text::period::PERIOD_ROOM;
use std::num::NonZeroUsize;
use symbols::LINE_LENGTH;

// The octets of the book that are in hand at a time at the most.
const TEXT_ROOM: usize = 65_536;

// Takes turns until the book is over or a write has failed. Nothing says that the input ends, so
// the turns are counted down, from a number that no run uses up (`RunEnds`). The first turn stands
// before the loop: where the compiler sees a fresh book go into the loop, it copies the book's
// fields one by one, at every turn.
fn drive(
    rt: &HostRuntime,
    text: &mut [u8],
    room: &mut [u8],
    images: &mut [u8],
    octets: &mut [u8],
    letters: &mut [u8],
    most: NonZeroUsize,
)
    requires longest_line_in_bounds { longest_line ≤ length text.old }
    requires images_len { length images.old ≡ images_room }
    requires longest_body_in_bounds { longest_body ≤ length octets.old }
    requires letters_value { are_letters letters.old ≡ true }
    ensures { Drives (non_zero_usize_get most) text.old room.old images.old octets.old letters.old
        text.new room.new images.new octets.new letters.new }
{
    let first = Held {
        progress: Progress::fresh(),
        have: 0,
        why: TEXT,
        whole: false,
        failed: false,
    };
    let mut h = turn(rt, first, text, room, images, octets, letters, most);
    for _turns in (0..u64::MAX - 1).rev() {
        if h.failed | (h.why == OVER) {
            return;
        }
        h = turn(rt, h, text, room, images, octets, letters, most);
    }
}

// Reads the book from standard input, in parts of at most `most` octets (0 counts as 1), and writes
// its report to standard output, through lent room. With less room than the notes of a period may
// take a call does nothing: there is nothing to drive.
pub fn run(rt: &HostRuntime, room: &mut [u8], most: usize)
    ensures { Runs most room.old room.new }
{
    if room.len() < PERIOD_ROOM {
        return;
    }
    let mut text = [0u8; TEXT_ROOM];
    let mut images = [0u8; IMAGES_ROOM];
    let mut octets = [0u8; LONGEST_BODY];
    let mut letters = [0u8; LINE_LENGTH];
    let part = NonZeroUsize::new(most).unwrap_or(NonZeroUsize::MIN);
    drive(
        rt,
        &mut text,
        room,
        &mut images,
        &mut octets,
        &mut letters,
        part,
    );
}

// One turn: text where it is needed, a call, and what it has written goes to standard output.
ghost use Rattle.std.specs.Prelude.{◌≤◌, length};
ghost use Rattle.std.specs.NonZero.{non_zero_usize_get};
ghost use Rattle.book_line.specs.Line.{longest_line};
ghost use Rattle.driver.specs.Turn.{Turned, Going};

use super::fill::fill;
use book_go_on::go_on::go_on;
use book_go_on::progress::Progress;
use book_reader::rest::keep;
use std::num::NonZeroUsize;
use streams::write::write_out;

// What is kept between turns: how far the book has come, how many octets of it are in hand, why the
// last call has stopped, whether no more of the book comes, and whether a write has failed.
#[derive(Clone, Copy)]
pub(crate) struct Held {
    pub(crate) progress: Progress,
    pub(crate) have: usize,
    pub(crate) why: u8,
    pub(crate) whole: bool,
    pub(crate) failed: bool,
}

// Reads where text is needed, calls, writes out what stands in the room, and keeps the text not yet
// taken. Whether the write has failed is what `write_out` answers: no statement speaks of it. No
// call is refused here (`Going`).
pub(crate) fn turn(
    rt: &HostRuntime,
    h: Held,
    text: &mut [u8],
    room: &mut [u8],
    images: &mut [u8],
    octets: &mut [u8],
    letters: &mut [u8],
    most: NonZeroUsize,
) -> Held
    requires going { Going h text.old images.old octets.old letters.old }
    requires longest_line_in_bounds { longest_line ≤ length text.old }
    ensures { Turned (non_zero_usize_get most) h
        text.old room.old images.old octets.old letters.old
        result text.new room.new images.new octets.new letters.new }
{
    let f = fill(rt, text, h.have, h.why, h.whole, most);
    let have = f.have;
    let before = h.progress;
    let w = go_on(
        before,
        images,
        octets,
        letters,
        &text[..have],
        room,
        f.whole,
    )
    .unwrap();
    let wrote = w.wrote;
    let taken = write_out(rt, &room[..wrote]);
    let left = keep(text, w.taken, have);
    let progress = w.progress;
    Held {
        progress,
        have: left,
        why: w.why,
        whole: f.whole,
        failed: taken < wrote,
    }
}

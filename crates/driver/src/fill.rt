// Reading text from standard input.
ghost use Rattle.std.specs.Prelude.{◌≡◌, ◌≤◌, ◌<◌, length};
ghost use Rattle.std.specs.NonZero.{non_zero_usize_get};
ghost use Rattle.report.specs.Ahead.{TEXT};
ghost use Rattle.driver.specs.Turn.{Fills};

use book_go_on::progress::TEXT;
use std::num::NonZeroUsize;
use streams::read::read_in;

// The octets in hand, and whether they reach to the book's end.
#[derive(Clone, Copy)]
pub(crate) struct Filled {
    pub(crate) have: usize,
    pub(crate) whole: bool,
}

// Reads at most `most` octets behind those in hand, where the last call has stopped for text. A
// read that gives nothing ends the book there, and so does one that fails, once that is said: a
// read is offered one octet at least.
pub(crate) fn fill(
    rt: &HostRuntime,
    text: &mut [u8],
    have: usize,
    why: u8,
    whole: bool,
    most: NonZeroUsize,
) -> Filled
    requires have_in_bounds { have ≤ length text.old }
    requires have_in_bounds_2 { why ≡ TEXT → have < length text.old }
    ensures { Fills (non_zero_usize_get most) text.old have why whole text.new result.have result.whole }
{
    if why != TEXT {
        return Filled { have, whole };
    }
    let end = have + most.get().min(text.len() - have);
    let n = read_in(rt, &mut text[have..end]);
    Filled {
        have: have + n,
        whole: n == 0,
    }
}

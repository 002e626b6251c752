// Standard input.
ghost use Rattle.std.specs.Prelude.{IfOk};
ghost use Rattle.streams.specs.Counts.{IsPrefixLen};

use super::again::{TRIES, again, moved};
use super::failure::say;
use std::io::Read;

// Reads once.
fn read_once(rt: &HostRuntime, part: &mut [u8]) -> Result<usize, u64>
    ensures { IfOk result (λ count. IsPrefixLen count part.new) }
{
    moved(rt.stdin().read(part))
}

// Reads into the part, from its front on, and gives how many octets have come: 0 where the input
// has ended, or where the read has failed, which is said on standard error.
pub fn read_in(rt: &HostRuntime, part: &mut [u8]) -> usize
    ensures { IsPrefixLen result part.new }
{
    let mut error = 0;
    for _ in (0..TRIES).rev() {
        match read_once(rt, part) {
            Ok(count) => return count,
            Err(e) => error = e,
        }
        if !again(rt, error) {
            break;
        }
    }
    say(rt, b"bench: the book could not be read", error);
    0
}

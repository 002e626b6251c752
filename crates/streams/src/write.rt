// Standard output.
ghost use Rattle.std.specs.Prelude.{IfOk, ◌+◌, ◌≤◌, length};

use super::again::{TRIES, again, moved};
use super::failure::say;
use std::io::Write;

// Writes once, the octets from `done` on.
fn write_once(rt: &HostRuntime, octets: &[u8], done: usize) -> Result<usize, u64>
    requires { done ≤ length octets.now }
    ensures { IfOk result (λ count. done + count ≤ length octets.now) }
{
    moved(rt.stdout().write(&octets[done..]))
}

// Writes octets from `done` on, and gives how many were taken: 0 where the write has failed or has
// taken none, which is said on standard error.
fn write_some(rt: &HostRuntime, octets: &[u8], done: usize) -> usize
    requires { done ≤ length octets.now }
    ensures { done + result ≤ length octets.now }
{
    let mut error = 0;
    for _ in (0..TRIES).rev() {
        match write_once(rt, octets, done) {
            Ok(0) => error = 0,
            Ok(count) => return count,
            Err(e) => error = e,
        }
        if !again(rt, error) {
            break;
        }
    }
    say(rt, b"bench: the report could not be written", error);
    0
}

// Writes the octets, and gives how many were taken: all of them unless a write has failed.
pub fn write_out(rt: &HostRuntime, octets: &[u8]) -> usize
    ensures { result ≤ length octets.now }
{
    let mut done: usize = 0;
    while done < octets.len() {
        let n = write_some(rt, octets, done);
        if n == 0 {
            return done;
        }
        done += n;
    }
    done
}

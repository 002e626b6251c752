// Calls of the system that have failed and are tried again.
ghost use Rattle.std.specs.Prelude.{◌≡◌, ◌<◌, ◌⊎◌, IfOk, IfErr};
ghost use Rattle.std.specs.IoError.{raw_os_error};
ghost use Rattle.streams.specs.Failure.{errno_of, errno_in, is_tried_again};

use super::pause::pause;
use std::io;

// As Linux numbers them: errno of a call that a signal has interrupted, and of one that could move
// nothing yet.
const EINTR: u64 = 4;

const EAGAIN: u64 = 11;

// How often a call is tried at the most: nothing says that it ever succeeds, so the tries are
// counted down, from a number that no run uses up.
pub(crate) const TRIES: u64 = u64::MAX;

// Gives errno as a number.
fn number(error: i32) -> u64
    ensures { result ≡ errno_of error }
{
    if error < 0 { 0 } else { error as u64 }
}

// Gives errno of a call that has failed, 0 where the error has none: the system's errors have one.
fn error_of(error: &io::Error) -> u64
    ensures { result ≡ errno_in (raw_os_error error.now) }
{
    error.raw_os_error().map_or(0, number)
}

// Gives how many octets a call has moved, or errno where it has failed. An error that has none
// counts as nothing moved.
pub(crate) fn moved(said: io::Result<usize>) -> Result<usize, u64>
    ensures ok { IfOk result (λ count. (said ≡ Ok count) ⊎ (count ≡ 0)) }
    ensures err { IfErr result (λ errno. 0 < errno) }
{
    let error = match said {
        Ok(count) => return Ok(count),
        Err(error) => error_of(&error),
    };
    if error == 0 { Ok(0) } else { Err(error) }
}

// Tests whether a call that gave this errno is tried again. Where it could move nothing yet, waits
// for a while first.
pub(crate) fn again(rt: &HostRuntime, error: u64) -> bool
    ensures { result ≡ is_tried_again error }
{
    if error == EAGAIN {
        pause(rt);
    }
    (error == EAGAIN) | (error == EINTR)
}

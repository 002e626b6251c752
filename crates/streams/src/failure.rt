// What has failed, said on standard error.
ghost use Rattle.note_text.specs.Room.{Put};
ghost use Rattle.streams.specs.Failure.{failure_line};

use note_text::number::put_decimal;
use note_text::room::put;
use std::io::Write;

// Puts the line: what has failed, a colon, a space, errno.
fn put_failure(room: &mut [u8], what: &[u8], errno: u64) -> usize
    ensures { Put room.old 0 (failure_line what.now errno) result room.new }
{
    let a = put(room, 0, what);
    let b = put(room, a, b": ");
    let c = put_decimal(room, b, errno);
    put(room, c, b"\n")
}

// Says in one line what has failed, with errno. Nobody can be told where this fails too.
pub(crate) fn say(rt: &HostRuntime, what: &[u8], errno: u64) {
    let mut room = [0u8; 80];
    let n = put_failure(&mut room, what, errno);
    let _ = rt.stderr().write_all(&room[..n]);
}

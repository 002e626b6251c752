// A wait.
use std::thread;
use std::time::Duration;

// Waits for a millisecond.
pub(crate) fn pause(rt: &HostRuntime) {
    thread::sleep(rt, Duration::from_millis(1));
}

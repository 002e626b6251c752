// Timers: the period at whose start one is due, 0 for none.
// Kept: what may not change: `due` takes any number as a timer, and the public records hold any.
ghost use Rattle.std.specs.Prelude.{◌≡◌};
ghost use Rattle.timing.specs.Timers.{due, started_by, timer_after};
ghost use Rattle.timing.specs.Clear.{clear};

use super::counts::Periods;
use notes_and_cells::cell::{START, STOP};

// The lengths of T1, T2 and T3 in periods.
pub const T1: u32 = 120_000;

pub const T2: u32 = 200;

pub const T3: u32 = 120_000;

// Tests whether a timer is due at the start of period `now`.
#[tactic(auto, unfolding(crate::specs::Timers::due))]
pub fn due(timer: u64, now: Periods) -> bool
    ensures { result ≡ due timer now.0 }
{
    if timer == 0 {
        return false;
    }
    timer == now.0 as u64
}

// Gives a timer after a cell's action in period `now`: where this is `start`, it is started with
// `length`; else it stays.
#[tactic(auto, unfolding(crate::specs::Timers::started_by))]
pub fn started_by(start: u8, length: u32, action: u8, now: Periods, timer: u64) -> u64
    ensures { result ≡ started_by start length action now.0 timer }
{
    if action == start {
        now.0 as u64 + length as u64
    } else {
        timer
    }
}

// Gives a timer after a cell's action in period `now`, where START starts it with `length` and STOP
// stops it: T1 in table 6-3, T3 in table 6-2.
#[tactic(auto, unfolding(crate::specs::Timers::timer_after))]
pub fn timer_after(length: u32, action: u8, now: Periods, timer: u64) -> u64
    ensures { result ≡ timer_after length action now.0 timer }
{
    if action == STOP {
        return 0;
    }
    started_by(START, length, action, now, timer)
}

// Gives how many of the next periods' starts come before a timer is due, `most` at most; `now` is
// the coming period.
#[tactic(auto, unfolding(crate::specs::Clear::clear))]
pub fn clear(now: Periods, most: u32, timer: u64) -> u32
    ensures { result ≡ clear now.0 most timer }
{
    let from = now.0 as u64;
    if from < timer {
        let until = timer - from;
        if until <= most as u64 {
            return (until - 1) as u32;
        }
    }
    most
}

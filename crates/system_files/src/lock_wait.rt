//! Waiting for a lock that another run has.
ghost use Rattle.std.specs.Prelude.{◌≡◌, ◌*◌, ◌-◌, ◌^◌, min, max};

use crate::cause::Cause;
use std::rt::Clock;
use std::thread;
use std::time::Duration;

/// A lock is tried again so often in a second.
const TRIES_A_SECOND: u32 = 10;

/// The milliseconds between two tries.
const PAUSE: u64 = 100;

/// The milliseconds between two tries for a lock that others have for a moment only.
const MOMENT: u64 = 1;

/// How long a lock is waited for.
#[derive(Clone, Copy, Debug, PartialEq, Eq)]
pub struct LockWait {
    tries: u32,
}

impl LockWait {
    /// So many seconds, as far as the tries are counted. For none, a lock is tried once.
    pub fn of_seconds(seconds: u32) -> LockWait
        ensures { result.tries ≡ min (seconds * 10) (2 ^ 32 - 1) }
    {
        LockWait {
            tries: seconds.saturating_mul(TRIES_A_SECOND),
        }
    }

    /// This wait, but for no less than so many seconds.
    pub(crate) fn or_seconds(self, least: u32) -> LockWait
        ensures { result.tries ≡ max self.tries (min (least * 10) (2 ^ 32 - 1)) }
    {
        LockWait {
            tries: self.tries.max(LockWait::of_seconds(least).tries),
        }
    }
}

/// Makes a call again, a tenth of a second later, while it answers that another run has a lock and
/// the wait is not over.
pub(crate) fn in_time<C: Clock, T, F: Fn() -> Result<T, Cause> + Drop>(
    clock: &C,
    wait: LockWait,
    call: F,
) -> Result<T, Cause>
    requires { F.IsAlwaysCallable call }
{
    for _ in 0..wait.tries {
        match call() {
            Err(Cause::InUse) => thread::sleep(clock, Duration::from_millis(PAUSE)),
            answer => return answer,
        }
    }
    call()
}

/// Asks for a lock again, a moment later, until it is had or so many moments are over. Whether it
/// is had.
pub(crate) fn in_moments<C: Clock, F: Fn() -> bool + Drop>(clock: &C, moments: u32, call: F) -> bool
    requires { F.IsAlwaysCallable call }
{
    for _ in 0..moments {
        if call() {
            return true;
        }
        thread::sleep(clock, Duration::from_millis(MOMENT));
    }
    call()
}

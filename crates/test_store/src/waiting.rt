//! Locks that another run has, and that are waited for.

use crate::checks::assert_equal_for;
use std::cell::Cell;
use std::fs::{Metadata, OpenFile, TryLockError};
use std::io::{self, ErrorKind};
use std::os::unix::fs::FileExt;
use std::rt::{Clock, Files};
use std::time::Duration;
use system_files::{Cause, KeptFile, LockFile, LockWait};

/// A clock that counts the pauses, which are of a tenth of a second.
#[derive(Drop)]
struct Pauses {
    counted: Cell<u32>,
}

impl Clock for Pauses {
    fn monotonic(&self) -> io::Result<Duration> {
        Err(ErrorKind::Unsupported.into())
    }

    fn since_1970(&self) -> io::Result<Duration> {
        Err(ErrorKind::Unsupported.into())
    }

    fn sleep(&self, duration: Duration) {
        if duration == Duration::from_millis(100) {
            self.counted.set(self.counted.get().saturating_add(1));
        }
    }
}

/// An empty file whose lock another run has for so many tries. It counts how often it was unlocked.
#[derive(Drop)]
struct Awaited<'a> {
    left: Cell<u32>,
    unlocked: &'a Cell<u32>,
}

impl<'a> Awaited<'a> {
    fn lock(&self) -> Result<(), TryLockError> {
        match self.left.get().checked_sub(1) {
            Some(left) => {
                self.left.set(left);
                Err(TryLockError::WouldBlock)
            }
            None => Ok(()),
        }
    }
}

impl<'a> LockFile for Awaited<'a> {
    fn try_lock_shared(&self) -> Result<(), TryLockError> {
        self.lock()
    }

    fn try_lock(&self) -> Result<(), TryLockError> {
        self.lock()
    }

    fn unlock(&self) -> io::Result<()> {
        self.unlocked.set(self.unlocked.get().saturating_add(1));
        Ok(())
    }

    fn is_named<R: Files>(&self, _rt: &R, _path: &str) -> io::Result<bool> {
        Ok(true)
    }
}

impl<'a> FileExt for Awaited<'a> {
    fn read_at(&self, _bytes: &mut [u8], _at: u64) -> io::Result<usize> {
        Ok(0)
    }

    fn write_at(&self, bytes: &[u8], _at: u64) -> io::Result<usize> {
        Ok(bytes.len())
    }
}

impl<'a> OpenFile for Awaited<'a> {
    fn metadata(&self) -> io::Result<Metadata> {
        Ok(Metadata::of_file(0))
    }

    fn set_len(&self, _size: u64) -> io::Result<()> {
        Ok(())
    }

    fn sync_all(&self) -> io::Result<()> {
        Ok(())
    }

    fn sync_data(&self) -> io::Result<()> {
        Ok(())
    }
}

// The seconds, how often the lock is refused, why it is not had in time, and the pauses.
const WAITS: [(u32, u32, Option<Cause>, u32); 7] = [
    (0, 0, None, 0),
    (0, 1, Some(Cause::InUse), 0),
    (1, 0, None, 0),
    (1, 10, None, 10),
    (1, 11, Some(Cause::InUse), 10),
    (3, 30, None, 30),
    (3, 31, Some(Cause::InUse), 30),
];

#[test]
fn a_lock_is_tried_ten_times_a_second_until_it_is_had(rt: HostRuntime) {
    for &(seconds, refusals, why, pauses) in &WAITS {
        let clock = Pauses {
            counted: Cell::new(0),
        };
        let unlocked = Cell::new(0);
        let file = Awaited {
            left: Cell::new(refusals),
            unlocked: &unlocked,
        };
        let made = KeptFile::made(&clock, LockWait::of_seconds(seconds), file);
        let case = (seconds, refusals);
        assert_equal_for(&rt, case, made.err(), why);
        assert_equal_for(&rt, case, clock.counted.get(), pauses);
        // What is refused the exclusive lock keeps no shared one while it waits.
        assert_equal_for(&rt, case, unlocked.get(), refusals);
    }
}

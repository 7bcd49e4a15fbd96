//! Locks of the system on open files. A lock belongs to the file as it was opened: it goes when
//! that is closed, and so with the process.

use crate::calls::{MOST_INTERRUPTED, again, is_interrupted};
use crate::cause::Cause;
use std::fs::{self, File, TryLockError};
use std::io;
use std::os::unix::fs::MetadataExt;
use std::rt::Files;

/// An open file that can be locked, and that is known again by its name, as `File` is.
pub trait LockFile {
    fn try_lock_shared(&self) -> Result<(), TryLockError>;

    fn try_lock(&self) -> Result<(), TryLockError>;

    fn unlock(&self) -> io::Result<()>;

    /// Whether this path names this very file. It does not where another file is there, a link to
    /// this one, or nothing. An error: the system does not tell.
    fn is_named<R: Files>(&self, rt: &R, path: &str) -> io::Result<bool>;
}

impl LockFile for File {
    fn try_lock_shared(&self) -> Result<(), TryLockError> {
        File::try_lock_shared(self)
    }

    fn try_lock(&self) -> Result<(), TryLockError> {
        File::try_lock(self)
    }

    fn unlock(&self) -> io::Result<()> {
        File::unlock(self)
    }

    fn is_named<R: Files>(&self, rt: &R, path: &str) -> io::Result<bool> {
        let named = match fs::symlink_metadata(rt, path) {
            Ok(named) => named,
            Err(error) if error.kind() == io::ErrorKind::NotFound => return Ok(false),
            Err(error) => return Err(error),
        };
        let opened = File::metadata(self)?;
        Ok(named.dev() == opened.dev() && named.ino() == opened.ino())
    }
}

/// Takes the lock that those who read have side by side. Whether it was had; where the system has
/// no locks, it is as if.
pub fn share<F: LockFile>(file: &F) -> bool {
    was_had(|| file.try_lock_shared())
}

/// Takes the lock that one alone has, if it is had, as `share` tells it. Where it is not, a lock that
/// was had before is gone: two that read a file and are to change it do not wait for each other.
pub(crate) fn claim<F: LockFile>(file: &F) -> Result<(), Cause> {
    if was_had(|| file.try_lock()) {
        return Ok(());
    }
    release(file);
    Err(Cause::InUse)
}

/// Lets a lock go.
pub(crate) fn release<F: LockFile>(file: &F) {
    let _ = again(|| file.unlock());
}

/// Whether one try has the lock of `share`. An interrupted one has not.
pub(crate) fn try_share<F: LockFile>(file: &F) -> bool {
    matches!(tried(file.try_lock_shared()), Some(true))
}

/// And that of `claim`.
pub(crate) fn try_claim<F: LockFile>(file: &F) -> bool {
    matches!(tried(file.try_lock()), Some(true))
}

// Whether a call had its lock.
fn was_had<F: Fn() -> Result<(), TryLockError> + Drop>(call: F) -> bool
    requires { F.IsAlwaysCallable call }
{
    for _ in 0..MOST_INTERRUPTED {
        if let Some(had) = tried(call()) {
            return had;
        }
    }
    false
}

// Whether a try had its lock, if it was not interrupted. A fault other than that somebody else has it
// means that there are no locks.
fn tried(answer: Result<(), TryLockError>) -> Option<bool> {
    match answer {
        Ok(()) => Some(true),
        Err(TryLockError::WouldBlock) => Some(false),
        Err(TryLockError::Error(error)) => {
            if is_interrupted(&error) {
                None
            } else {
                Some(true)
            }
        }
    }
}

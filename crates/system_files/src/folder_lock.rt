//! The lock of a folder, under which a file is made in it.
//!
//! A file is made first and locked then. Who opened it in between would meet an empty file without
//! a lock, and could have its lock before the one who made it. So who makes a file has the exclusive
//! lock of the folder until the file is locked. Who has opened an empty file takes the shared lock of
//! the folder before that of the file: then the file is locked, or nobody is about to lock it.
//! Runs have these locks for a moment. One that is not had is given up in time, and so no two runs
//! wait for each other.

use crate::cause::Cause;
use crate::kept_folder::opened;
use crate::lock_wait::in_moments;
use crate::locks::{LockFile, try_claim, try_share};
use std::rt::{Clock, Files};

/// So many moments who makes a file tries for the lock of the folder.
const TO_MAKE: u32 = 2000;

/// And who opens an empty one. With `--wait` it is tried so often again.
const TO_OPEN: u32 = 100;

/// Takes the exclusive lock of a folder, if it is had in two seconds. Who keeps it for longer makes
/// no file: it is the lock of another program, such as the command `flock`, and the file is made
/// without it. Nobody opens it too early then: the shared lock is not had either.
pub(crate) fn claim_folder<C: Clock, F: LockFile>(clock: &C, folder: &F) {
    in_moments(clock, TO_MAKE, || try_claim(folder));
}

/// The folder of the path of a file, with its shared lock, or nothing where the folder cannot be
/// read. The lock goes when the folder is closed. Where it is not had, somebody may be about to lock
/// the file.
pub(crate) fn share_folder<R: Files + Clock>(rt: &R, path: &str) -> Result<Option<R::File>, Cause>
where
    R::File: LockFile,
{
    match opened(rt, folder_of(path)) {
        Ok(folder) => {
            if in_moments(rt, TO_OPEN, || try_share(&folder)) {
                Ok(Some(folder))
            } else {
                Err(Cause::InUse)
            }
        }
        Err(Cause::Folder) => Ok(None),
        Err(cause) => Err(cause),
    }
}

// The folder of the path of a file.
fn folder_of(path: &str) -> &str {
    match path.rsplit_once('/') {
        Some(("", _)) => "/",
        Some((folder, _)) => folder,
        None => ".",
    }
}

//! A file that is kept open to be read.

use std::alloc::Global;
use std::fs::OpenFile;
use std::io::ErrorKind;
use std::os::unix::fs::FileExt;
use std::rt::{Clock, Files};
use system_files::{Cause, LockFile, LockWait};

/// The path of a file, and the file, which no other run changes while it is open.
#[derive(Drop)]
pub(crate) struct SharedFile<F: Drop> {
    path: String,
    file: F,
}

impl<F: OpenFile + FileExt + LockFile + Drop> SharedFile<F> {
    /// Opens the file of this path, if its lock is had in time.
    pub(crate) fn open<R: Files<File = F> + Clock>(
        rt: &R,
        alloc: Global,
        wait: LockWait,
        path: &str,
    ) -> Result<SharedFile<F>, Cause> {
        let Ok(kept) = path.to_string(alloc) else {
            return Err(Cause::Other(ErrorKind::OutOfMemory));
        };
        let file = system_files::open_shared(rt, wait, path)?;
        Ok(SharedFile { path: kept, file })
    }
}

// Has the file of a path open: the one that is, or it is opened.
fn reach<R: Files + Clock>(
    shared: &mut Option<SharedFile<R::File>>,
    rt: &R,
    alloc: Global,
    wait: LockWait,
    path: &str,
) -> Result<(), Cause>
where
    R::File: FileExt + LockFile,
{
    if let Some(kept) = shared {
        if kept.path.as_str() == path {
            return Ok(());
        }
    }
    *shared = None;
    *shared = Some(SharedFile::open(rt, alloc, wait, path)?);
    Ok(())
}

/// The number of bytes of the file of a path, which is kept open.
pub(crate) fn measure_shared<R: Files + Clock>(
    shared: &mut Option<SharedFile<R::File>>,
    rt: &R,
    alloc: Global,
    wait: LockWait,
    path: &str,
) -> Result<u64, Cause>
where
    R::File: FileExt + LockFile,
{
    reach(shared, rt, alloc, wait, path)?;
    match shared {
        Some(kept) => system_files::measure(&kept.file),
        None => Err(Cause::Replaced),
    }
}

/// Fills the bytes with those of the file of a path from `at` on, if they all come. The file is kept
/// open.
pub(crate) fn read_shared<R: Files + Clock>(
    shared: &mut Option<SharedFile<R::File>>,
    rt: &R,
    alloc: Global,
    wait: LockWait,
    path: &str,
    at: u64,
    bytes: &mut [u8],
) -> Result<(), Cause>
where
    R::File: FileExt + LockFile,
{
    reach(shared, rt, alloc, wait, path)?;
    match shared {
        Some(kept) => system_files::read(&kept.file, at, bytes),
        None => Err(Cause::Replaced),
    }
}

//! The file system of the machine, but for what a test lets it refuse.

use std::alloc::Allocator;
use std::cell::Cell;
use std::fs::{File, FileTimes, Metadata, OpenFile, OpenOptions, TryLockError};
use std::io::{self, ErrorKind, Read, Seek, SeekFrom, Write};
use std::os::unix::fs::FileExt;
use std::rt::{Clock, Files};
use std::time::{Duration, UNIX_EPOCH};
use system_files::LockFile;

/// What another run does to a file while this one has no lock on it.
#[derive(Clone, Copy, Debug, PartialEq, Eq)]
pub enum Change {
    Nothing,
    /// It writes a byte of the first page.
    Page,
    /// It makes the file longer.
    Length,
    /// It leaves all bytes as they were.
    Times,
}

/// What is refused, and what happens meanwhile.
#[derive(Drop)]
pub struct Refusals {
    /// Files are not opened for writing, for this reason.
    pub writing: Cell<Option<ErrorKind>>,
    /// There are no locks.
    pub locks: Cell<bool>,
    /// The next sync of a folder fails, and no later one.
    pub folder_sync: Cell<bool>,
    /// Before the next exclusive lock of a file.
    pub change: Cell<Change>,
}

impl Refusals {
    /// Nothing is refused.
    pub fn none() -> Refusals {
        Refusals {
            writing: Cell::new(None),
            locks: Cell::new(false),
            folder_sync: Cell::new(false),
            change: Cell::new(Change::Nothing),
        }
    }

    /// The file system of this runtime with these refusals.
    pub fn over<R>(&self, rt: R) -> Refusing<'_, R> {
        Refusing { rt, refusals: self }
    }
}

/// The file system of a runtime, with refusals.
#[derive(Clone, Copy, Drop)]
pub struct Refusing<'a, R> {
    pub rt: R,
    pub refusals: &'a Refusals,
}

/// A file of it.
#[derive(Drop)]
pub struct RefusingFile<'a> {
    file: File,
    refusals: &'a Refusals,
}

impl<'a> RefusingFile<'a> {
    fn without_locks(&self) -> Result<(), TryLockError> {
        if self.refusals.locks.get() {
            Err(TryLockError::Error(ErrorKind::Unsupported.into()))
        } else {
            Ok(())
        }
    }

    fn change(&self) -> io::Result<()> {
        if self.file.metadata()?.is_dir() {
            return Ok(());
        }
        match self.refusals.change.replace(Change::Nothing) {
            Change::Nothing => Ok(()),
            Change::Page => {
                self.file.write_at(&[0], 9)?;
                Ok(())
            }
            Change::Length => {
                let length = self.file.metadata()?.len();
                self.file.set_len(length.saturating_add(1))
            }
            Change::Times => self
                .file
                .set_times(FileTimes::new().set_modified(UNIX_EPOCH)),
        }
    }
}

impl<'a> LockFile for RefusingFile<'a> {
    fn try_lock_shared(&self) -> Result<(), TryLockError> {
        self.without_locks()?;
        self.file.try_lock_shared()
    }

    fn try_lock(&self) -> Result<(), TryLockError> {
        self.without_locks()?;
        match self.change() {
            Ok(()) => self.file.try_lock(),
            Err(error) => Err(TryLockError::Error(error)),
        }
    }

    fn unlock(&self) -> io::Result<()> {
        self.file.unlock()
    }

    fn is_named<R: Files>(&self, rt: &R, path: &str) -> io::Result<bool> {
        self.file.is_named(rt, path)
    }
}

impl<'a> FileExt for RefusingFile<'a> {
    fn read_at(&self, bytes: &mut [u8], at: u64) -> io::Result<usize> {
        self.file.read_at(bytes, at)
    }

    fn write_at(&self, bytes: &[u8], at: u64) -> io::Result<usize> {
        self.file.write_at(bytes, at)
    }
}

impl<'a> OpenFile for RefusingFile<'a> {
    fn metadata(&self) -> io::Result<Metadata> {
        self.file.metadata()
    }

    fn set_len(&self, size: u64) -> io::Result<()> {
        self.file.set_len(size)
    }

    fn sync_all(&self) -> io::Result<()> {
        if self.file.metadata()?.is_dir() && self.refusals.folder_sync.replace(false) {
            return Err(ErrorKind::Other.into());
        }
        self.file.sync_all()
    }

    fn sync_data(&self) -> io::Result<()> {
        self.file.sync_data()
    }
}

impl<'a> Read for RefusingFile<'a> {
    fn read(&mut self, bytes: &mut [u8]) -> io::Result<usize> {
        self.file.read(bytes)
    }
}

impl<'a> Write for RefusingFile<'a> {
    fn write(&mut self, bytes: &[u8]) -> io::Result<usize> {
        self.file.write(bytes)
    }

    fn flush(&mut self) -> io::Result<()> {
        self.file.flush()
    }
}

impl<'a> Seek for RefusingFile<'a> {
    fn seek(&mut self, to: SeekFrom) -> io::Result<u64> {
        self.file.seek(to)
    }
}

impl<'a, R: Files<File = File>> Files for Refusing<'a, R> {
    type File = RefusingFile<'a>;

    type Dir = R::Dir;

    fn open_file(&self, how: &OpenOptions, path: &str) -> io::Result<RefusingFile<'a>> {
        if how.asks_write() {
            if let Some(kind) = self.refusals.writing.get() {
                return Err(kind.into());
            }
        }
        Ok(RefusingFile {
            file: self.rt.open_file(how, path)?,
            refusals: self.refusals,
        })
    }

    fn open_dir(&self, path: &str) -> io::Result<R::Dir> {
        self.rt.open_dir(path)
    }

    fn metadata(&self, path: &str) -> io::Result<Metadata> {
        self.rt.metadata(path)
    }

    fn symlink_metadata(&self, path: &str) -> io::Result<Metadata> {
        self.rt.symlink_metadata(path)
    }

    fn copy(&self, from: &str, to: &str) -> io::Result<u64> {
        self.rt.copy(from, to)
    }

    fn rename(&self, from: &str, to: &str) -> io::Result<()> {
        self.rt.rename(from, to)
    }

    fn remove_file(&self, path: &str) -> io::Result<()> {
        self.rt.remove_file(path)
    }

    fn create_dir(&self, path: &str) -> io::Result<()> {
        self.rt.create_dir(path)
    }

    fn remove_dir(&self, path: &str) -> io::Result<()> {
        self.rt.remove_dir(path)
    }

    fn remove_dir_all<B: Allocator>(&self, alloc: B, path: &str) -> io::Result<()> {
        self.rt.remove_dir_all(alloc, path)
    }
}

impl<'a, R: Clock> Clock for Refusing<'a, R> {
    fn monotonic(&self) -> io::Result<Duration> {
        self.rt.monotonic()
    }

    fn since_1970(&self) -> io::Result<Duration> {
        self.rt.since_1970()
    }
}

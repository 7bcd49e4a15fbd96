//! Calls of the system that are interrupted, that move a part of the bytes, or that fail.

use crate::checks::{assert_equal, assert_equal_for, assert_that};
use std::alloc::Global;
use std::cell::Cell;
use std::fs::{File, Metadata, OpenFile, TryLockError};
use std::io;
use std::os::unix::fs::FileExt;
use std::process::Abort;
use std::rt::Files;
use system_files::{Cause, KeptFile, KeptFolder, LockFile, LockWait};

/// A file of which each call is interrupted so many times, and then moves at most three bytes.
#[derive(Drop)]
struct Interrupted {
    times: u64,
    left: Cell<u64>,
    fails: Cell<bool>,
}

impl Interrupted {
    fn new(times: u64, fails: bool) -> Interrupted {
        Interrupted {
            times,
            left: Cell::new(times),
            fails: Cell::new(fails),
        }
    }

    fn pass(&self) -> io::Result<()> {
        match self.left.get().checked_sub(1) {
            Some(left) => {
                self.left.set(left);
                Err(io::ErrorKind::Interrupted.into())
            }
            None => {
                self.left.set(self.times);
                Ok(())
            }
        }
    }
}

impl LockFile for Interrupted {
    fn try_lock_shared(&self) -> Result<(), TryLockError> {
        self.pass().map_err(TryLockError::Error)
    }

    fn try_lock(&self) -> Result<(), TryLockError> {
        self.pass().map_err(TryLockError::Error)
    }

    fn unlock(&self) -> io::Result<()> {
        self.pass()
    }

    fn is_named<R: Files>(&self, _rt: &R, _path: &str) -> io::Result<bool> {
        self.pass()?;
        Ok(true)
    }
}

impl FileExt for Interrupted {
    fn read_at(&self, bytes: &mut [u8], _at: u64) -> io::Result<usize> {
        self.pass()?;
        Ok(bytes.len().min(3))
    }

    fn write_at(&self, bytes: &[u8], _at: u64) -> io::Result<usize> {
        self.pass()?;
        Ok(bytes.len().min(3))
    }
}

impl OpenFile for Interrupted {
    fn metadata(&self) -> io::Result<Metadata> {
        self.pass()?;
        Ok(Metadata::of_file(7))
    }

    fn set_len(&self, _size: u64) -> io::Result<()> {
        self.pass()
    }

    fn sync_all(&self) -> io::Result<()> {
        self.pass()?;
        if self.fails.replace(false) {
            return Err(io::ErrorKind::Other.into());
        }
        Ok(())
    }

    fn sync_data(&self) -> io::Result<()> {
        self.pass()
    }
}

/// A file all bytes of which are one byte, and of which no times are known. Who asks for the exclusive
/// lock finds it with another length or byte.
#[derive(Drop)]
struct Changing {
    length: Cell<u64>,
    byte: Cell<u8>,
    then: (u64, u8),
}

impl LockFile for Changing {
    fn try_lock_shared(&self) -> Result<(), TryLockError> {
        Ok(())
    }

    fn try_lock(&self) -> Result<(), TryLockError> {
        self.length.set(self.then.0);
        self.byte.set(self.then.1);
        Ok(())
    }

    fn unlock(&self) -> io::Result<()> {
        Ok(())
    }

    fn is_named<R: Files>(&self, _rt: &R, _path: &str) -> io::Result<bool> {
        Ok(true)
    }
}

impl FileExt for Changing {
    fn read_at(&self, bytes: &mut [u8], _at: u64) -> io::Result<usize> {
        bytes.fill(self.byte.get());
        Ok(bytes.len())
    }

    fn write_at(&self, bytes: &[u8], _at: u64) -> io::Result<usize> {
        Ok(bytes.len())
    }
}

impl OpenFile for Changing {
    fn metadata(&self) -> io::Result<Metadata> {
        Ok(Metadata::of_file(self.length.get()))
    }

    fn set_len(&self, size: u64) -> io::Result<()> {
        self.length.set(size);
        Ok(())
    }

    fn sync_all(&self) -> io::Result<()> {
        Ok(())
    }

    fn sync_data(&self) -> io::Result<()> {
        Ok(())
    }
}

// Each alone is seen: past the first page a length, and inside it a byte.
fn is_held_as(test: &impl Abort, rt: HostRuntime, then: (u64, u8), is_held: bool, written: usize) {
    let file = Changing {
        length: Cell::new(9000),
        byte: Cell::new(7),
        then,
    };
    let mut file = kept(test, file);
    let mut folder = folder_of(test, rt.alloc(), ".");
    assert_equal_for(
        test,
        then,
        file.hold(&rt, no_wait(), "", &mut folder).is_ok(),
        is_held,
    );
    assert_equal_for(test, then, file.write(0, &[0; 10]).taken, written);
    // Read anew, it is the file that it was found to be.
    assert_equal(test, file.measure(&rt, no_wait()), Ok(then.0));
    assert_that(test, file.hold(&rt, no_wait(), "", &mut folder).is_ok());
}

#[test]
fn a_file_with_another_length_or_first_page_is_not_held(rt: HostRuntime) {
    is_held_as(&rt, rt, (9000, 7), true, 10);
    is_held_as(&rt, rt, (9001, 7), false, 0);
    is_held_as(&rt, rt, (9000, 8), false, 0);
}

// What is answered where ten bytes are read and written, and a file is synced, measured and shared.
fn answers_of(file: &Interrupted) -> (bool, usize, bool, Option<u64>, bool) {
    let mut bytes = [0; 10];
    let read = system_files::read(file, 0, &mut bytes).is_ok();
    file.left.set(file.times);
    let written = system_files::write(file, 0, &bytes).taken;
    file.left.set(file.times);
    let synced = system_files::sync(file).is_ok();
    file.left.set(file.times);
    let length = system_files::measure(file).ok();
    file.left.set(file.times);
    (read, written, synced, length, system_files::share(file))
}

#[test]
fn a_thousand_interrupted_calls_in_a_row_are_a_fault(rt: HostRuntime) {
    let few = answers_of(&Interrupted::new(999, false));
    assert_equal(&rt, few, (true, 10, true, Some(7), true));
    let many = answers_of(&Interrupted::new(1000, false));
    assert_equal(&rt, many, (false, 0, false, None, false));
    assert_that(
        &rt,
        KeptFile::made(&rt, no_wait(), Interrupted::new(1000, false)).is_err(),
    );
}

fn kept<F: OpenFile + FileExt + LockFile + Drop>(test: &impl Abort, file: F) -> KeptFile<F> {
    match KeptFile::opened(file, None) {
        Ok(file) => file,
        Err(_) => panic!(test; "a file that is kept"),
    }
}

// A file of which each call is interrupted so many times, and whether its first sync fails.
fn opened(test: &impl Abort, times: u64, fails: bool) -> KeptFile<Interrupted> {
    kept(test, Interrupted::new(times, fails))
}

fn folder_of(test: &impl Abort, alloc: Global, path: &str) -> KeptFolder<File> {
    KeptFolder::new(path.to_string(alloc).expect(test, "memory"))
}

fn no_wait() -> LockWait {
    LockWait::of_seconds(0)
}

#[test]
fn a_file_is_written_only_while_it_is_held(rt: HostRuntime) {
    let mut file = opened(&rt, 999, false);
    let mut folder = folder_of(&rt, rt.alloc(), ".");
    assert_equal(&rt, file.measure(&rt, no_wait()), Ok(7));
    assert_equal(&rt, file.write(0, &[0; 10]).taken, 0);
    assert_equal(&rt, file.hold(&rt, no_wait(), "", &mut folder), Ok(()));
    assert_equal(&rt, file.write(0, &[0; 10]).taken, 10);
}

#[test]
fn a_file_that_may_only_be_read_is_never_held(rt: HostRuntime) {
    let file = Interrupted::new(0, false);
    let mut file = match KeptFile::opened(file, Some(Cause::Permission)) {
        Ok(file) => file,
        Err(_) => panic!(rt; "a file that is kept"),
    };
    let mut folder = folder_of(&rt, rt.alloc(), ".");
    assert_equal(
        &rt,
        file.hold(&rt, no_wait(), "", &mut folder),
        Err(Cause::Permission),
    );
    assert_equal(&rt, file.write(0, &[0; 10]).taken, 0);
    assert_equal(&rt, file.measure(&rt, no_wait()), Ok(7));
}

#[test]
fn a_file_is_not_held_without_its_folder(rt: HostRuntime) {
    let mut file = opened(&rt, 0, false);
    let mut folder = folder_of(&rt, rt.alloc(), "no_such_folder");
    assert_that(&rt, file.hold(&rt, no_wait(), "", &mut folder).is_err());
    assert_equal(&rt, file.write(0, &[0; 10]).taken, 0);
    assert_equal(&rt, file.measure(&rt, no_wait()), Ok(7));
}

#[test]
fn a_file_whose_sync_failed_is_not_synced_again(rt: HostRuntime) {
    let mut folder = folder_of(&rt, rt.alloc(), ".");
    let mut file = opened(&rt, 0, true);
    assert_that(&rt, file.sync(&rt, no_wait(), "", &mut folder).is_err());
    assert_that(&rt, file.sync(&rt, no_wait(), "", &mut folder).is_err());
    let mut file = opened(&rt, 0, false);
    assert_equal(&rt, file.sync(&rt, no_wait(), "", &mut folder), Ok(()));
}

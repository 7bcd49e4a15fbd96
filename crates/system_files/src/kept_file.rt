//! A file that is kept open, and locked.
ghost use Rattle.std.specs.Prelude.{◌≡◌, ◌<◌, ◌≤◌, ◌⊎◌, length, IsTrue, OnOk};
ghost use Rattle.system_files.specs.Held.{is_held, IsOpenFolder};

use crate::appearance::Appearance;
use crate::calls::{Written, again, measure, read, sync, write};
use crate::cause::Cause;
use crate::kept_folder::KeptFolder;
use crate::lock_wait::{LockWait, in_time};
use crate::locks::{LockFile, claim, release, share};
use std::fs::OpenFile;
use std::os::unix::fs::FileExt;
use std::rt::{Clock, Files};

/// The lock that a run has on a file.
#[derive(Drop)]
enum Lock {
    // Others may have changed the file since.
    Nothing,
    // Others may read too. So the file looked when it was had.
    Shared(Appearance),
    // This run alone reads and writes.
    Exclusive,
}

/// A file of the system that is kept open: the lock that is had on it, and what is known of its syncs.
#[derive(Drop)]
pub struct KeptFile<F: Drop> {
    file: F,
    // Why the system opened it for reading alone.
    only_read: Option<Cause>,
    lock: Lock,
    // The folder is to have its name on the disk, and is not known to.
    is_unnamed: bool,
    // Why a sync failed: the system may have dropped what was written, and the next sync may not tell.
    lost: Option<Cause>,
}

impl<F: OpenFile + FileExt + LockFile + Drop> KeptFile<F> {
    /// A file that was there and was just opened, with the shared lock, if it is had.
    pub fn opened(file: F, only_read: Option<Cause>) -> Result<KeptFile<F>, Cause> {
        let lock = shared(&file)?;
        Ok(KeptFile {
            file,
            only_read,
            lock,
            is_unnamed: false,
            lost: None,
        })
    }

    /// A file that was just made, with the exclusive lock, if it is had in time. Another run may have
    /// had it first, and gone: then it is not the one that was made.
    pub fn made<C: Clock>(clock: &C, wait: LockWait, file: F) -> Result<KeptFile<F>, Cause> {
        in_time(clock, wait, || claim(&file))?;
        if measure(&file)? != 0 {
            return Err(Cause::Changed);
        }
        Ok(KeptFile {
            file,
            only_read: None,
            lock: Lock::Exclusive,
            is_unnamed: true,
            lost: None,
        })
    }

    /// Whether the file may be changed: its lock is exclusive.
    pub fn is_held(&self) -> bool
        ensures { result ≡ is_held self.now }
    {
        matches!(self.lock, Lock::Exclusive)
    }

    /// Whether the path names this file, if the system tells it.
    pub fn is_named<R: Files>(&self, rt: &R, path: &str) -> Result<bool, Cause> {
        again(|| self.file.is_named(rt, path))
    }

    /// Makes the lock exclusive, before the file is changed. The folder is asked for before the
    /// lock, so that all that a change needs is had before the first byte is written. It is refused
    /// where the lock is not had in time, the path does not name this file, or the file is not the
    /// one that this run has read. Where the lock is refused none is left; the next look at the file
    /// takes the shared one anew.
    pub fn hold<R: Files + Clock>(
        &mut self,
        rt: &R,
        wait: LockWait,
        path: &str,
        folder: &mut KeptFolder<R::File>,
    ) -> Result<(), Cause>
        ensures held { OnOk result (IsTrue (is_held self.new)) }
        ensures folder { OnOk result (IsTrue (is_held self.old) ⊎ IsOpenFolder folder.new) }
        ensures path { folder.new.path ≡ folder.old.path }
    {
        if self.is_held() {
            return Ok(());
        }
        if let Some(cause) = self.only_read {
            return Err(cause);
        }
        folder.reach(rt)?;
        match self.claimed(rt, wait, path) {
            Ok(()) => {
                self.lock = Lock::Exclusive;
                Ok(())
            }
            Err(cause) => {
                self.let_go();
                Err(cause)
            }
        }
    }

    // Claims the lock of a file that is still what this run has read.
    fn claimed<R: Files + Clock>(&self, rt: &R, wait: LockWait, path: &str) -> Result<(), Cause> {
        let Lock::Shared(seen) = &self.lock else {
            return Err(Cause::InUse);
        };
        in_time(rt, wait, || claim(&self.file))?;
        if Appearance::of(&self.file)? != *seen {
            return Err(Cause::Changed);
        }
        self.require_name(rt, path)
    }

    fn let_go(&mut self) {
        release(&self.file);
        self.lock = Lock::Nothing;
    }

    // Refuses a path that does not name this file.
    fn require_name<R: Files>(&self, rt: &R, path: &str) -> Result<(), Cause> {
        if self.is_named(rt, path)? {
            Ok(())
        } else {
            Err(Cause::Replaced)
        }
    }

    // Sees that a lock is had. The shared one is taken anew where it is gone.
    fn lock<C: Clock>(&mut self, clock: &C, wait: LockWait) -> Result<(), Cause> {
        if matches!(self.lock, Lock::Nothing) {
            self.lock = in_time(clock, wait, || shared(&self.file))?;
        }
        Ok(())
    }

    /// The number of bytes, if a lock is had in time and it is told.
    pub fn measure<C: Clock>(&mut self, clock: &C, wait: LockWait) -> Result<u64, Cause> {
        self.lock(clock, wait)?;
        measure(&self.file)
    }

    /// Fills the bytes with those of the file from `at` on, if a lock is had in time and they all
    /// come.
    pub fn read<C: Clock>(
        &mut self,
        clock: &C,
        wait: LockWait,
        at: u64,
        bytes: &mut [u8],
    ) -> Result<(), Cause> {
        self.lock(clock, wait)?;
        read(&self.file, at, bytes)
    }

    /// Writes the bytes from `at` on into a file that is held. The system takes none of them where
    /// it is not held.
    pub fn write(&self, at: u64, bytes: &[u8]) -> Written
        ensures within { result.taken ≤ length bytes.now }
        ensures held { 0 < result.taken → IsTrue (is_held self.now) }
    {
        if !self.is_held() {
            return Written {
                taken: 0,
                failed: Some(Cause::InUse),
            };
        }
        write(&self.file, at, bytes)
    }

    /// Brings the file to the disk, and its name where this run made it. So it does with the name
    /// of a file that is synced before it is held: the run that made it may have ended before its
    /// name was there. It fails where the path does not name this file any more, and always once a
    /// sync failed.
    pub fn sync<R: Files + Clock>(
        &mut self,
        rt: &R,
        wait: LockWait,
        path: &str,
        folder: &mut KeptFolder<R::File>,
    ) -> Result<(), Cause>
        ensures { folder.new.path ≡ folder.old.path }
    {
        if let Some(cause) = self.lost {
            return Err(cause);
        }
        self.lock(rt, wait)?;
        self.is_unnamed |= !self.is_held();
        let done = self.bring_to_disk(rt, path, folder);
        if let Err(cause) = done {
            self.lost = Some(cause);
        }
        done
    }

    fn bring_to_disk<R: Files>(
        &mut self,
        rt: &R,
        path: &str,
        folder: &mut KeptFolder<R::File>,
    ) -> Result<(), Cause>
        ensures { folder.new.path ≡ folder.old.path }
    {
        sync(&self.file)?;
        if self.is_unnamed {
            folder.sync(rt)?;
            self.is_unnamed = false;
        }
        self.require_name(rt, path)
    }
}

// The shared lock of a file, with how it looks.
fn shared<F: OpenFile + FileExt + LockFile>(file: &F) -> Result<Lock, Cause> {
    if !share(file) {
        return Err(Cause::InUse);
    }
    match Appearance::of(file) {
        Ok(seen) => Ok(Lock::Shared(seen)),
        Err(cause) => {
            release(file);
            Err(cause)
        }
    }
}

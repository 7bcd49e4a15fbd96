//! The file of a unit, and why it failed.
ghost use Rattle.std.specs.Prelude.{◌≡◌, ◌≤◌, length, None};

use std::fs::OpenFile;
use std::os::unix::fs::FileExt;
use std::rt::{Clock, Files};
use system_files::{Cause, KeptFile, KeptFolder, LockFile, LockWait};

/// The file of a unit, once it was reached, and why a call on it first failed.
#[derive(Drop)]
pub(crate) struct Unit<F: Drop> {
    file: Option<KeptFile<F>>,
    failed: Option<Cause>,
}

impl<F: OpenFile + FileExt + LockFile + Drop> Unit<F> {
    pub(crate) fn new() -> Unit<F>
        ensures { result.file ≡ None }
    {
        Unit {
            file: None,
            failed: None,
        }
    }

    /// Closes the file. Why a call first failed is kept.
    pub(crate) fn close(&mut self)
        ensures { self.new.file ≡ None }
    {
        self.file = None;
    }

    /// Why a call first failed, if one did.
    pub(crate) fn cause(&self) -> Option<Cause> {
        self.failed
    }

    // Keeps why a call failed, if none did before.
    fn note(&mut self, cause: Cause) {
        if self.failed.is_none() {
            self.failed = Some(cause);
        }
    }

    // What a call answered, if it did not fail.
    fn told<T>(&mut self, answer: Result<T, Cause>) -> Option<T> {
        match answer {
            Ok(it) => Some(it),
            Err(cause) => {
                self.note(cause);
                None
            }
        }
    }

    // Keeps a file that was opened or made. Whether it was.
    fn keep(&mut self, file: Result<KeptFile<F>, Cause>) -> bool {
        match file {
            Ok(file) => {
                self.file = Some(file);
                true
            }
            Err(cause) => {
                self.note(cause);
                false
            }
        }
    }

    // Opens the file, if it is not open and can be read.
    fn reach<R: Files<File = F> + Clock>(
        &mut self,
        rt: &R,
        wait: LockWait,
        path: &str,
        folder: &mut KeptFolder<F>,
    )
        ensures { folder.new.path ≡ folder.old.path }
    {
        if self.file.is_none() {
            self.open(rt, wait, path, folder);
        }
    }

    // Opens the file, if it can be read, and with it the folder. It is apart from `reach`, which
    // each page that is read or written asks: a call of the system has a path of 4 KiB in its frame,
    // filled at its entry.
    #[inline(never)]
    fn open<R: Files<File = F> + Clock>(
        &mut self,
        rt: &R,
        wait: LockWait,
        path: &str,
        folder: &mut KeptFolder<F>,
    )
        ensures { folder.new.path ≡ folder.old.path }
    {
        let opened = system_files::open(rt, wait, path);
        self.keep(opened);
        // A file is read without it: the first change asks for it again.
        let _ = folder.reach(rt);
    }

    /// Whether a file of this name is there, if that is told. One that is kept and has this name no
    /// more is let go.
    pub(crate) fn look<R: Files>(&mut self, rt: &R, path: &str) -> Option<bool> {
        if let Some(file) = &self.file {
            if let Ok(false) = file.is_named(rt, path) {
                self.file = None;
            }
        }
        self.told(system_files::look(rt, path))
    }

    /// Makes the file. Whether it was made, and this run has it alone.
    pub(crate) fn make<R: Files<File = F> + Clock>(
        &mut self,
        rt: &R,
        wait: LockWait,
        path: &str,
        folder: &mut KeptFolder<F>,
    ) -> bool
        ensures { folder.new.path ≡ folder.old.path }
    {
        let made = system_files::make(rt, wait, path, folder);
        self.keep(made)
    }

    /// The number of bytes of the file, if it is told.
    pub(crate) fn measure<R: Files<File = F> + Clock>(
        &mut self,
        rt: &R,
        wait: LockWait,
        path: &str,
        folder: &mut KeptFolder<F>,
    ) -> Option<u64>
        ensures { folder.new.path ≡ folder.old.path }
    {
        self.reach(rt, wait, path, folder);
        let size = match &mut self.file {
            Some(file) => file.measure(rt, wait),
            None => return None,
        };
        self.told(size)
    }

    /// Fills the bytes with those of the file from `at` on. Whether they all came.
    pub(crate) fn read<R: Files<File = F> + Clock>(
        &mut self,
        rt: &R,
        wait: LockWait,
        path: &str,
        folder: &mut KeptFolder<F>,
        at: u64,
        bytes: &mut [u8],
    ) -> bool
        ensures { folder.new.path ≡ folder.old.path }
    {
        self.reach(rt, wait, path, folder);
        let done = match &mut self.file {
            Some(file) => file.read(rt, wait, at, bytes),
            None => return false,
        };
        self.told(done).is_some()
    }

    /// Holds the file for changes. Whether it is held.
    pub(crate) fn hold<R: Files<File = F> + Clock>(
        &mut self,
        rt: &R,
        wait: LockWait,
        path: &str,
        folder: &mut KeptFolder<F>,
    ) -> bool
        ensures { folder.new.path ≡ folder.old.path }
    {
        self.reach(rt, wait, path, folder);
        match &self.file {
            Some(file) if file.is_held() => true,
            _ => self.claim(rt, wait, path, folder),
        }
    }

    // Holds a file that was not held. It is apart from `hold` as `open` is from `reach`.
    #[inline(never)]
    fn claim<R: Files<File = F> + Clock>(
        &mut self,
        rt: &R,
        wait: LockWait,
        path: &str,
        folder: &mut KeptFolder<F>,
    ) -> bool
        ensures { folder.new.path ≡ folder.old.path }
    {
        let done = match &mut self.file {
            Some(file) => file.hold(rt, wait, path, folder),
            None => return false,
        };
        self.told(done).is_some()
    }

    /// Writes the bytes from `at` on, if the file is held. How many the system took.
    pub(crate) fn write(&mut self, at: u64, bytes: &[u8]) -> usize
        ensures { result ≤ length bytes.now }
    {
        let written = match &self.file {
            Some(file) => file.write(at, bytes),
            None => return 0,
        };
        if let Some(cause) = written.failed {
            self.note(cause);
        }
        written.taken
    }

    /// Brings the file to the disk. Whether it was done.
    pub(crate) fn sync<R: Files<File = F> + Clock>(
        &mut self,
        rt: &R,
        wait: LockWait,
        path: &str,
        folder: &mut KeptFolder<F>,
    ) -> bool
        ensures { folder.new.path ≡ folder.old.path }
    {
        self.reach(rt, wait, path, folder);
        let done = match &mut self.file {
            Some(file) => file.sync(rt, wait, path, folder),
            None => return false,
        };
        self.told(done).is_some()
    }
}

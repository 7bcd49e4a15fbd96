//! A folder that is kept open, and whose names are brought to the disk.
ghost use Rattle.std.specs.Prelude.{◌≡◌, string_bytes, OnOk};
ghost use Rattle.system_files.specs.Held.{IsOpenFolder};

use crate::calls::{again, sync};
use crate::cause::Cause;
use crate::folder_lock::claim_folder;
use crate::locks::{LockFile, release};
use std::fs::{OpenFile, OpenOptions};
use std::rt::{Clock, Files};

/// The path of a folder, the folder once it was opened, and what is known of its syncs.
#[derive(Drop)]
pub struct KeptFolder<F: Drop> {
    path: String,
    file: Option<F>,
    // Why a sync failed: the system may have dropped a name, and the next sync may not tell, whoever asks for it.
    lost: Option<Cause>,
}

impl<F: OpenFile + Drop> KeptFolder<F> {
    pub fn new(path: String) -> KeptFolder<F>
        ensures { result.path ≡ path }
    {
        KeptFolder {
            path,
            file: None,
            lost: None,
        }
    }

    pub fn path(&self) -> &str
        ensures { result.now ≡ string_bytes self.now.path }
    {
        self.path.as_str()
    }

    /// Opens the folder, if it is not open, so that the names of its files can be brought to the
    /// disk. It is refused where the system does, and for good once a sync failed.
    pub fn reach<R: Files<File = F>>(&mut self, rt: &R) -> Result<(), Cause>
        ensures ready { OnOk result (IsOpenFolder self.new) }
        ensures path { self.new.path ≡ self.old.path }
    {
        if let Some(cause) = self.lost {
            return Err(cause);
        }
        if self.file.is_none() {
            self.file = Some(opened(rt, self.path.as_str())?);
        }
        Ok(())
    }

    /// Brings the names of its files to the disk; never again once that failed.
    pub(crate) fn sync<R: Files<File = F>>(&mut self, rt: &R) -> Result<(), Cause>
        ensures { self.new.path ≡ self.old.path }
    {
        self.reach(rt)?;
        let done = match &self.file {
            Some(file) => sync(file),
            None => Err(Cause::Folder),
        };
        if let Err(cause) = done {
            self.lost = Some(cause);
        }
        done
    }
}

impl<F: OpenFile + LockFile + Drop> KeptFolder<F> {
    /// Has the lock of the folder, if it is open, for whoever makes a file in it.
    pub(crate) fn claim<C: Clock>(&self, clock: &C) {
        if let Some(file) = &self.file {
            claim_folder(clock, file);
        }
    }

    /// Lets that lock go.
    pub(crate) fn release(&self) {
        if let Some(file) = &self.file {
            release(file);
        }
    }
}

/// Opens a folder.
pub(crate) fn opened<R: Files>(rt: &R, path: &str) -> Result<R::File, Cause> {
    match again(|| OpenOptions::new().read(true).open(rt, path)) {
        Ok(folder) => Ok(folder),
        Err(Cause::Permission) => Err(Cause::Folder),
        Err(cause) => Err(cause),
    }
}

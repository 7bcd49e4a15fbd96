//! A list of calls and answers that only clauses read.
ghost use Rattle.std.specs.Prelude.{◌≡◌, List, [], ◌∷◌, option_map};
ghost use Rattle.std.specs.Borrow.{ftrue};
ghost use Rattle.folder_shelf.specs.Calls.{Call, call_of, call, looked, made, measured, read, held, written};
ghost use Rattle.folder_shelf.specs.Calls.{flushed, entered, asked_of_folder, taken, taken_shared};
ghost use Rattle.folder_shelf.specs.Calls.{streams_held};

use std::marker::{Model, PhantomData};
use std::rt::Files;

const LOOKED: u64 = 0;

const MADE: u64 = 1;

const MEASURED: u64 = 2;

const READ: u64 = 3;

const WRITTEN: u64 = 4;

const FLUSHED: u64 = 5;

const HELD: u64 = 6;

const ENTERED: u64 = 7;

const ASKED_OF_FOLDER: u64 = 8;

const TAKEN: u64 = 9;

const TAKEN_SHARED: u64 = 10;

const STREAMS_HELD: u64 = 11;

/// What a system was asked and what it answered, the newest first. No memory holds it.
#[derive(Drop)]
pub struct CallRecord {
    marker: PhantomData<u8>,
    pub ghost calls: { List Call },
}

impl Model for CallRecord {
    ghost also_owns = { λ _. ftrue };
}

// It owns nothing, so it may go to another thread.
unsafe impl Send for CallRecord {}

impl CallRecord {
    /// No call.
    pub(crate) fn new() -> CallRecord
        ensures { result.calls ≡ [] }
    {
        CallRecord {
            marker: PhantomData,
        }
    }

    /// No call. Only who has a runtime can have a record that is empty, so that none is lost for one.
    pub fn unasked<R: Files>(_rt: &R) -> CallRecord
        ensures { result.calls ≡ [] }
    {
        CallRecord::new()
    }

    // Adds a call on the file or folder of a path: its kind, and the numbers and bytes of its kind.
    pub(crate) fn note(&mut self, _numbers: &[u64], _path: &[u8], _bytes: &[u8])
        ensures { self.new.calls ≡ call_of _numbers.now _path.now _bytes.now ∷ self.old.calls }
    {}

    fn add(&mut self, path: &str, kind: u64, at: u64, count: u64, bytes: &[u8])
        ensures { self.new.calls ≡ call kind at count path.now bytes.now ∷ self.old.calls }
    {
        self.note(&[kind, at, count], path.as_bytes(), bytes);
    }

    /// It was looked for a file. Whether it was there, if that was told.
    pub(crate) fn looked(&mut self, path: &str, found: Option<bool>)
        ensures { self.new.calls ≡ looked path.now found ∷ self.old.calls }
    {
        match found {
            Some(there) => self.add(path, LOOKED, there as u64, 1, &[]),
            None => self.add(path, LOOKED, 0, 0, &[]),
        }
    }

    /// A file was to be made, and whether it was.
    pub(crate) fn made(&mut self, path: &str, done: bool)
        ensures { self.new.calls ≡ made path.now done ∷ self.old.calls }
    {
        self.add(path, MADE, 0, done as u64, &[]);
    }

    /// The size of a file was asked for, and what was told.
    pub(crate) fn measured(&mut self, path: &str, size: Option<u64>)
        ensures { self.new.calls ≡ measured path.now size ∷ self.old.calls }
    {
        match size {
            Some(size) => self.add(path, MEASURED, size, 1, &[]),
            None => self.add(path, MEASURED, 0, 0, &[]),
        }
    }

    /// Bytes were asked for. Whether they came, from where, and the bytes.
    pub(crate) fn read(&mut self, path: &str, done: bool, at: u64, bytes: &[u8])
        ensures { self.new.calls ≡ read path.now done at bytes.now ∷ self.old.calls }
    {
        self.add(path, READ, at, done as u64, bytes);
    }

    /// A file was to be held for changes, and whether it was.
    pub(crate) fn held(&mut self, path: &str, done: bool)
        ensures { self.new.calls ≡ held path.now done ∷ self.old.calls }
    {
        self.add(path, HELD, 0, done as u64, &[]);
    }

    /// Bytes were to be written. Where, how many of them the system took, and the bytes.
    pub(crate) fn written(&mut self, path: &str, at: u64, taken: usize, bytes: &[u8])
        ensures { self.new.calls ≡ written path.now at taken bytes.now ∷ self.old.calls }
    {
        self.add(path, WRITTEN, at, taken as u64, bytes);
    }

    /// A file was to be synced, and whether it was.
    pub(crate) fn flushed(&mut self, path: &str, done: bool)
        ensures { self.new.calls ≡ flushed path.now done ∷ self.old.calls }
    {
        self.add(path, FLUSHED, 0, done as u64, &[]);
    }

    /// Units are files of this folder from now on.
    pub(crate) fn entered(&mut self, path: &str)
        ensures { self.new.calls ≡ entered path.now ∷ self.old.calls }
    {
        self.add(path, ENTERED, 0, 0, &[]);
    }

    /// It was asked whether a path is that of a folder, and what was told.
    pub(crate) fn asked_of_folder(&mut self, path: &str, found: Option<bool>)
        ensures { self.new.calls ≡ asked_of_folder path.now found ∷ self.old.calls }
    {
        match found {
            Some(is) => self.add(path, ASKED_OF_FOLDER, is as u64, 1, &[]),
            None => self.add(path, ASKED_OF_FOLDER, 0, 0, &[]),
        }
    }

    /// The first so many bytes of a file were asked for, and came, if they did.
    pub(crate) fn taken(&mut self, path: &str, most: usize, bytes: Option<&[u8]>)
        ensures { self.new.calls
            ≡ taken path.now most (option_map (λ bytes. bytes.now) bytes.entry) ∷ self.old.calls }
    {
        match bytes {
            Some(bytes) => self.add(path, TAKEN, most as u64, 1, bytes),
            None => self.add(path, TAKEN, most as u64, 0, &[]),
        }
    }

    /// The same, as long as no run changed the file.
    pub(crate) fn taken_shared(&mut self, path: &str, most: usize, bytes: Option<&[u8]>)
        ensures { self.new.calls
            ≡ taken_shared path.now most (option_map (λ bytes. bytes.now) bytes.entry) ∷ self.old.calls }
    {
        match bytes {
            Some(bytes) => self.add(path, TAKEN_SHARED, most as u64, 1, bytes),
            None => self.add(path, TAKEN_SHARED, most as u64, 0, &[]),
        }
    }

    /// The numbers of the closed standard streams were to be taken, and whether they were.
    pub(crate) fn streams_held(&mut self, done: bool)
        ensures { self.new.calls ≡ streams_held done ∷ self.old.calls }
    {
        self.add("", STREAMS_HELD, 0, done as u64, &[]);
    }
}

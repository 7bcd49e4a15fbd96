//! The calls that change records.

ghost use Rattle.shelf_library.specs.Standing.{IsReady};
ghost use Rattle.shelf_library.specs.Calls.{IsReadyToWrite, AddsHeld, ReplacesHeld, RemovesHeld};

use crate::shelf_file::ShelfFile;
use indexed_file::{Added, Replaced};
use io_state::{Fault, Key};
use page_alloc::FilePages;
use page_store::Shelf;

impl ShelfFile {
    /// Adds a record, unless its value of a key that has to be unique is there. At Full nothing is
    /// changed; after any other fault the file is broken.
    pub fn add<S: Shelf>(&mut self, shelf: &mut S, bytes: &[u8]) -> Result<Added, Fault>
        requires { IsReadyToWrite self.old (S.state shelf.old) bytes.now }
        ensures { AddsHeld S.state S.fault_count bytes.now self.old self.new shelf.old shelf.new result }
    {
        let mut pages = FilePages {
            file: &mut self.pages,
            shelf,
        };
        file_changes::add(&mut self.file, &mut pages, bytes)
    }

    /// Puts a record in the place of that of its prime value, unless a unique alternate value is
    /// that of another record. At Full nothing is changed; after any other fault the file is
    /// broken.
    pub fn replace<S: Shelf>(&mut self, shelf: &mut S, bytes: &[u8]) -> Result<Replaced, Fault>
        requires { IsReadyToWrite self.old (S.state shelf.old) bytes.now }
        ensures { ReplacesHeld S.state S.fault_count bytes.now self.old self.new shelf.old shelf.new result }
    {
        let mut pages = FilePages {
            file: &mut self.pages,
            shelf,
        };
        file_changes::replace(&mut self.file, &mut pages, bytes)
    }

    /// Takes out the record of a prime value, and tells whether there was one. After a fault the
    /// file is broken.
    pub fn remove<S: Shelf>(&mut self, shelf: &mut S, key: &Key) -> Result<bool, Fault>
        requires ready { IsReady self.old (S.state shelf.old) }
        ensures { RemovesHeld S.state S.fault_count key.now.items
            self.old self.new shelf.old shelf.new result }
    {
        let mut pages = FilePages {
            file: &mut self.pages,
            shelf,
        };
        file_changes::remove(&mut self.file, &mut pages, key)
    }
}

//! The calls that read records.

ghost use Rattle.shelf_library.specs.Standing.{IsReady};
ghost use Rattle.shelf_library.specs.Calls.{IsReadyToRead, IsReadyToSeek, FindsByValueHeld, FindsNextHeld};
ghost use Rattle.shelf_library.specs.Calls.{SeeksHeld, SeeksHighestHeld, ReadsByKeyHeld, ReadsToSeekHeld};

use crate::shelf_file::ShelfFile;
use indexed_file::Found;
use io_state::{Fault, Key, Position, Relation};
use page_alloc::FilePages;
use page_store::Shelf;

impl ShelfFile {
    /// The first record whose key k has this value. It is read into the front of the area.
    pub fn by_key<S: Shelf>(
        &mut self,
        shelf: &mut S,
        k: u8,
        key: &Key,
        area: &mut [u8],
    ) -> Result<Option<Found>, Fault>
        requires { IsReadyToRead self.old (S.state shelf.old) k area.old }
        ensures finds { FindsByValueHeld S.state k key.now.items self.old shelf.old shelf.new
            area.old area.new result }
        ensures reads { ReadsByKeyHeld S.state S.fault_count k self.old self.new shelf.old shelf.new result }
    {
        let mut pages = FilePages {
            file: &mut self.pages,
            shelf,
        };
        self.file.by_key(&mut pages, k, key, area)
    }

    /// The first record that the position admits, by key k. It is read into the front of the area.
    pub fn next<S: Shelf>(
        &mut self,
        shelf: &mut S,
        k: u8,
        position: &Position,
        area: &mut [u8],
    ) -> Result<Option<Found>, Fault>
        requires { IsReadyToRead self.old (S.state shelf.old) k area.old }
        ensures finds { FindsNextHeld S.state k position.now self.old shelf.old shelf.new
            area.old area.new result }
        ensures reads { ReadsByKeyHeld S.state S.fault_count k self.old self.new shelf.old shelf.new result }
    {
        let mut pages = FilePages {
            file: &mut self.pages,
            shelf,
        };
        self.file.next(&mut pages, k, position, area)
    }

    /// The full value of key k of the first record whose value begins so related to the operand.
    pub fn seek<S: Shelf>(
        &mut self,
        shelf: &mut S,
        k: u8,
        operand: &[u8],
        relation: Relation,
    ) -> Result<Option<Key>, Fault>
        requires { IsReadyToSeek self.old (S.state shelf.old) k }
        ensures found { SeeksHeld S.state k relation operand.now self.old shelf.old shelf.new result }
        ensures reads { ReadsToSeekHeld S.state S.fault_count k self.old self.new shelf.old shelf.new result }
    {
        let mut pages = FilePages {
            file: &mut self.pages,
            shelf,
        };
        self.file.seek(&mut pages, k, operand, relation)
    }

    /// The greatest prime value.
    pub fn highest<S: Shelf>(&mut self, shelf: &mut S) -> Result<Option<Key>, Fault>
        requires ready { IsReady self.old (S.state shelf.old) }
        ensures found { SeeksHighestHeld S.state self.old shelf.old shelf.new result }
        ensures reads { ReadsToSeekHeld S.state S.fault_count 0 self.old self.new shelf.old shelf.new result }
    {
        let mut pages = FilePages {
            file: &mut self.pages,
            shelf,
        };
        self.file.highest(&mut pages)
    }
}

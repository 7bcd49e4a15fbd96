//! The header page and the gate, which are not asked through the frames.
ghost use Rattle.std.specs.Prelude.{OnOk};
ghost use Rattle.page_store.specs.Gate.{AllOpen, SameOrRefused};
ghost use Rattle.page_store.specs.ShelfState.{WhereHonest};
ghost use Rattle.page_cache.specs.Cached.{IsOver, IsOverHeader, store_of};
ghost use Rattle.page_cache.specs.HeaderCalls.{OpensGate};
ghost use Rattle.page_cache.specs.HeaderChanges.{ReadsHeader, WritesHeader, FinishesChange};
ghost use Rattle.page_cache.specs.Calls.{ShowsSame};

use crate::cache::Cache;
use io_state::Fault;
use page_store::Shelf;
use pages::PAGE_SIZE;

impl Cache {
    /// Reads the header page, past the frames.
    pub fn read_header<S: Shelf>(
        &self,
        shelf: &mut S,
        page: &mut [u8; PAGE_SIZE],
    ) -> Result<(), Fault>
        requires { IsOverHeader self.now (S.state shelf.old) }
        ensures { ReadsHeader S.state S.fault_count self.now page.new shelf.old shelf.new result }
    {
        self.store.read_page(shelf, 0, page)
    }

    /// Writes the header page, past the frames, but for its first byte.
    pub fn write_header<S: Shelf>(
        &mut self,
        shelf: &mut S,
        page: &[u8; PAGE_SIZE],
    ) -> Result<(), Fault>
        requires { IsOverHeader self.old (S.state shelf.old) }
        ensures { WritesHeader S.state S.fault_count page.now self.old self.new shelf.old shelf.new result }
    {
        self.store.write_page(shelf, 0, page)
    }

    /// Opens the gate, before the first change. A gate that is open already is synced, and not
    /// written. After a fault the cache is as it was, and the call may be made again.
    pub fn begin_change<S: Shelf>(&self, shelf: &mut S) -> Result<(), Fault>
        requires over { IsOver self.now (S.state shelf.old) }
        ensures open { OnOk result (WhereHonest (S.state shelf.new) (store_of self.now).unit AllOpen) }
        ensures same { ShowsSame self.now self.now (S.state shelf.old) (S.state shelf.new) }
        ensures opens { OpensGate S.state S.fault_count (store_of self.now).unit SameOrRefused shelf.old
            shelf.new result }
    {
        self.store.begin_change(shelf)
    }

    /// Closes the gate after the last change.
    pub fn finish<S: Shelf>(&self, shelf: &mut S) -> Result<(), Fault>
        requires over { IsOver self.now (S.state shelf.old) }
        ensures { FinishesChange S.state S.fault_count self.now shelf.old shelf.new result }
    {
        self.store.finish(shelf)
    }
}

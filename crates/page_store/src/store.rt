//! The pages of one unit of a shelf.
ghost use Rattle.std.specs.Prelude.{◌≡◌, ◌+◌, ◌-◌, ◌/◌, ◌^◌, ◌<◌, ◌≤◌, min, OnOk};
ghost use Rattle.page_store.specs.DeviceFile.{IsWithin, IsThere, IsNoShorter};
ghost use Rattle.page_store.specs.ShelfState.{HasUnit};
ghost use Rattle.page_store.specs.Moments.{IsQuiet};
ghost use Rattle.page_store.specs.Pages.{ReachesPage, HoldsPages, offset_of};
ghost use Rattle.page_store.specs.ShelfCalls.{HasUnitWith, GoesFromHonest, ReopensGate};
ghost use Rattle.page_store.specs.StoreCalls.{MakesStore, OpensStore, ClosesUnit, ReadsPage, ChangesPage};
ghost use Rattle.page_store.specs.StoreCalls.{WritesPage};

use crate::gate::{self, CLOSED};
use crate::shelf::Shelf;
use io_state::Fault;
use pages::PAGE_SIZE;

/// The number of bytes of a page.
pub const PAGE: u64 = PAGE_SIZE as u64;

/// The pages of one unit of a shelf, and its gate.
#[derive(Clone, Copy, Debug)]
pub struct Store {
    /// The unit of the shelf.
    pub unit: usize,
    /// How many whole pages the file has, or 4,294,967,295 where it has more.
    pub pages: u32,
}

impl Store {
    /// Makes the unit's file, or opens the gate of the one that is there, to be written anew.
    pub fn make<S: Shelf>(shelf: &mut S, unit: usize) -> Result<Store, Fault>
        requires unit { HasUnit (S.state shelf.old) unit }
        ensures { MakesStore S.state S.fault_count unit shelf.old shelf.new result }
    {
        if !shelf.exists(unit)? {
            gate::start(shelf, unit)?;
            return Ok(Store { unit, pages: 0 });
        }
        let size = shelf.size(unit)?;
        if size == 0 {
            gate::begin(shelf, unit)?;
        } else {
            gate::reopen(shelf, unit)?;
        }
        Ok(Store {
            unit,
            pages: whole_pages(size),
        })
    }

    /// The store of a file that is there. Nothing is written.
    pub fn open<S: Shelf>(shelf: &mut S, unit: usize) -> Result<Store, Fault>
        requires { HasUnitWith (S.state shelf.old) unit IsThere }
        ensures { OpensStore S.state S.fault_count unit shelf.old shelf.new result }
    {
        let size = shelf.size(unit)?;
        Ok(Store {
            unit,
            pages: whole_pages(size),
        })
    }

    /// Opens the gate before the first change of a file, so that it may be changed. A gate that is
    /// open already is synced, and not written. After a fault the call may be made again.
    pub fn begin_change<S: Shelf>(&self, shelf: &mut S) -> Result<(), Fault>
        requires { HasUnitWith (S.state shelf.old) self.now.unit (IsWithin 1) }
        ensures { ReopensGate S.state S.fault_count self.now.unit shelf.old shelf.new result }
    {
        gate::reopen(shelf, self.unit)
    }

    /// Closes the gate after the last change.
    pub fn finish<S: Shelf>(&self, shelf: &mut S) -> Result<(), Fault>
        requires { HasUnitWith (S.state shelf.old) self.now.unit IsThere }
        ensures { ClosesUnit S.state S.fault_count self.now.unit shelf.old shelf.new result }
    {
        shelf.sync(self.unit)?;
        gate::write(shelf, self.unit, CLOSED)
    }

    /// Reads page `n`.
    pub fn read_page<S: Shelf>(
        &self,
        shelf: &mut S,
        n: u32,
        page: &mut [u8; PAGE_SIZE],
    ) -> Result<(), Fault>
        requires page { n < self.now.pages }
        requires stored { HasUnitWith (S.state shelf.old) self.now.unit (HoldsPages self.now.pages) }
        ensures { ReadsPage S.state S.fault_count self.now.unit n page.new shelf.old shelf.new result }
    {
        shelf.read_at(self.unit, n as u64 * PAGE, page)
    }

    /// Writes page `n`, but for the first byte of the file. A page number equal to the number of pages
    /// adds one.
    pub fn write_page<S: Shelf>(
        &mut self,
        shelf: &mut S,
        n: u32,
        page: &[u8; PAGE_SIZE],
    ) -> Result<(), Fault>
        requires page { (n ≤ self.old.pages) × (n < 2 ^ 32 - 1) }
        requires stored { HasUnitWith (S.state shelf.old) self.old.unit (HoldsPages self.old.pages) }
        ensures { WritesPage S.state S.fault_count n page.now self.old self.new
            shelf.old shelf.new result }
    {
        write_at_page(shelf, self.unit, n, page)?;
        self.pages = self.pages.max(n + 1);
        Ok(())
    }
}

// Writes page n in its place, but for the first byte of the file.
fn write_at_page<S: Shelf>(
    shelf: &mut S,
    unit: usize,
    n: u32,
    page: &[u8; PAGE_SIZE],
) -> Result<(), Fault>
    requires { HasUnitWith (S.state shelf.old) unit (IsWithin (offset_of n)) }
    ensures changes { ChangesPage S.state S.fault_count unit n page.now shelf.old shelf.new result }
    ensures reached { OnOk result
        (GoesFromHonest unit (S.state shelf.old) (S.state shelf.new) (ReachesPage n)) }
    ensures longer { GoesFromHonest unit (S.state shelf.old) (S.state shelf.new) IsNoShorter }
    ensures quiet { IsQuiet unit (S.state shelf.old) (S.state shelf.new) }
{
    if n == 0 {
        shelf.write_at(unit, 1, &page[1..])
    } else {
        shelf.write_at(unit, n as u64 * PAGE, page)
    }
}

fn whole_pages(size: u64) -> u32
    ensures { result ≡ min (size / 4096) (2 ^ 32 - 1) }
{
    (size / PAGE).min(u32::MAX as u64) as u32
}

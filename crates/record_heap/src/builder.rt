//! A heap that is built from records, page by page.

ghost use Rattle.std.specs.Prelude.{◌≤◌};
ghost use Rattle.record_heap.specs.Slot.{room};
ghost use Rattle.record_heap.specs.Slots.{AreLinkedFrom};

use crate::heap::Heap;
use crate::shape::{Place, SlotShape};
use crate::slots::{new_page, put_used};
use io_state::Fault;
use pages::{PAGE_SIZE, Pages, store};

/// A heap that is being built: its first page in the chain, which is the last one that was taken,
/// and how many slots of it are in use. The bytes of this page are not written yet.
#[derive(Drop)]
pub struct HeapBuilder {
    pub(crate) shape: SlotShape,
    pub(crate) first: u32,
    pub(crate) used: usize,
    pub(crate) page: [u8; PAGE_SIZE],
    ghost within: { used ≤ room shape },
    ghost linked: { AreLinkedFrom shape first used page },
}

impl HeapBuilder {
    ghost use Rattle.std.specs.Prelude.{◌≡◌, ◌<◌, ◌++◌, [], OnOk};
    ghost use Rattle.pages.specs.PageMap.{PageMap};
    ghost use Rattle.record_heap.specs.Slot.{FitsSlot};
    ghost use Rattle.record_heap.specs.Chain.{no_slots};
    ghost use Rattle.record_heap.specs.Calls.{MayChange, MayFill};
    ghost use Rattle.record_heap.specs.Filling.{IsFilling, built_shape, next_slot, PushesRecord};
    ghost use Rattle.record_heap.specs.Filling.{PutsRecord, MakesSlot, WritesLastPage, FinishesHeap};

    /// A heap without records, of which no page is taken yet.
    pub fn new(shape: SlotShape) -> HeapBuilder
        ensures shape { built_shape result ≡ shape }
        ensures begun { (pages : PageMap) → IsFilling result pages no_slots [] [] }
    {
        HeapBuilder {
            shape,
            first: 0,
            used: shape.room(),
            page: [0; PAGE_SIZE],
        }
    }

    /// The shape of its slots.
    pub fn shape(&self) -> SlotShape
        ensures { result ≡ built_shape self.now }
    {
        self.shape
    }

    /// Puts stamps and a record into the slot behind those in use, and answers its place. Where the
    /// page is full, it is written, and a new one is taken. After a fault nothing is known of the
    /// heap.
    ///
    /// Device; Full where no page is left.
    pub fn push<P: Pages>(
        &mut self,
        pages: &mut P,
        stamps: &[u8],
        record: &[u8],
    ) -> Result<Place, Fault>
        requires { MayFill P.shown pages.old (built_shape self.old) stamps.now «record».now }
        ensures { PushesRecord P.shown pages.old pages.new self.old self.new
            (stamps.now ++ «record».now) result }
    {
        self.make_room(pages)?;
        Ok(self.put(stamps, record))
    }

    /// Writes the last page, and answers the heap. After a fault nothing is known of it.
    ///
    /// Device.
    pub fn finish<P: Pages>(self, pages: &mut P) -> Result<Heap, Fault>
        requires { MayChange P.shown pages.old }
        ensures { FinishesHeap P.shown pages.old pages.new self result }
    {
        self.write_page(pages)?;
        Ok(Heap::stored(self.shape, self.first, self.first_free()))
    }

    /// The slot behind those in use, in page 0 where there is none.
    fn first_free(&self) -> Place
        ensures { result ≡ next_slot self.now.shape self.now.first self.now.used }
    {
        if self.used < self.shape.room() {
            Place {
                page: self.first,
                slot: self.used as u16,
            }
        } else {
            Place { page: 0, slot: 0 }
        }
    }

    /// Puts stamps and a record into the slot behind those in use, and answers its place.
    fn put(&mut self, stamps: &[u8], record: &[u8]) -> Place
        requires room { self.old.used < room self.old.shape }
        requires fits { FitsSlot self.old.shape stamps.now «record».now }
        ensures { PutsRecord self.old self.new (stamps.now ++ «record».now) result }
    {
        let slot = self.used;
        put_used(&mut self.page, self.shape, slot, stamps, record);
        self.used = slot + 1;
        Place {
            page: self.first,
            slot: slot as u16,
        }
    }

    /// Takes a new page where the one in memory is full.
    fn make_room<P: Pages>(&mut self, pages: &mut P) -> Result<(), Fault>
        requires { MayChange P.shown pages.old }
        ensures makes { MakesSlot P.shown pages.old pages.new self.old self.new result }
        ensures room { OnOk result (self.new.used < room self.new.shape) }
    {
        if self.used < self.shape.room() {
            return Ok(());
        }
        self.turn_page(pages)
    }

    /// Writes the page in memory, which is full, and takes a new one.
    fn turn_page<P: Pages>(&mut self, pages: &mut P) -> Result<(), Fault>
        requires pages { MayChange P.shown pages.old }
        requires full { room self.old.shape ≤ self.old.used }
        ensures makes { MakesSlot P.shown pages.old pages.new self.old self.new result }
        ensures room { OnOk result (self.new.used < room self.new.shape) }
    {
        self.write_page(pages)?;
        let n = pages.take()?;
        new_page(&mut self.page, self.shape, n, self.first);
        self.first = n;
        self.used = 0;
        Ok(())
    }

    /// Writes the page in memory, if there is one.
    fn write_page<P: Pages>(&self, pages: &mut P) -> Result<(), Fault>
        requires { MayChange P.shown pages.old }
        ensures { WritesLastPage P.shown pages.old pages.new self.now result }
    {
        if self.first == 0 {
            return Ok(());
        }
        store(pages, self.first, &self.page)
    }
}

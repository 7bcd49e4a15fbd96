//! The heap.

use crate::calls::{fill, link, read_record, read_used, refill};
use crate::shape::{Place, SlotShape};
use crate::slots::new_page;
use io_state::Fault;
use pages::{PAGE_SIZE, Pages, store};

/// Records, each with its stamps before it, in slots. `first` is the first page of the chain of
/// heap pages, and `free` the first free slot; page 0 is none.
#[derive(Clone, Copy, Debug, PartialEq, Eq)]
pub struct Heap {
    pub(crate) shape: SlotShape,
    pub(crate) first: u32,
    pub(crate) free: Place,
}

impl Heap {
    ghost use Rattle.std.specs.Prelude.{◌≡◌, ◌≤◌, ◌+◌, ◌++◌, [], ◌∷◌, None, Some, length};
    ghost use Rattle.pages.specs.PageMap.{PageMap};
    ghost use Rattle.record_heap.specs.Chain.{no_slots};
    ghost use Rattle.record_heap.specs.Calls.{MayChange, MayFill, ReadsStamped, ReadsUnstamped};
    ghost use Rattle.record_heap.specs.Standing.{HeapStands, heap_with};
    ghost use Rattle.record_heap.specs.Standing.{slot_shape, first_heap_page, first_free_slot};
    ghost use Rattle.record_heap.specs.Order.{AddsToHeap, SetsSlot, MakesFreeSlot};
    ghost use Rattle.record_heap.specs.Found.{Got, GotRecord, MayGrow};

    /// A heap without records and without pages.
    pub fn new(shape: SlotShape) -> Heap
        ensures shape { slot_shape result ≡ shape }
        ensures empty { (pages : PageMap) → HeapStands result pages no_slots [] }
    {
        Heap {
            shape,
            first: 0,
            free: Place { page: 0, slot: 0 },
        }
    }

    /// The heap whose chain of heap pages begins at `first`, and of whose free slots `free` is the first.
    pub fn stored(shape: SlotShape, first: u32, free: Place) -> Heap
        ensures { result ≡ heap_with shape first free }
    {
        Heap { shape, first, free }
    }

    /// The shape of its slots.
    pub fn shape(&self) -> SlotShape
        ensures { result ≡ slot_shape self.now }
    {
        self.shape
    }

    /// The first page of the chain of heap pages, 0 where there is none.
    pub fn first_page(&self) -> u32
        ensures { result ≡ first_heap_page self.now }
    {
        self.first
    }

    /// The first free slot, in page 0 where there is none.
    pub fn first_free(&self) -> Place
        ensures { result ≡ first_free_slot self.now }
    {
        self.free
    }

    /// Reads the stamps and the record at a place in use to the front of `to`, and answers how many
    /// bytes they are. The rest of `to` stays; at a fault it all does.
    ///
    /// Device; Damage where the place has no record.
    pub fn get<P: Pages>(&self, pages: &mut P, place: Place, to: &mut [u8]) -> Result<usize, Fault>
        requires ready { P.shown.IsReady pages.old }
        requires room { (slot_shape self.now).stamps + (slot_shape self.now).greatest ≤ length to.old }
        ensures { ReadsStamped P.shown pages.old pages.new (slot_shape self.now) to.old to.new result
            (Got self.now place) }
    {
        read_used(pages, self.shape, place, to)
    }

    /// Reads the record at a place in use to the front of `to`, without its stamps, and answers its
    /// length. The rest of `to` stays; at a fault it all does.
    ///
    /// Device; Damage where the place has no record.
    pub fn get_record<P: Pages>(
        &self,
        pages: &mut P,
        place: Place,
        to: &mut [u8],
    ) -> Result<usize, Fault>
        requires ready { P.shown.IsReady pages.old }
        requires room { (slot_shape self.now).greatest ≤ length to.old }
        ensures { ReadsUnstamped P.shown pages.old pages.new (slot_shape self.now) to.old to.new result
            (GotRecord self.now place) }
    {
        let length = read_record(pages, self.shape, place, to);
        pages.demote(place.page);
        length
    }

    /// Puts stamps and a record into the slot that was freed last, and answers its place. Where no
    /// slot is free, a new page is taken for it.
    ///
    /// Device; Full where no slot is free and no page is left; Damage where a page is none of a heap.
    pub fn add<P: Pages>(
        &mut self,
        pages: &mut P,
        stamps: &[u8],
        record: &[u8],
    ) -> Result<Place, Fault>
        requires { MayFill P.shown pages.old (slot_shape self.old) stamps.now «record».now }
        ensures { AddsToHeap P.shown pages.old pages.new self.old self.new
            (stamps.now ++ «record».now) result }
    {
        self.make_room(pages)?;
        let place = self.free;
        self.free = refill(pages, self.shape, place, stamps, record)?;
        Ok(place)
    }

    /// Puts other stamps and another record at a place in use. No page is taken.
    ///
    /// Device; Damage where the page is none of a heap.
    pub fn set<P: Pages>(
        &self,
        pages: &mut P,
        place: Place,
        stamps: &[u8],
        record: &[u8],
    ) -> Result<(), Fault>
        requires { MayFill P.shown pages.old (slot_shape self.now) stamps.now «record».now }
        ensures { SetsSlot P.shown pages.old pages.new self.now self.now place
            (Some (stamps.now ++ «record».now)) [] result }
    {
        fill(pages, self.shape, place, stamps, record)?;
        Ok(())
    }

    /// Gives a slot in use back. It is the next one that is taken; its page stays the heap's.
    ///
    /// Device; Damage where the page is none of a heap.
    pub fn free<P: Pages>(&mut self, pages: &mut P, place: Place) -> Result<(), Fault>
        requires { MayChange P.shown pages.old }
        ensures { SetsSlot P.shown pages.old pages.new self.old self.new place None (place ∷ []) result }
    {
        link(pages, self.shape, place, self.free)?;
        self.free = place;
        Ok(())
    }

    /// Takes a new page where no slot is free.
    fn make_room<P: Pages>(&mut self, pages: &mut P) -> Result<(), Fault>
        requires { MayChange P.shown pages.old }
        ensures { MakesFreeSlot P.shown pages.old pages.new self.old self.new result }
    {
        if self.free.page != 0 {
            return Ok(());
        }
        self.grow(pages)
    }

    /// Takes a new page, which goes to the front of the chain with all its slots free, in rising order.
    fn grow<P: Pages>(&mut self, pages: &mut P) -> Result<(), Fault>
        requires { MayGrow P.shown pages.old self.old }
        ensures { MakesFreeSlot P.shown pages.old pages.new self.old self.new result }
    {
        let n = pages.take()?;
        let mut page = [0; PAGE_SIZE];
        new_page(&mut page, self.shape, n, self.first);
        store(pages, n, &page)?;
        self.first = n;
        self.free = Place { page: n, slot: 0 };
        Ok(())
    }
}

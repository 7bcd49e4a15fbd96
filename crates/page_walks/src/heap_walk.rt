//! The heap over the pages of a file.

ghost use Rattle.std.specs.Prelude.{◌≡◌, false, ◌<◌, ◌≤◌, IfErr, IfOk, OnOk, length};
ghost use Rattle.record_heap.specs.Slot.{room, size};
ghost use Rattle.record_heap.specs.Calls.{IsHeapAt};
ghost use Rattle.pages.specs.PageList.{pages_in};
ghost use Rattle.pages.specs.Source.{KeepsItsPages, OfItsPages};
ghost use Rattle.pages.specs.Refused.{RefusesRightly};
ghost use Rattle.pages.specs.Told.{TellsOfFault};
ghost use Rattle.record_heap.specs.Faults.{AreOwnPages, IsChainFault, IsHeapFault, IsSlotFault};
ghost use Rattle.record_heap.specs.Faults.{TellsOfChain, TellsOfPage, slot_place};
ghost use Rattle.page_walks.specs.SlotFaults.{IsLinkFault, IsWrongOfPage, TellsOfOwn, TellsOfSlot};
ghost use Rattle.record_heap.specs.Walk.{WalksChain, WalksHeap, SlotsKept, ChainAhead, HeapAhead};
ghost use Rattle.record_heap.specs.Walk.{IsFreeOrUsed, IsHeapPageAt, OwnStands};
ghost use Rattle.page_walks.specs.SlotWalk.{EmptiesChain, AreMarked, PageMarked, SlotMarked, TakesMark};
ghost use Rattle.page_walks.specs.SlotWalk.{FreeSlotsAhead, IsMarkedFree, OwnAhead, SlotsAhead};
ghost use Rattle.page_walks.specs.SlotMarks.{HasMark, SameSlots, marked_slot};

use crate::slot_marks::SlotMarks;
use byteorder::{BigEndian, ByteOrder};
use pages::{Damage, FaultPlace, PAGE_SIZE, PageSource, WalkFault, mark};
use record_heap::slot::{behind, is_used};
use record_heap::slots::{FIRST_SLOT, NEXT, NEXT_END, slot, start_of};
use record_heap::{Heap, Place, SlotShape};
use std::alloc::Global;

/// The place of a slot.
fn place_of(slot: Place) -> FaultPlace
    ensures { result ≡ slot_place slot }
{
    FaultPlace::Entry {
        page: slot.page,
        entry: u32::from(slot.slot),
    }
}

/// The page behind a heap page, to which another page leads.
fn page_behind<P: PageSource>(pages: &mut P, from: u32, n: u32) -> Result<u32, WalkFault>
    ensures leads { OfItsPages P.has pages.new
        (λ list. IfOk result (λ next. IsHeapAt (pages_in list) n next)) }
    ensures refused { OfItsPages P.has pages.new
        (λ list. IfErr result (RefusesRightly (IsHeapPageAt (pages_in list) n))) }
    ensures told { OfItsPages P.has pages.new (λ list. IfErr result (TellsOfPage list from n)) }
    ensures before { KeepsItsPages P.has pages.old pages.new }
{
    let Some(page) = pages.page(n) else {
        return Err(WalkFault::of_page(Damage::Heap, from));
    };
    let next = BigEndian::read_u32(&page[NEXT..NEXT_END]);
    if &page[..FIRST_SLOT] != &start_of(next)[..] {
        return Err(WalkFault::of_page(Damage::Heap, n));
    }
    Ok(next)
}

/// Walks the chain of heap pages, and marks them.
fn walk_pages<P: PageSource>(
    alloc: Global,
    pages: &mut P,
    first: u32,
    reached: &mut [bool],
) -> Result<Vec<u32>, WalkFault>
    ensures walked { OfItsPages P.has pages.new
        (λ list. WalksChain list first reached.old reached.new result) }
    ensures refused { OfItsPages P.has pages.new
        (λ list. IfErr result (RefusesRightly (ChainAhead (pages_in list) first reached.old))) }
    ensures told { OfItsPages P.has pages.new
        (λ list. IfErr result (TellsOfFault (IsChainFault list first reached.old))) }
    ensures before { KeepsItsPages P.has pages.old pages.new }
{
    let mut own = Vec::new(alloc);
    let mut from = 0;
    let mut at = first;
    for _ in 0..reached.len() {
        if at == 0 {
            return Ok(own);
        }
        let next = page_behind(pages, from, at)?;
        mark(reached, at)?;
        match own.push(at) {
            Err(_) => return Err(WalkFault::Memory),
            Ok(()) => {
                from = at;
                at = next;
            }
        }
    }
    if at != 0 {
        return Err(WalkFault::of_page(Damage::Heap, from));
    }
    Ok(own)
}

/// Marks a slot where it is free; else it is in use.
fn mark_slot(
    bytes: &[u8],
    shape: SlotShape,
    place: Place,
    marks: &mut SlotMarks,
) -> Result<(), WalkFault>
    requires size { size shape ≤ length bytes.now }
    ensures marked { OnOk result (SlotMarked shape bytes.now place marks.old marks.new) }
    ensures refused { IfErr result (RefusesRightly (HasMark marks.old place × IsFreeOrUsed shape bytes.now)) }
    ensures told { IfErr result (λ fault. fault ≡ WalkFault.At Damage.Heap (slot_place place)) }
    ensures same { SameSlots marks.old marks.new }
{
    match behind(bytes) {
        Some(_) => {
            if !marks.set(place, true) {
                return Err(WalkFault::At(Damage::Heap, place_of(place)));
            }
            Ok(())
        }
        None => {
            if !is_used(bytes, shape) {
                return Err(WalkFault::At(Damage::Heap, place_of(place)));
            }
            Ok(())
        }
    }
}

/// Marks the free slots of a page; each other slot of it is in use.
fn mark_page(
    page: &[u8; PAGE_SIZE],
    shape: SlotShape,
    n: u32,
    marks: &mut SlotMarks,
) -> Result<(), WalkFault>
    ensures marked { OnOk result (PageMarked shape page.now n (room shape) marks.old marks.new) }
    ensures refused { IfErr result (RefusesRightly (SlotsAhead shape page.now n (room shape) marks.old)) }
    ensures told { IfErr result (TellsOfChain (IsWrongOfPage shape page.now n marks.old)) }
    ensures same { SameSlots marks.old marks.new }
{
    let room = shape.room();
    for i in 0..room {
        let place = Place {
            page: n,
            slot: i as u16,
        };
        mark_slot(slot(page, shape, i), shape, place, marks)?;
    }
    Ok(())
}

/// Marks the free slots of these pages; each other slot of them is in use.
fn mark_free<P: PageSource>(
    pages: &mut P,
    shape: SlotShape,
    own: &[u32],
    marks: &mut SlotMarks,
) -> Result<(), WalkFault>
    requires none { (p : Place) → marked_slot marks.old p ≡ false }
    ensures marked { OfItsPages P.has pages.new
        (λ list. OnOk result (AreMarked shape (pages_in list) own.now marks.new)) }
    ensures refused { OfItsPages P.has pages.new
        (λ list. IfErr result (RefusesRightly (OwnAhead shape list own.now marks.old))) }
    ensures told { OfItsPages P.has pages.new
        (λ list. IfErr result (TellsOfOwn shape list own.now marks.old)) }
    ensures same { SameSlots marks.old marks.new }
    ensures before { KeepsItsPages P.has pages.old pages.new }
{
    for &n in own {
        let Some(page) = pages.page(n) else {
            return Err(WalkFault::of_page(Damage::Heap, n));
        };
        mark_page(&page, shape, n, marks)?;
    }
    Ok(())
}

/// Takes the mark of a free slot, to which another place leads, and answers the place of the one behind it.
fn take_mark<P: PageSource>(
    pages: &mut P,
    shape: SlotShape,
    from: FaultPlace,
    at: Place,
    marks: &mut SlotMarks,
) -> Result<Place, WalkFault>
    ensures taken { OfItsPages P.has pages.new
        (λ list. IfOk result (λ next. TakesMark shape (pages_in list) at next marks.old marks.new)) }
    ensures refused { OfItsPages P.has pages.new
        (λ list. IfErr result (RefusesRightly (IsMarkedFree shape list marks.old at))) }
    ensures told { OfItsPages P.has pages.new
        (λ list. IfErr result (TellsOfSlot shape list marks.old from at)) }
    ensures same { SameSlots marks.old marks.new }
    ensures before { KeepsItsPages P.has pages.old pages.new }
{
    if at.slot as usize >= shape.room() {
        return Err(WalkFault::At(Damage::Heap, from));
    }
    let Some(page) = pages.page(at.page) else {
        return Err(WalkFault::At(Damage::Heap, from));
    };
    if !marks.has(at) || !marks.set(at, false) {
        return Err(WalkFault::At(Damage::Heap, from));
    }
    match behind(slot(&page, shape, at.slot as usize)) {
        None => Err(WalkFault::At(Damage::Heap, place_of(at))),
        Some(next) => Ok(next),
    }
}

/// Walks the chain of free slots, and takes their marks.
fn walk_slots<P: PageSource>(
    pages: &mut P,
    shape: SlotShape,
    first: Place,
    marks: &mut SlotMarks,
) -> Result<(), WalkFault>
    ensures emptied { OfItsPages P.has pages.new
        (λ list. OnOk result (EmptiesChain shape (pages_in list) first marks.old marks.new)) }
    ensures refused { OfItsPages P.has pages.new (λ list. IfErr result
        (RefusesRightly (FreeSlotsAhead shape list first marks.old.slots marks.old))) }
    ensures told { OfItsPages P.has pages.new
        (λ list. IfErr result (TellsOfChain (IsLinkFault shape list first marks.old))) }
    ensures same { SameSlots marks.old marks.new }
    ensures before { KeepsItsPages P.has pages.old pages.new }
{
    let mut from = FaultPlace::Page(0);
    let mut at = first;
    for _ in 0..marks.slots {
        if at.page == 0 {
            return Ok(());
        }
        let next = take_mark(pages, shape, from, at, marks)?;
        from = place_of(at);
        at = next;
    }
    if at.page != 0 {
        return Err(WalkFault::At(Damage::Heap, from));
    }
    Ok(())
}

/// Finds each slot of these pages in use, or once in the chain of free slots. They are of a file of
/// `count` pages.
fn walk_own<P: PageSource>(
    alloc: Global,
    pages: &mut P,
    count: usize,
    heap: &Heap,
    own: &[u32],
) -> Result<(), WalkFault>
    ensures kept { OfItsPages P.has pages.new
        (λ list. OnOk result (SlotsKept heap.now (pages_in list) own.now)) }
    ensures refused { OfItsPages P.has pages.new
        (λ list. IfErr result (RefusesRightly (OwnStands heap.now list own.now))) }
    ensures told { OfItsPages P.has pages.new (λ list. IfErr result (λ fault. AreOwnPages list own.now
        → TellsOfChain (IsSlotFault heap.now list own.now) fault)) }
    ensures before { KeepsItsPages P.has pages.old pages.new }
{
    let shape = heap.shape();
    let room = shape.room() as u16;
    let mut marks = SlotMarks::none(alloc, count, own, room)?;
    mark_free(pages, shape, own, &mut marks)?;
    walk_slots(pages, shape, heap.first_free(), &mut marks)?;
    if marks.are_none() {
        return Ok(());
    }
    match marks.first() {
        Some(slot) => Err(WalkFault::At(Damage::Heap, place_of(slot))),
        None => Ok(()),
    }
}

/// Walks the heap over the pages of a file, of which there are as many as there are marks. Answers
/// its own pages in the order of their chain, and marks them as reached; each slot of them is in use,
/// or stands once in the chain of free slots.
///
/// Memory; Shared where a heap page was reached before; Heap where the pages are no such heap: at
/// a page or slot that is none, at a free slot that nothing leads to, or at the page or slot that
/// leads on wrongly, which is page 0 for the first. At a fault some of its pages may be marked.
pub fn walk_heap<P: PageSource>(
    alloc: Global,
    pages: &mut P,
    heap: &Heap,
    reached: &mut [bool],
) -> Result<Vec<u32>, WalkFault>
    ensures walked { OfItsPages P.has pages.new
        (λ list. WalksHeap heap.now list reached.old reached.new result) }
    ensures refused { OfItsPages P.has pages.new
        (λ list. IfErr result (RefusesRightly (HeapAhead heap.now list reached.old))) }
    ensures told { OfItsPages P.has pages.new
        (λ list. IfErr result (TellsOfFault (IsHeapFault heap.now list reached.old))) }
    ensures before { KeepsItsPages P.has pages.old pages.new }
{
    let own = walk_pages(alloc, pages, heap.first_page(), reached)?;
    walk_own(alloc, pages, reached.len(), heap, &own)?;
    Ok(own)
}

//! The slots in use of pages, visited one after another.
ghost use Rattle.std.specs.Prelude.{◌≡◌, ◌≤◌, ◌<◌, ◌^◌, [], ◌∷◌, length, IfSome, IsNone, OnOk};
ghost use Rattle.pages.specs.Source.{KeepsItsPages, OfItsPages};
ghost use Rattle.record_heap.specs.Slot.{room};
ghost use Rattle.salvaged_records.specs.Slots.{found_slot, record_at, slots_of_page, slots_to, used_slots_in, with_slot};

use crate::slots::{is_heap_page, record_at};
use crate::used_slot::UsedSlot;
use pages::{PAGE_SIZE, PageSource};
use record_heap::SlotShape;
use std::alloc::AllocError;

/// So many pages can be asked for.
pub const MOST_PAGES: u64 = 1 << 32;

/// One that takes slots in use, in the order of the pages and of their slots.
pub trait TakesSlots {
    ghost use Rattle.std.specs.Prelude.{List, [], ◌∷◌, ◌++◌, OnOk};
    ghost use Rattle.salvaged_records.specs.Slots.{FoundSlot, found_slot};

    /// These slots were taken, in this order.
    ghost takes: { Self → Self → List FoundSlot → Type 0 };

    /// Takes a slot. An error is want of memory.
    fn take(&mut self, slot: &UsedSlot<'_>) -> Result<(), AllocError>
        ensures { OnOk result (takes self.old self.new (found_slot slot.now ∷ [])) };

    ghost takes_none: { (a : Self) → takes a a [] };

    ghost takes_on: { (a b c : Self) (first more : List FoundSlot) → takes a b first → takes b c more
        → takes a c (first ++ more) };
}

/// Slot `i` of page `n`, where it is in use.
pub fn slot_of(page: &[u8; PAGE_SIZE], shape: SlotShape, n: usize, i: usize) -> Option<UsedSlot<'_>>
    requires slot { i < room shape }
    ensures some { IfSome result (λ slot. with_slot [] n i (record_at shape page.now i) ≡ found_slot slot ∷ []) }
    ensures none { IsNone result → with_slot [] n i (record_at shape page.now i) ≡ [] }
{
    let room = shape.room();
    match record_at(page, shape, i) {
        Some(bytes) => Some(UsedSlot {
            page: n,
            slot: i.min(room) as u16,
            bytes,
        }),
        None => None,
    }
}

/// Visits slot `i` of page `n`, where it is in use.
fn visit_slot<V: TakesSlots>(
    visitor: &mut V,
    page: &[u8; PAGE_SIZE],
    shape: SlotShape,
    n: usize,
    i: usize,
) -> Result<(), AllocError>
    requires slot { i < room shape }
    ensures { OnOk result (V.takes visitor.old visitor.new (with_slot [] n i (record_at shape page.now i))) }
{
    match slot_of(page, shape, n, i) {
        Some(slot) => visitor.take(&slot),
        None => Ok(()),
    }
}

/// Visits the slots in use of page `n`, which is a heap page.
fn visit_slots<V: TakesSlots>(
    visitor: &mut V,
    page: &[u8; PAGE_SIZE],
    shape: SlotShape,
    n: usize,
) -> Result<(), AllocError>
    ensures { OnOk result (V.takes visitor.old visitor.new (slots_to shape page.now n (room shape))) }
{
    for i in 0..shape.room() {
        visit_slot(visitor, page, shape, n, i)?;
    }
    Ok(())
}

/// Visits the slots in use of page `n`, if it is a heap page.
fn visit_page<V: TakesSlots>(
    visitor: &mut V,
    page: &[u8; PAGE_SIZE],
    shape: SlotShape,
    n: usize,
) -> Result<(), AllocError>
    ensures { OnOk result (V.takes visitor.old visitor.new (slots_of_page shape page.now n)) }
{
    if !is_heap_page(page) {
        return Ok(());
    }
    visit_slots(visitor, page, shape, n)
}

/// Visits the slots in use of all pages: page after page, and in each by rising number.
pub fn visit_all<P: PageSource, V: TakesSlots>(
    pages: &mut P,
    shape: SlotShape,
    visitor: &mut V,
) -> Result<(), AllocError>
    requires few { OfItsPages P.has pages.old (λ list. length list ≤ 2 ^ 32) }
    ensures taken { OfItsPages P.has pages.new
        (λ list. OnOk result (V.takes visitor.old visitor.new (used_slots_in shape list))) }
    ensures before { KeepsItsPages P.has pages.old pages.new }
{
    for n in 0..MOST_PAGES {
        let Some(page) = pages.page(n as u32) else {
            return Ok(());
        };
        visit_page(visitor, &page, shape, n as usize)?;
    }
    Ok(())
}

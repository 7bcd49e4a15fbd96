//! Marks on the slots of a heap's own pages.

ghost use Rattle.std.specs.Prelude.{◌≡◌, ◌↔◌, ℕ, ◌*◌, ◌≤◌, true, false, IfErr, IfOk, IfSome, IsFalse};
ghost use Rattle.std.specs.Prelude.{IsNone, IsTrue, length};
ghost use Rattle.page_walks.specs.Bits.{bit_of};
ghost use Rattle.record_heap.specs.declared.shape.Place.{Place as AnyPlace};
ghost use Rattle.page_walks.specs.SlotMarks.{AreFor, ArePositions, HasMark, IsSlotOf, MarkAt};
ghost use Rattle.page_walks.specs.SlotMarks.{SameSlots, SetsMark, marked_slot};

use crate::bits::Bits;
use pages::WalkFault;
use record_heap::Place;
use std::alloc::Global;

/// A mark for each slot of these pages, in their order, of one bit. Where a page stands among them
/// is looked up by its number, and compared with what stands there.
#[derive(Drop)]
pub struct SlotMarks<'a> {
    pub own: &'a [u32],
    pub positions: Vec<u32>,
    pub room: u16,
    pub slots: usize,
    pub marks: Bits,
}

/// Where each of these pages stands among them, by its number below `count`.
fn positions_of(alloc: Global, count: usize, own: &[u32]) -> Result<Vec<u32>, WalkFault>
    ensures are { IfOk result (λ positions. ArePositions own.now positions.items) }
    ensures memory { IfErr result (λ fault. fault ≡ WalkFault.Memory) }
{
    let mut positions = vec![in alloc; 0; count].map_err(|_| WalkFault::Memory)?;
    for i in 0..own.len() {
        let n = own[i] as usize;
        if n >= positions.len() || i > u32::MAX as usize {
            return Err(WalkFault::Memory);
        }
        positions[n] = i as u32;
    }
    Ok(positions)
}

/// At least so many marks, none of them set.
fn no_marks(alloc: Global, count: usize) -> Result<Bits, WalkFault>
    ensures clear { IfOk result (λ marks. (i : ℕ) → bit_of marks.words.items i ≡ false) }
    ensures many { IfOk result (λ marks. count ≤ 64 * length marks.words.items) }
    ensures memory { IfErr result (λ fault. fault ≡ WalkFault.Memory) }
{
    Bits::none(alloc, count).map_err(|_| WalkFault::Memory)
}

impl<'a> SlotMarks<'a> {
    /// No slot of these pages is marked. They are of a file of `count` pages, and have `room` slots each.
    pub fn none(
        alloc: Global,
        count: usize,
        own: &'a [u32],
        room: u16,
    ) -> Result<SlotMarks<'a>, WalkFault>
        ensures clear { IfOk result (λ marks. (p : AnyPlace) → marked_slot marks p ≡ false) }
        ensures every { IfOk result (AreFor own.now room) }
        ensures memory { IfErr result (λ fault. fault ≡ WalkFault.Memory) }
    {
        let positions = positions_of(alloc, count, own)?;
        if own.len() > u32::MAX as usize {
            return Err(WalkFault::Memory);
        }
        let slots = own.len() * usize::from(room);
        let marks = no_marks(alloc, slots)?;
        Ok(SlotMarks {
            own,
            positions,
            room,
            slots,
            marks,
        })
    }

    /// Where the mark of a slot stands.
    fn index(&self, place: Place) -> Option<usize>
        ensures at { IfSome result (MarkAt self.now place) }
        ensures none { IsNone result → IsSlotOf self.now place → ⊥ }
    {
        let at = *self.positions.get(place.page as usize)?;
        let page = *self.own.get(at as usize)?;
        if page != place.page || place.slot >= self.room {
            return None;
        }
        Some(at as usize * usize::from(self.room) + usize::from(place.slot))
    }

    /// The slot is marked.
    pub fn has(&self, place: Place) -> bool
        ensures { IsTrue result ↔ marked_slot self.now place ≡ true }
    {
        match self.index(place) {
            Some(i) => self.marks.has(i),
            None => false,
        }
    }

    /// Marks a slot, or takes its mark, and answers whether the slot is one of these pages.
    pub fn set(&mut self, place: Place, to: bool) -> bool
        ensures set { IsTrue result → SetsMark place to self.old self.new }
        ensures there { IsFalse result → HasMark self.old place → ⊥ }
        ensures same { SameSlots self.old self.new }
    {
        match self.index(place) {
            Some(i) => self.marks.put(i, to),
            None => false,
        }
    }

    /// The first slot of a page that is marked.
    fn first_of(&self, page: u32) -> Option<Place>
        ensures is { IfSome result (λ p. marked_slot self.now p ≡ true) }
        ensures none { IsNone result
            → (p : AnyPlace) → p.page ≡ page → marked_slot self.now p ≡ false }
    {
        for slot in 0..self.room {
            let place = Place { page, slot };
            if self.has(place) {
                return Some(place);
            }
        }
        None
    }

    /// The first slot that is marked, in the order of these pages.
    pub fn first(&self) -> Option<Place>
        ensures is { IfSome result (λ p. marked_slot self.now p ≡ true) }
        ensures none { IsNone result → (p : AnyPlace) → marked_slot self.now p ≡ false }
    {
        for &page in self.own {
            if let Some(place) = self.first_of(page) {
                return Some(place);
            }
        }
        None
    }

    /// No slot is marked.
    pub fn are_none(&self) -> bool
        ensures { IsTrue result → (p : AnyPlace) → marked_slot self.now p ≡ false }
    {
        self.marks.are_none()
    }
}

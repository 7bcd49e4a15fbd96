//! The heap and its slots.

use super::first_page::{FirstPage, Place};
use super::numbers::{are_zero, has, number, page_start, take};
use std::alloc::Global;
use std::process::Abort;

/// What the slots of a file are: how many stamps a record has, and the lengths of records.
#[derive(Clone, Copy)]
struct Slots {
    stamps: usize,
    least: usize,
    greatest: usize,
}

/// What a slot has.
#[derive(Clone, Copy)]
enum Slot {
    Used(Stored),
    /// And the next free slot.
    Free(Place),
    /// Neither.
    Broken,
}

/// Where a record begins, and its stamps in the duplicates keys, and how many there are.
#[derive(Clone, Copy)]
pub struct Stored {
    pub stamps: usize,
    pub count: usize,
    pub record: usize,
}

/// The heap of a file: which pages are its own, and how many of their slots are in use.
#[derive(Drop)]
pub struct Heap {
    slots: Slots,
    own: Vec<bool>,
    pub used: u64,
}

impl Slots {
    /// The slots of a file of this first page.
    fn new(first: &FirstPage) -> Slots {
        let mut stamps = 0usize;
        for key in first.keys.as_slice() {
            if key.has_duplicates() {
                stamps = stamps.saturating_add(1);
            }
        }
        Slots {
            stamps,
            least: first.least,
            greatest: first.greatest,
        }
    }

    /// The bytes before the stamps.
    fn head(self) -> usize {
        if self.least == self.greatest { 1 } else { 3 }
    }

    /// The bytes of a slot.
    fn size(self) -> usize {
        let content = self
            .stamps
            .saturating_mul(8)
            .saturating_add(self.greatest)
            .saturating_add(self.head())
            .saturating_sub(1);
        content.max(6).saturating_add(1)
    }

    /// How many there are in a page.
    fn room(self) -> usize {
        4080 / self.size().max(1)
    }

    /// Where a slot begins.
    fn start(self, place: Place) -> usize {
        let before = place.slot.saturating_mul(self.size());
        page_start(place.page)
            .saturating_add(16)
            .saturating_add(before)
    }

    /// The length of the record of a slot in use.
    fn length(self, bytes: &[u8], slot: usize) -> usize {
        if self.head() == 1 {
            self.greatest
        } else {
            number(bytes, slot.saturating_add(1), 2) as usize
        }
    }

    /// What a slot in use has.
    fn used(self, bytes: &[u8], slot: usize) -> Slot {
        let length = self.length(bytes, slot);
        let stamps = slot.saturating_add(self.head());
        let record = self.stamps.saturating_mul(8).saturating_add(stamps);
        if length < self.least || self.greatest < length || !has(bytes, record, length) {
            return Slot::Broken;
        }
        Slot::Used(Stored {
            stamps,
            count: self.stamps,
            record,
        })
    }
}

/// Whether a page is one of a heap.
fn is_heap_page(bytes: &[u8], page: usize) -> bool {
    number(bytes, page, 1) == u64::from(b'H')
        && are_zero(bytes, page.saturating_add(1), 3)
        && are_zero(bytes, page.saturating_add(8), 8)
}

impl Heap {
    /// That of a file of so many pages, of which it has none.
    pub fn new(rt: &impl Abort, alloc: Global, first: &FirstPage, pages: usize) -> Heap {
        Heap {
            slots: Slots::new(first),
            own: vec![in alloc; false; pages].expect(rt, "memory"),
            used: 0,
        }
    }

    /// Whether a page is its own.
    fn owns(&self, n: usize) -> bool {
        n < self.own.len() && self.own[n]
    }

    /// What is in a slot of an own page.
    fn slot(&self, bytes: &[u8], place: Place) -> Slot {
        if !self.owns(place.page as usize) || self.slots.room() <= place.slot {
            return Slot::Broken;
        }
        let slot = self.slots.start(place);
        match number(bytes, slot, 1) {
            0 => Slot::Free(Place {
                page: number(bytes, slot.saturating_add(1), 4),
                slot: number(bytes, slot.saturating_add(5), 2) as usize,
            }),
            1 => self.slots.used(bytes, slot),
            _ => Slot::Broken,
        }
    }

    /// The record at a place.
    pub fn stored(&self, bytes: &[u8], place: Place) -> Option<Stored> {
        match self.slot(bytes, place) {
            Slot::Used(stored) => Some(stored),
            Slot::Free(_) | Slot::Broken => None,
        }
    }

    /// Takes the pages of the chain from this one on.
    fn takes_pages(&mut self, bytes: &[u8], first: u64, taken: &mut [bool]) -> bool {
        let mut at = first;
        for _ in 0..taken.len() {
            if at == 0 {
                return true;
            }
            let page = page_start(at);
            if !take(taken, at)
                || !take(self.own.as_mut_slice(), at)
                || !is_heap_page(bytes, page)
            {
                return false;
            }
            at = number(bytes, page.saturating_add(4), 4);
        }
        at == 0
    }

    /// Counts the slots in use of a page, and answers how many are free; none where one is neither.
    fn counts_page(&mut self, bytes: &[u8], page: u64) -> Option<u64> {
        let mut free = 0u64;
        for slot in 0..self.slots.room() {
            match self.slot(bytes, Place { page, slot }) {
                Slot::Used(_) => self.used = self.used.saturating_add(1),
                Slot::Free(_) => free = free.saturating_add(1),
                Slot::Broken => return None,
            }
        }
        Some(free)
    }

    /// Counts the slots in use, and answers how many are free; none where one is neither.
    fn counts(&mut self, bytes: &[u8]) -> Option<u64> {
        let mut free = 0u64;
        for n in 0..self.own.len() {
            if self.owns(n) {
                match self.counts_page(bytes, n as u64) {
                    Some(more) => free = free.saturating_add(more),
                    None => return None,
                }
            }
        }
        Some(free)
    }

    /// So many free slots are in the chain from this one on: a chain that ends has none twice.
    fn has_free(&self, bytes: &[u8], first: Place, count: u64) -> bool {
        let mut at = first;
        for _ in 0..count {
            match self.slot(bytes, at) {
                Slot::Free(next) => at = next,
                Slot::Used(_) | Slot::Broken => return false,
            }
        }
        at.page == 0
    }

    /// Takes the pages that the first page leads to, and counts their slots.
    pub fn reads(&mut self, bytes: &[u8], first: &FirstPage, taken: &mut [bool]) -> bool {
        if !self.takes_pages(bytes, first.first_heap, taken) {
            return false;
        }
        match self.counts(bytes) {
            Some(free) => self.has_free(bytes, first.free_slot, free),
            None => false,
        }
    }
}

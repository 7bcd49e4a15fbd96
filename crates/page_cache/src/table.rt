//! The table in which the place of a page is found.
ghost use Rattle.std.specs.Prelude.{◌≡◌, ◌+◌, ◌<◌, ◌≤◌, List, ℕ, [], length, true, IfOk, IfSome, IsTrue, ◌↔◌};
ghost use Rattle.std.specs.Int.Bits.{bit_and};
ghost use Rattle.page_cache.specs.Places.{IsSeatOf};
ghost use Rattle.page_cache.specs.Table.{IsTable, IsToldIn, IsPut, IsFreeCell, FoundFrom};

use crate::places;
use std::alloc::{AllocError, Global};

/// How many cells may tell the place of a page: those from the one of its low bits on.
pub(crate) const WINDOW: usize = 8;

// A place is told by 16 bits.
const MOST_PLACES: usize = 1 << 16;

// What a cell tells at first: the last of these places, which no file with fewer frames has. A place
// that has a page would keep the cells beside its own from others.
const UNTOLD: u16 = u16::MAX;

/// Where pages stand, by the low bits of their numbers. It is small, since an open file fills it at
/// first: 8 bytes for each place.
#[derive(Drop)]
pub(crate) struct Table {
    // The place that each cell tells.
    pub(crate) cells: Vec<u16>,
    // The low bits of a number.
    pub(crate) mask: usize,
    // Whether a page was put where no cell was free, which `Frames::choose` does not let happen, or
    // at a place past the first 65,536. Then all places are looked at.
    pub(crate) crowded: bool,
}

impl Table {
    /// A table for this many places, of which none is taken.
    pub(crate) fn new(alloc: Global, most: usize) -> Result<Table, AllocError>
        ensures { IfOk result (IsTable []) }
    {
        let many = (most.min(MOST_PLACES) * 4).next_power_of_two();
        Ok(Table {
            cells: vec![in alloc; UNTOLD; many + WINDOW]?,
            mask: many - 1,
            crowded: false,
        })
    }

    /// The place of page `n`.
    #[inline(always)]
    pub(crate) fn place_of(&self, numbers: &[u32], n: u32) -> Option<usize>
        requires { IsTable numbers.now self.now }
        ensures { IsSeatOf n numbers.now result }
    {
        let place = usize::from(self.cells[slot_of(n, self.mask)]);
        if place < numbers.len() && numbers[place] == n {
            return Some(place);
        }
        self.search(numbers, n)
    }

    // The place of page n, by a look at each cell that may tell it.
    #[inline(never)]
    fn search(&self, numbers: &[u32], n: u32) -> Option<usize>
        requires { IsTable numbers.now self.now }
        ensures { IsSeatOf n numbers.now result }
    {
        if self.crowded {
            return places::search(numbers, n);
        }
        told_from(&self.cells, slot_of(n, self.mask), numbers, n)
    }

    /// A place whose page has to go before page `n` is put, so that a cell is free for it.
    pub(crate) fn in_the_way(&self, numbers: &[u32], n: u32) -> Option<usize>
        requires { self.now.mask + 8 ≤ length self.now.cells.items }
        ensures { IfSome result (λ place. place < length numbers.now) }
    {
        if self.free_cell(numbers, numbers.len(), n).is_some() {
            return None;
        }
        let other = usize::from(self.cells[slot_of(n, self.mask)]);
        if other < numbers.len() {
            Some(other)
        } else {
            None
        }
    }

    /// Tells of page `n` that it is put at a place.
    pub(crate) fn put(&mut self, numbers: &[u32], place: usize, n: u32)
        requires { IsTable numbers.now self.old }
        ensures { (after : List ℕ) → IsPut place n numbers.now after → IsTable after self.new }
    {
        match self.free_cell(numbers, place, n) {
            Some(cell) if place < MOST_PLACES => self.cells[cell] = place as u16,
            _ => self.crowded = true,
        }
    }

    // A cell that may tell page n, and tells the page of no other place.
    fn free_cell(&self, numbers: &[u32], place: usize, n: u32) -> Option<usize>
        requires { self.now.mask + 8 ≤ length self.now.cells.items }
        ensures { IfSome result (λ cell. IsToldIn (bit_and n self.now.mask) cell
            × (cell < length self.now.cells.items) × IsFreeCell numbers.now place cell self.now) }
    {
        let from = slot_of(n, self.mask);
        for cell in from..from + WINDOW {
            if self.is_free(numbers, place, cell) {
                return Some(cell);
            }
        }
        None
    }

    // Whether a cell tells the page of no other place than this one.
    fn is_free(&self, numbers: &[u32], place: usize, cell: usize) -> bool
        requires { cell < length self.now.cells.items }
        ensures { result ≡ true → IsFreeCell numbers.now place cell self.now }
    {
        let other = usize::from(self.cells[cell]);
        other >= numbers.len() || other == place || !self.may_tell(cell, numbers[other])
    }

    // Whether a cell is one of those that may tell page n.
    fn may_tell(&self, cell: usize, n: u32) -> bool
        ensures { IsTrue result ↔ IsToldIn (bit_and n self.now.mask) cell }
    {
        let from = slot_of(n, self.mask);
        from <= cell && cell - from < WINDOW
    }
}

// The first cell that may tell page n: that of its low bits.
#[inline(always)]
fn slot_of(n: u32, mask: usize) -> usize
    ensures slot { result ≡ bit_and n mask }
    ensures low { result ≤ mask }
{
    n as usize & mask
}

// The place of page n, by a look at the cells from this one on.
fn told_from(cells: &[u16], from: usize, numbers: &[u32], n: u32) -> Option<usize>
    requires { from + 8 ≤ length cells.now }
    ensures { FoundFrom from cells.now n numbers.now result }
{
    for cell in from..from + WINDOW {
        let place = usize::from(cells[cell]);
        if place < numbers.len() && numbers[place] == n {
            return Some(place);
        }
    }
    None
}

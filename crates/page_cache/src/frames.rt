//! The frames of a cache, each with its page.
ghost use Rattle.std.specs.Prelude.{◌≡◌, ◌<◌, ◌≤◌, [], length, nat_eq, slice_get, Some, None, IfOk, is_some};
ghost use Rattle.std.specs.Prelude.{option_copied, option_map};
ghost use Rattle.std.specs.Option.{option_copied_mut};
ghost use Rattle.std.specs.NonZero.{non_zero_usize_get};
ghost use Rattle.std.specs.Borrow.{sem};
ghost use Rattle.std.specs.Map.{lookup};
ghost use Rattle.page_cache.specs.HeldFrames.{held_frames, IsSeated, CanSeat, put_at, settled};

use crate::places;
use crate::table::Table;
use pages::PAGE_SIZE;
use std::alloc::{AllocError, Global};
use std::marker::Model;
use std::num::NonZeroUsize;

/// Pages with their frames. It has all the memory that it ever needs from the beginning.
#[derive(Drop)]
pub struct Frames {
    // The pages of the places that are taken, and their bytes.
    numbers: Vec<u32>,
    pages: Vec<[u8; PAGE_SIZE]>,
    // Whether the page of each place was lent for writing since it was last written.
    changed: Vec<bool>,
    // Whether it was used, since it was last considered as the one to go.
    used: Vec<bool>,
    // Where the pages stand.
    table: Table,
    // The place that is considered next.
    hand: usize,
    cap: NonZeroUsize,
}

impl Model for Frames {
    ghost use Rattle.std.specs.Prelude.{◌≡◌, ◌≤◌, length, vec_capacity};
    ghost use Rattle.std.specs.NonZero.{non_zero_usize_get};
    ghost use Rattle.page_cache.specs.HeldFrames.{HeldFrames, held_frames};
    ghost use Rattle.page_cache.specs.Places.{marked, paired, ArePaired};
    ghost use Rattle.page_cache.specs.Table.{IsTable};

    ghost Value = { HeldFrames };

    ghost view = { λ f. held_frames (paired f.numbers.items (marked f.changed.items f.pages.items))
        (non_zero_usize_get f.cap) };

    ghost invariant = { λ f. ArePaired f.numbers.items f.changed.items f.pages.items f.used.items
        (non_zero_usize_get f.cap) × (non_zero_usize_get f.cap ≤ vec_capacity f.numbers)
        × (non_zero_usize_get f.cap ≤ vec_capacity f.pages) × IsTable f.numbers.items f.table };
}

impl Frames {
    ghost use Rattle.page_cache.specs.FrameLends.{LendsPage};

    /// No page yet, and this many places.
    pub fn new(alloc: Global, cap: NonZeroUsize) -> Result<Frames, AllocError>
        ensures { IfOk result (λ frames. frames ≡ held_frames [] (non_zero_usize_get cap)) }
    {
        let most = cap.get();
        Ok(Frames {
            numbers: Vec::with_capacity(alloc, most)?,
            pages: Vec::with_capacity(alloc, most)?,
            changed: vec![in alloc; false; most]?,
            used: vec![in alloc; false; most]?,
            table: Table::new(alloc, most)?,
            hand: 0,
            cap,
        })
    }

    /// How many pages have a frame.
    #[inline(always)]
    pub fn len(&self) -> usize
        ensures len { result ≡ length self.now.entries }
        ensures seated { IsSeated self.now }
    {
        self.numbers.len()
    }

    /// How many frames there may be.
    pub fn cap(&self) -> NonZeroUsize
        ensures { non_zero_usize_get result ≡ self.now.cap }
    {
        self.cap
    }

    /// Marks page `n` as used, and tells whether it has a frame.
    #[inline(always)]
    pub fn touch(&mut self, n: u32) -> bool
        ensures held { result ≡ is_some (lookup (nat_eq n) self.old.entries) }
        ensures same { self.new ≡ self.old }
    {
        match self.table.place_of(&self.numbers, n) {
            Some(place) => {
                self.used[place] = true;
                true
            }
            None => false,
        }
    }

    /// Has page `n` be the next one to go, where all places are taken.
    pub fn demote(&mut self, n: u32)
        ensures same { self.new ≡ self.old }
    {
        if let Some(place) = self.table.place_of(&self.numbers, n) {
            self.used[place] = false;
            self.hand = place;
        }
    }

    /// Lends page `n` for reading.
    #[inline(always)]
    pub fn page(&self, n: u32) -> Option<&[u8; PAGE_SIZE]>
        ensures { option_copied result ≡ option_map (λ frame. frame.page) (lookup (nat_eq n) self.now.entries) }
    {
        match self.table.place_of(&self.numbers, n) {
            Some(place) => Some(&self.pages[place]),
            None => None,
        }
    }

    /// Lends page `n` for writing: its frame counts as changed.
    #[inline(always)]
    pub fn page_mut(&mut self, n: u32) -> Option<&mut [u8; PAGE_SIZE]>
        ensures* lends { sem 𝓛 (LendsPage n self.entry result) }
        ensures value { option_copied_mut result
            ≡ option_map (λ frame. frame.page) (lookup (nat_eq n) self.old.entries) }
    {
        match self.table.place_of(&self.numbers, n) {
            Some(place) => {
                self.changed[place] = true;
                Some(&mut self.pages[place])
            }
            None => None,
        }
    }

    /// The page of a place, whether it was changed, and its bytes.
    pub fn at(&self, place: usize) -> (u32, bool, &[u8; PAGE_SIZE])
        requires { place < length self.now.entries }
        ensures { slice_get self.now.entries place
            ≡ Some (result.0, record { changed = result.1; page = result.2.now }) }
    {
        (self.numbers[place], self.changed[place], &self.pages[place])
    }

    /// Marks the page of a place as not changed.
    pub fn settle(&mut self, place: usize)
        requires { place < length self.old.entries }
        ensures { self.new ≡ held_frames (settled place self.old.entries) self.old.cap }
    {
        self.changed[place] = false;
    }

    /// The place for page `n`: the next one, or where all places are taken, one whose page was not
    /// used for long. Where the table has no cell for `n`, it is the place of a page that is in the way.
    pub fn choose(&mut self, n: u32) -> usize
        ensures next { result ≤ length self.old.entries }
        ensures room { result < self.old.cap }
        ensures same { self.new ≡ self.old }
    {
        let held = self.numbers.len();
        if let Some(place) = self.table.in_the_way(&self.numbers, n) {
            return place;
        }
        if held < self.cap.get() {
            return held;
        }
        self.turn()
    }

    // The place whose page was not used for long, where all places are taken.
    fn turn(&mut self) -> usize
        requires { length self.old.entries ≡ self.old.cap }
        ensures place { result < length self.old.entries }
        ensures same { self.new ≡ self.old }
    {
        let from = if self.hand < self.used.len() {
            self.hand
        } else {
            0
        };
        let place = places::next_unused(&mut self.used, from);
        self.hand = place + 1;
        place
    }

    /// Puts a page at a place that is taken, in place of its page, or at the next one.
    pub fn put(&mut self, place: usize, n: u32, changed: bool, page: &[u8; PAGE_SIZE])
        requires { CanSeat place n self.old }
        ensures { self.new ≡ held_frames
            (put_at place (n, record { changed = changed; page = page.now }) self.old.entries) self.old.cap }
    {
        if place < self.len() {
            self.replace(place, n, changed, page);
        } else {
            self.push(n, changed, page);
        }
    }

    // Puts a page in place of another one.
    fn replace(&mut self, place: usize, n: u32, changed: bool, page: &[u8; PAGE_SIZE])
        requires absent { lookup (nat_eq n) self.old.entries ≡ None }
        requires held { place < length self.old.entries }
        ensures { self.new ≡ held_frames
            (put_at place (n, record { changed = changed; page = page.now }) self.old.entries) self.old.cap }
    {
        self.table.put(&self.numbers, place, n);
        self.numbers[place] = n;
        self.changed[place] = changed;
        self.pages[place] = *page;
        self.used[place] = true;
    }

    // Puts a page at the next place.
    fn push(&mut self, n: u32, changed: bool, page: &[u8; PAGE_SIZE])
        requires absent { lookup (nat_eq n) self.old.entries ≡ None }
        requires room { length self.old.entries < self.old.cap }
        ensures { self.new ≡ held_frames
            (put_at (length self.old.entries) (n, record { changed = changed; page = page.now })
            self.old.entries) self.old.cap }
    {
        let place = self.numbers.len();
        self.table.put(&self.numbers, place, n);
        self.changed[place] = changed;
        self.used[place] = true;
        places::add(&mut self.numbers, n);
        places::add(&mut self.pages, *page);
    }
}

//! The cache, and what it reads and writes.
ghost use Rattle.std.specs.Prelude.{◌≡◌, ◌≤◌, ◌<◌, OnOk, IfOk, MatchResult};
ghost use Rattle.std.specs.NonZero.{non_zero_usize_get};
ghost use Rattle.page_cache.specs.Cached.{IsOver, IsOverPage, IsOverMissing, IsOverNext};
ghost use Rattle.page_cache.specs.Cached.{IsOverPageOrNext, IsEmptyCache, pages_asked, pages_held};
ghost use Rattle.page_cache.specs.Cached.{most_frames, count_restarted};
ghost use Rattle.page_cache.specs.Calls.{asked_once, PagesStay, WritesPlace, MakesRoom};
ghost use Rattle.page_cache.specs.Calls.{BringsPage, WritesChanged, PutsZeros, SettlesPlace};
ghost use Rattle.page_cache.specs.Lending.{SameFrames};

use crate::frame;
use crate::frames::Frames;
use io_state::Fault;
use page_store::{Shelf, Store};
use pages::PAGE_SIZE;
use std::alloc::Global;
use std::num::NonZeroUsize;

/// The pages of one unit, some of them in memory.
#[derive(Drop)]
pub struct Cache {
    pub(crate) store: Store,
    pub(crate) frames: Frames,
    // A page on its way to its frame.
    page: Box<[u8; PAGE_SIZE]>,
    asked: u64,
}

impl Cache {
    /// A cache that holds no page yet, and at most `frames` pages later, for which it has the memory
    /// from now on. Memory is its only fault, and no file is changed.
    pub fn new(alloc: Global, store: Store, frames: NonZeroUsize) -> Result<Cache, Fault>
        ensures { MatchResult result (IsEmptyCache store (non_zero_usize_get frames))
            (λ fault. fault ≡ Fault.Memory) }
    {
        let Ok(frames) = Frames::new(alloc, frames) else {
            return Err(Fault::Memory);
        };
        let Ok(page) = Box::new(alloc, [0; PAGE_SIZE]) else {
            return Err(Fault::Memory);
        };
        Ok(Cache {
            store,
            frames,
            page,
            asked: 0,
        })
    }

    /// The memory of a cache that holds no page, for another store. No page was asked for yet.
    pub fn over(self, store: Store) -> Cache
        requires { pages_held self ≡ 0 }
        ensures { IsEmptyCache store (most_frames self) result }
    {
        let Cache { frames, page, .. } = self;
        // Its clause brings that no page has two frames.
        let _held = frames.len();
        Cache {
            store,
            frames,
            page,
            asked: 0,
        }
    }

    /// How many pages are held.
    pub fn held_pages(&self) -> usize
        ensures held { result ≡ pages_held self.now }
        ensures few { result ≤ most_frames self.now }
    {
        self.frames.len()
    }

    /// How often a page was asked for since the last restart, at most 2^64 - 1.
    pub fn asked(&self) -> u64
        ensures { result ≡ pages_asked self.now }
    {
        self.asked
    }

    /// Counts from 0 again.
    pub fn restart_count(&mut self)
        ensures { self.new ≡ count_restarted self.old }
    {
        self.asked = 0;
    }

    /// Sees to it that page `n` is held, and counts one page asked. Where all frames are taken, a page
    /// that was not used for long goes, and is written first where it was changed. A fault is one of
    /// the shelf: it loses no page, and leaves the list of pages as it was.
    #[inline(always)]
    pub fn load<S: Shelf>(&mut self, shelf: &mut S, n: u32) -> Result<(), Fault>
        requires { IsOverPage n self.old (S.state shelf.old) }
        ensures { BringsPage S.state S.fault_count n (asked_once self.old) self.old self.new
            shelf.old shelf.new result }
    {
        self.asked = self.asked.saturating_add(1);
        if self.frames.touch(n) {
            return Ok(());
        }
        self.bring(shelf, n)
    }

    /// Has page `n` be the first that goes, where all frames are taken. Nothing is read or written, and
    /// what is held stays held.
    pub fn demote(&mut self, n: u32)
        ensures same { SameFrames self.old self.new }
    {
        if self.frames.len() == self.frames.cap().get() {
            self.frames.demote(n);
        }
    }

    /// Makes page `n` one of zeros, and counts one page asked. Where `n` is the number of pages, it
    /// is added, and written at once. A fault is one of the shelf, and leaves the list of pages.
    pub fn zero<S: Shelf>(&mut self, shelf: &mut S, n: u32) -> Result<(), Fault>
        requires { IsOverPageOrNext n self.old (S.state shelf.old) }
        ensures { PutsZeros S.state S.fault_count n (asked_once self.old) self.old self.new shelf.old
            shelf.new result }
    {
        if n < self.store.pages {
            return self.clear(shelf, n);
        }
        self.add(shelf, n)
    }

    // Makes a page of the store one of zeros; one that is not held is not read.
    fn clear<S: Shelf>(&mut self, shelf: &mut S, n: u32) -> Result<(), Fault>
        requires { IsOverPage n self.old (S.state shelf.old) }
        ensures { PutsZeros S.state S.fault_count n (asked_once self.old) self.old self.new shelf.old
            shelf.new result }
    {
        self.asked = self.asked.saturating_add(1);
        // Whether it is held is asked of `held_mut`, which lends the page.
        let _held = self.frames.touch(n);
        match self.held_mut(n) {
            Ok(page) => {
                page.fill(0);
                Ok(())
            }
            Err(_) => self.hold_zeros(shelf, n),
        }
    }

    // Holds a page of zeros for one that is not held.
    fn hold_zeros<S: Shelf>(&mut self, shelf: &mut S, n: u32) -> Result<(), Fault>
        requires { IsOverMissing n self.old (S.state shelf.old) }
        ensures { PutsZeros S.state S.fault_count n self.old.asked self.old self.new shelf.old shelf.new
            result }
    {
        let place = self.make_room(shelf, n)?;
        self.page.fill(0);
        self.frames.put(place, n, true, &self.page);
        Ok(())
    }

    // Writes a page of zeros behind the last page, and holds it.
    fn add<S: Shelf>(&mut self, shelf: &mut S, n: u32) -> Result<(), Fault>
        requires { IsOverNext n self.old (S.state shelf.old) }
        ensures { PutsZeros S.state S.fault_count n (asked_once self.old) self.old self.new shelf.old
            shelf.new result }
    {
        self.asked = self.asked.saturating_add(1);
        let place = self.make_room(shelf, n)?;
        frame::write_zeros(&mut self.store, shelf, n, &mut *self.page)?;
        self.frames.put(place, n, false, &self.page);
        Ok(())
    }

    /// Writes each page that was changed; all stay held. A fault is one of the shelf, and leaves the
    /// rest for the next flush.
    pub fn flush<S: Shelf>(&mut self, shelf: &mut S) -> Result<(), Fault>
        requires over { IsOver self.old (S.state shelf.old) }
        ensures { WritesChanged S.state S.fault_count self.old self.new shelf.old shelf.new result }
    {
        for place in 0..self.frames.len() {
            self.settle(shelf, place)?;
        }
        Ok(())
    }

    // Writes the page of a place where it was changed, and marks it as not changed.
    fn settle<S: Shelf>(&mut self, shelf: &mut S, place: usize) -> Result<(), Fault>
        requires over { IsOver self.old (S.state shelf.old) }
        requires held { place < pages_held self.old }
        ensures { SettlesPlace S.state S.fault_count place self.old self.new shelf.old shelf.new result }
    {
        self.write(shelf, place)?;
        // Its clause brings that no page has two frames.
        let _held = self.frames.len();
        self.frames.settle(place);
        Ok(())
    }

    // Reads a page that is not held.
    #[inline(never)]
    fn bring<S: Shelf>(&mut self, shelf: &mut S, n: u32) -> Result<(), Fault>
        requires { IsOverMissing n self.old (S.state shelf.old) }
        ensures { BringsPage S.state S.fault_count n self.old.asked self.old self.new
            shelf.old shelf.new result }
    {
        let place = self.make_room(shelf, n)?;
        self.store.read_page(shelf, n, &mut *self.page)?;
        self.frames.put(place, n, false, &self.page);
        Ok(())
    }

    // A place for page n. Where a page stands there, it is written.
    fn make_room<S: Shelf>(&mut self, shelf: &mut S, n: u32) -> Result<usize, Fault>
        requires over { IsOver self.old (S.state shelf.old) }
        ensures { MakesRoom S.state S.fault_count self.old self.new shelf.old shelf.new result }
    {
        let held = self.frames.len();
        let place = self.frames.choose(n);
        if place == held {
            return Ok(place);
        }
        self.write(shelf, place)?;
        Ok(place)
    }

    // Writes the page of a place, where it was changed.
    fn write<S: Shelf>(&mut self, shelf: &mut S, place: usize) -> Result<(), Fault>
        requires over { IsOver self.old (S.state shelf.old) }
        requires held { place < pages_held self.old }
        ensures { WritesPlace S.state S.fault_count place self.old self.new shelf.old shelf.new result }
    {
        // Its clause brings that no page has two frames.
        let _held = self.frames.len();
        let (n, changed, page) = self.frames.at(place);
        if changed {
            frame::write_back(&mut self.store, shelf, n, page)?;
        }
        Ok(())
    }
}

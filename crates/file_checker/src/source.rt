//! The source of the pages of a unit.

ghost use Rattle.std.specs.Prelude.{◌≡◌, ◌<◌, false, IsTrue};
ghost use Rattle.pages.specs.PageList.{pages_in};
ghost use Rattle.pages.specs.Source.{KeepsItsPages, OfItsPages};
ghost use Rattle.page_store.specs.Pages.{HoldsPages};
ghost use Rattle.page_store.specs.ShelfCalls.{HasUnitWith};
ghost use Rattle.page_store.specs.DeviceFile.{content};
ghost use Rattle.page_store.specs.ShelfState.{unit_file};
ghost use Rattle.file_checker.specs.Asked.{HasOnlyAnswered, first_pages_of};
ghost use Rattle.file_checker.specs.Frames.{AreRead};

use crate::frames::{Frame, held, keep, no_frames};
use crate::lent_pages::LentPages;
use crate::unit_asked::UnitAsked;
use page_store::Shelf;
use pages::{PAGE_SIZE, PageSource};
use std::alloc::Global;
use std::marker::PhantomData;
use std::num::NonZeroUsize;

/// The first pages of the file of a unit, so many, each of which is read when it is asked for and no
/// frame has it.
pub struct UnitPages<S: Shelf, A: UnitAsked> {
    shelf: S,
    unit: usize,
    count: u32,
    has_failed: bool,
    frames: Vec<Frame>,
    last: [u8; PAGE_SIZE],
    asked: PhantomData<A>,
    ghost unit_is: { unit ≡ A.unit },
    ghost count_is: { count ≡ A.count },
    ghost holds: { HasUnitWith (S.state shelf) unit (HoldsPages count) },
    ghost read: { IsTrue (S.state shelf).is_honest
        → AreRead count (content (unit_file A.before A.unit)) frames.items },
    ghost answered: { HasOnlyAnswered A.before A.faults (S.state shelf) (S.fault_count shelf) has_failed },
}

impl<S: Shelf, A: UnitAsked> UnitPages<S, A> {
    /// The pages of a unit, of which there are so many. No more than `frames` are kept, and none
    /// where memory is wanting.
    pub fn new(
        alloc: Global,
        shelf: S,
        unit: usize,
        count: u32,
        frames: NonZeroUsize,
    ) -> UnitPages<S, A>
        requires holds { HasUnitWith (S.state shelf) unit (HoldsPages count) }
        requires unit { unit ≡ A.unit }
        requires count { count ≡ A.count }
        requires before { S.state shelf ≡ A.before }
        requires faults { S.fault_count shelf ≡ A.faults }
    {
        UnitPages {
            shelf,
            unit,
            count,
            has_failed: false,
            frames: no_frames(alloc, count, frames),
            last: [0; PAGE_SIZE],
            asked: PhantomData,
        }
    }

    /// The shelf, and whether a page was wanting by a fault of the device.
    pub fn into_shelf(self) -> (S, bool)
        ensures failed { result.1 ≡ self.has_failed }
        ensures answered { HasOnlyAnswered A.before A.faults (S.state result.0) (S.fault_count result.0) result.1 }
        ensures has { result.1 ≡ false → IsTrue (S.state result.0).is_honest
            → ⟦<UnitPages<S, A> as PageSource>⟧.has self (first_pages_of A.before A.unit A.count) }
    {
        let UnitPages {
            shelf,
            unit: _,
            count: _,
            has_failed,
            frames: _,
            last: _,
            asked: _,
        } = self;
        (shelf, has_failed)
    }

    /// Page n is one of the pages, and no page was wanting so far.
    fn has_page(&self, n: u32) -> bool
        ensures within { IsTrue result → n < self.now.count }
        ensures works { IsTrue result → self.now.has_failed ≡ false }
        ensures none { result ≡ false → OfItsPages ⟦<UnitPages<S, A> as PageSource>⟧.has self.now
            (λ list. None ≡ pages_in list n) }
    {
        !self.has_failed && n < self.count
    }

    /// Reads page n, and keeps it in its frame. It is wanting where the device fails.
    fn read(&mut self, n: u32) -> Option<[u8; PAGE_SIZE]>
        requires within { n < self.old.count }
        requires works { self.old.has_failed ≡ false }
        ensures page { OfItsPages ⟦<UnitPages<S, A> as PageSource>⟧.has self.new
            (λ list. result ≡ pages_in list n) }
        ensures before { KeepsItsPages ⟦<UnitPages<S, A> as PageSource>⟧.has self.old self.new }
    {
        let mut page = [0; PAGE_SIZE];
        match self
            .shelf
            .read_at(self.unit, u64::from(n) * 4096, &mut page)
        {
            Ok(()) => {
                keep(&mut self.frames, n, &page);
                Some(page)
            }
            Err(_) => {
                self.has_failed = true;
                None
            }
        }
    }
}

impl<S: Shelf, A: UnitAsked> PageSource for UnitPages<S, A> {
    ghost has = { λ source list. (source.has_failed ≡ false)
        × IsTrue (S.state source.shelf).is_honest
        × (list ≡ first_pages_of A.before A.unit A.count) };

    fn page(&mut self, n: u32) -> Option<[u8; PAGE_SIZE]> {
        if !self.has_page(n) {
            return None;
        }
        if let Some(place) = held(&self.frames, n) {
            return Some(self.frames[place].bytes);
        }
        self.read(n)
    }
}

impl<S: Shelf, A: UnitAsked> LentPages for UnitPages<S, A> {
    fn lend(&mut self, n: u32) -> Option<&[u8; PAGE_SIZE]> {
        if !self.has_page(n) {
            return None;
        }
        if let Some(place) = held(&self.frames, n) {
            return Some(&self.frames[place].bytes);
        }
        self.last = self.read(n)?;
        Some(&self.last)
    }
}

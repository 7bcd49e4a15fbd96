//! A file that is open: its cache, its free pages, and its gate.
ghost use Rattle.std.specs.Prelude.{◌≡◌, ◌<◌, ◌≤◌, true, false, IfOk, OnOk, MatchResult};
ghost use Rattle.std.specs.NonZero.{non_zero_usize_get};
ghost use Rattle.page_store.specs.ShelfState.{HasUnit, KeepsOthers, FaultHasCause};
ghost use Rattle.page_cache.specs.Calls.{ShowsSame};
ghost use Rattle.page_alloc.specs.PagedFile.{IsOpenOver, IsNewPagedFile, IsOldPagedFile, MakesPagedFile};
ghost use Rattle.page_alloc.specs.PagedFile.{MayShut, IsShut, cache_of, counts_of, is_begun, begun_from};
ghost use Rattle.page_alloc.specs.PagedFile.{unit_of_pages, most_held, asked_anew};
ghost use Rattle.page_alloc.specs.Joining.{pages_counted};
ghost use Rattle.page_alloc.specs.Steps.{MayOpenGateOnShelf};

use crate::pager::Pager;
use io_state::Fault;
use page_cache::Cache;
use page_store::{Shelf, Store};
use pages::PAGE_SIZE;
use std::alloc::Global;
use std::num::NonZeroUsize;

/// The cache and the free pages of a file, and whether its gate was opened.
#[derive(Drop)]
pub struct PagedFile {
    pub(crate) cache: Cache,
    pub(crate) pager: Pager,
    changed: bool,
}

impl PagedFile {
    /// Makes the file, or makes it anew, with this header and no other page; at most `frames` pages
    /// are held later, for which it has the memory from now on. Its gate is open. Where that memory
    /// lacks, nothing is asked of the shelf; any other fault is one of the shelf, and leaves the file
    /// as it was, or one that is refused.
    pub fn create<S: Shelf>(
        alloc: Global,
        shelf: &mut S,
        unit: usize,
        frames: NonZeroUsize,
        limit: u32,
        header: &[u8; PAGE_SIZE],
    ) -> Result<PagedFile, Fault>
        requires unit { HasUnit (S.state shelf.old) unit }
        ensures made { IfOk result (λ held. IsNewPagedFile held unit limit) }
        ensures ready { IfOk result (λ held. IsOpenOver held (S.state shelf.new)) }
        ensures frames { IfOk result (λ held. most_held held ≡ non_zero_usize_get frames) }
        ensures opens { MakesPagedFile S.state S.fault_count unit shelf.old shelf.new result }
    {
        let cache = Cache::new(alloc, Store { unit, pages: 0 }, frames)?;
        let mut store = Store::make(shelf, unit)?;
        store.write_page(shelf, 0, header)?;
        Ok(PagedFile {
            cache: cache.over(store),
            pager: Pager::fresh(limit),
            changed: true,
        })
    }

    /// The pages of a file that is there, of which the pager was read from its header; at most
    /// `frames` are held later, for which it has the memory from now on. Nothing is read, and its gate
    /// stays as it is. Memory is the only fault.
    pub fn open(
        alloc: Global,
        store: Store,
        frames: NonZeroUsize,
        pager: Pager,
    ) -> Result<PagedFile, Fault>
        requires counted { pages_counted pager ≤ store.pages }
        requires header { 0 < pages_counted pager }
        ensures { MatchResult result
            (IsOldPagedFile store (non_zero_usize_get frames) pager) (λ fault. fault ≡ Fault.Memory) }
    {
        Ok(PagedFile {
            cache: Cache::new(alloc, store, frames)?,
            pager,
            changed: false,
        })
    }

    /// Its cache.
    pub fn cache(&self) -> &Cache
        ensures { result.now ≡ cache_of self.now }
    {
        &self.cache
    }

    /// Its numbers of pages.
    pub fn pager(&self) -> Pager
        ensures { result ≡ counts_of self.now }
    {
        self.pager
    }

    /// Counts the pages asked for from 0 again.
    pub fn restart_count(&mut self)
        ensures { self.new ≡ asked_anew self.old }
    {
        self.cache.restart_count();
    }

    /// Opens the gate before the first change; later it does nothing. A fault is one of the shelf, and leaves
    /// all pages as they were, and the file as it was or refused; the call may be made again.
    pub fn begin<S: Shelf>(&mut self, shelf: &mut S) -> Result<(), Fault>
        requires ready { IsOpenOver self.old (S.state shelf.old) }
        ensures begun { MatchResult result (λ _. self.new ≡ begun_from self.old)
            (λ _. self.new ≡ self.old) }
        ensures same { ShowsSame (cache_of self.old) (cache_of self.new) (S.state shelf.old)
            (S.state shelf.new) }
        ensures nothing { is_begun self.old ≡ true → (S.state shelf.new).file ≡ (S.state shelf.old).file }
        ensures moves { MayOpenGateOnShelf S.state S.fault_count self.old self.new shelf.old shelf.new }
        ensures cause { FaultHasCause (S.fault_count shelf.old) (S.fault_count shelf.new) result }
    {
        if self.changed {
            return Ok(());
        }
        self.cache.begin_change(shelf)?;
        self.changed = true;
        Ok(())
    }

    /// Writes what was changed, and this header, and closes the gate. Where nothing was changed, it
    /// does nothing. After a fault the file is refused, or it is closed.
    pub fn close<S: Shelf>(&mut self, shelf: &mut S, header: &[u8; PAGE_SIZE]) -> Result<(), Fault>
        requires ready { IsOpenOver self.old (S.state shelf.old) }
        ensures nothing { is_begun self.old ≡ false → (S.state shelf.new).file ≡ (S.state shelf.old).file }
        ensures closed { OnOk result (IsShut header.now self.old (S.state shelf.old) (S.state shelf.new)) }
        ensures images { MayShut header.now self.old (S.state shelf.old) (S.state shelf.new) }
        ensures others { KeepsOthers (unit_of_pages self.old) (S.state shelf.old) (S.state shelf.new) }
        ensures cause { FaultHasCause (S.fault_count shelf.old) (S.fault_count shelf.new) result }
    {
        if !self.changed {
            return Ok(());
        }
        self.cache.flush(shelf)?;
        self.cache.write_header(shelf, header)?;
        self.cache.finish(shelf)?;
        self.changed = false;
        Ok(())
    }
}

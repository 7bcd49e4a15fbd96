//! The free pages of a file, and how many pages it has.
ghost use Rattle.std.specs.Prelude.{◌≡◌, OnOk, OnErr, ⊤};
ghost use Rattle.page_cache.specs.Cached.{IsOver, IsOverPage};
ghost use Rattle.page_cache.specs.Calls.{KeepsPages};
ghost use Rattle.page_alloc.specs.Joining.{available_of, IsJoined, CanTakeFree, CanTakeNew};
ghost use Rattle.page_alloc.specs.Joining.{pages_counted, first_free_page, pages_free, pager_with};
ghost use Rattle.page_alloc.specs.PagerCalls.{FailsOnly, FailsToGive, FollowsFree, AsksOnce, PagerGoes};
ghost use Rattle.page_alloc.specs.PagerCalls.{TakesAnyPage, TakesFreePage, TakesNewPage, GivesPage};
ghost use Rattle.page_alloc.specs.Taking.{Freed};

use crate::free_page;
use io_state::Fault;
use page_cache::Cache;
use page_store::Shelf;

/// What the header says of pages.
#[derive(Clone, Copy, Debug)]
pub struct Pager {
    // How many pages are counted, the header among them.
    pub(crate) count: u32,
    // The first free page, 0 where there is none.
    pub(crate) first: u32,
    // How many pages are free.
    pub(crate) free: u32,
    // The greatest count.
    pub(crate) limit: u32,
}

impl Pager {
    /// The pages of a new file: the header alone.
    pub fn fresh(limit: u32) -> Pager
        ensures { result ≡ pager_with 1 0 0 limit }
    {
        Pager {
            count: 1,
            first: 0,
            free: 0,
            limit,
        }
    }

    /// The pages of a file with these numbers in its header.
    pub fn numbered(count: u32, first: u32, free: u32, limit: u32) -> Pager
        ensures { result ≡ pager_with count first free limit }
    {
        Pager {
            count,
            first,
            free,
            limit,
        }
    }

    /// How many pages are counted, the header among them.
    pub fn count(&self) -> u32
        ensures { result ≡ pages_counted self.now }
    {
        self.count
    }

    /// The first free page, 0 where there is none.
    pub fn first(&self) -> u32
        ensures { result ≡ first_free_page self.now }
    {
        self.first
    }

    /// How many pages are free.
    pub fn free(&self) -> u32
        ensures { result ≡ pages_free self.now }
    {
        self.free
    }

    /// How many pages can be taken.
    pub fn available(&self) -> u64
        ensures { result ≡ available_of self.now }
    {
        self.free as u64 + self.limit.saturating_sub(self.count) as u64
    }

    /// Takes the first of the free pages, or else the next new one. Its bytes have no meaning. Full
    /// where none is available; Damage where the first free page is not one. A fault leaves each
    /// page as it was.
    pub fn take<S: Shelf>(&mut self, cache: &mut Cache, shelf: &mut S) -> Result<u32, Fault>
        requires ready { IsJoined cache.old self.old (S.state shelf.old) }
        ensures { TakesAnyPage S.state S.fault_count cache.old cache.new self.old self.new
            shelf.old shelf.new result }
    {
        if self.free > 0 {
            self.take_free(cache, shelf)
        } else {
            self.take_new(cache, shelf)
        }
    }

    // Takes the first free page.
    fn take_free<S: Shelf>(&mut self, cache: &mut Cache, shelf: &mut S) -> Result<u32, Fault>
        requires { CanTakeFree cache.old self.old (S.state shelf.old) }
        ensures { TakesFreePage S.state S.fault_count cache.old cache.new self.old self.new
            shelf.old shelf.new result }
    {
        let n = self.first;
        if n == 0 || n >= self.count {
            return Err(Fault::Damage);
        }
        let next = next_free(cache, shelf, n)?;
        self.first = next;
        self.free -= 1;
        Ok(n)
    }

    // Takes the next new page.
    fn take_new<S: Shelf>(&mut self, cache: &mut Cache, shelf: &mut S) -> Result<u32, Fault>
        requires { CanTakeNew cache.old self.old (S.state shelf.old) }
        ensures { TakesNewPage S.state S.fault_count cache.old cache.new self.old self.new
            shelf.old shelf.new result }
    {
        if self.count >= self.limit {
            return Err(Fault::Full);
        }
        let n = self.count;
        cache.zero(shelf, n)?;
        self.count = n + 1;
        Ok(n)
    }

    /// Puts a page in use in front of the free ones, so that it is the next one taken. Damage where
    /// it is not in use. A fault leaves each page as it was.
    pub fn give<S: Shelf>(&mut self, cache: &mut Cache, shelf: &mut S, n: u32) -> Result<(), Fault>
        requires ready { IsJoined cache.old self.old (S.state shelf.old) }
        ensures gives { GivesPage S.state n cache.old cache.new self.old self.new shelf.old shelf.new result }
        ensures fails { FailsToGive S.state S.fault_count n cache.old self.old shelf.old shelf.new result }
        ensures goes { PagerGoes S.state S.fault_count cache.old cache.new self.old self.new shelf.old
            shelf.new }
    {
        if n == 0 || n >= self.count || self.free >= self.count - 1 {
            return Err(Fault::Damage);
        }
        make_free(cache, shelf, n, self.first)?;
        self.first = n;
        self.free += 1;
        Ok(())
    }
}

// The page that a free page links to.
fn next_free<S: Shelf>(cache: &mut Cache, shelf: &mut S, n: u32) -> Result<u32, Fault>
    requires { IsOverPage n cache.old (S.state shelf.old) }
    ensures { FollowsFree S.state S.fault_count n cache.old cache.new shelf.old shelf.new result }
{
    cache.load(shelf, n)?;
    let page = cache.held(n)?;
    if !free_page::is_free(page) {
        return Err(Fault::Damage);
    }
    Ok(free_page::next(page))
}

// Makes a page a free one, before this one.
fn make_free<S: Shelf>(cache: &mut Cache, shelf: &mut S, n: u32, next: u32) -> Result<(), Fault>
    requires { IsOverPage n cache.old (S.state shelf.old) }
    ensures freed { OnOk result (Freed n next cache.old cache.new (S.state shelf.old) (S.state shelf.new)) }
    ensures kept { OnErr result (KeepsPages cache.old cache.new (S.state shelf.old) (S.state shelf.new)) }
    ensures fails { FailsOnly S.fault_count ⊤ ⊥ shelf.old shelf.new result }
    ensures asks { AsksOnce S.state S.fault_count cache.old cache.new shelf.old shelf.new }
    ensures over { IsOver cache.new (S.state shelf.new) }
{
    cache.load(shelf, n)?;
    let page = cache.held_mut(n)?;
    free_page::link(page, next);
    Ok(())
}

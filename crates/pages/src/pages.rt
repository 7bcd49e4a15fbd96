//! The trait of pages.

ghost use Rattle.std.specs.Prelude.{◌≡◌, ℕ, ◌<◌, ◌≤◌, Bool, IsSome, IsTrue};
ghost use Rattle.std.specs.Borrow.{sem};
ghost use Rattle.pages.specs.PagesState.{PagesState};
ghost use Rattle.pages.specs.ShownPages.{ShownPages};
ghost use Rattle.pages.specs.PageChanges.{TakesUnused, GivesBack, OpensForChange};
ghost use Rattle.pages.specs.Lending.{LendsToRead, LendsToWrite};

use crate::PAGE_SIZE;
use io_state::Fault;

/// The pages of a file that is open. Page numbers are from 0.
///
/// Each call may answer Device; Damage where a page is not what its place requires.
pub trait Pages {
    /// What the pages show.
    ghost shown: { ShownPages Self };

    /// Lends a page for reading. A page that is in use is shown as it is.
    fn page(&mut self, n: u32) -> Result<&[u8; PAGE_SIZE], Fault>
        requires ready { shown.IsReady self.old }
        ensures* lends { sem 𝓛 (LendsToRead Self.row shown self.entry n result) };

    /// A page is not soon asked for again: where pages are held in memory, it may be the first that
    /// is given up. Nothing is read or written.
    fn demote(&mut self, n: u32)
        requires ready { shown.IsReady self.old }
        ensures asked { (shown.state self.new).asked ≡ (shown.state self.old).asked }
        ensures reads { shown.Reads self.old self.new };

    /// Lends a page for writing. A page that is in use is shown as it is, and holds what is left in
    /// it; every other page stays.
    fn page_mut(&mut self, n: u32) -> Result<&mut [u8; PAGE_SIZE], Fault>
        requires ready { shown.IsReady self.old }
        requires open { shown.CanChange self.old }
        ensures* lends { sem 𝓛 (LendsToWrite Self.row shown self.entry n result) };

    /// Takes a page that was free, or a new one. Its bytes have no meaning. Full where no page is available.
    fn take(&mut self) -> Result<u32, Fault>
        requires ready { shown.IsReady self.old }
        requires open { shown.CanChange self.old }
        ensures { TakesUnused shown self.old self.new result };

    /// Gives back a page that is in use: it is free, and is the next one taken.
    fn give(&mut self, n: u32) -> Result<(), Fault>
        requires ready { shown.IsReady self.old }
        requires open { shown.CanChange self.old }
        ensures { GivesBack shown n self.old self.new result };

    /// How many pages can be taken.
    fn pages_left(&self) -> u64
        ensures { result ≡ (shown.state self.now).available };

    /// How many pages the file has, the header among them: each page in use has a number below.
    fn count(&self) -> u32
        ensures low { (n : ℕ) → IsSome ((shown.state self.now).live n) → n < result };

    /// Opens the gate, unless it is open. It comes before the first change, and shows all pages as they were.
    fn begin(&mut self) -> Result<(), Fault>
        requires ready { shown.IsReady self.old }
        ensures { OpensForChange shown self.old self.new result };

    /// A call that only reads is also one that changes pages, and leaves what is shown.
    ghost reads_nothing: { (a : Self) → shown.Reads a a };

    ghost reads_on: { (a b c : Self) → shown.Reads a b → shown.Reads b c → shown.Reads a c };

    ghost reads_writes: { (a b : Self) → shown.Reads a b → shown.Writes a b };

    ghost reads_live: { (a b : Self) → shown.Reads a b → IsTrue (shown.state b).is_honest
        → (shown.state b).live ≡ (shown.state a).live };

    ghost reads_sound: { (a b : Self) → shown.Reads a b → IsTrue (shown.state b).is_honest
        → (shown.state b).is_sound ≡ (shown.state a).is_sound };

    ghost reads_available: { (a b : Self) → shown.Reads a b
        → (shown.state b).available ≡ (shown.state a).available };

    /// Doing nothing is such a step, and two in a row are one. The gate stays open.
    ghost writes_nothing: { (a : Self) → shown.Writes a a };

    ghost writes_on: { (a b c : Self) → shown.Writes a b → shown.Writes b c → shown.Writes a c };

    ghost writes_begins: { (a b : Self) → shown.Writes a b → shown.Begins a b };

    ghost writes_honestly: { (a b : Self) → shown.Writes a b
        → IsTrue (shown.state b).is_honest → IsTrue (shown.state a).is_honest };

    ghost writes_ready: { (a b : Self) → shown.Writes a b → shown.IsReady a → shown.IsReady b };

    ghost writes_changing: { (a b : Self) → shown.Writes a b → shown.CanChange a → shown.CanChange b };

    /// The count of pages asked for never falls.
    ghost writes_counts: { (a b : Self) → shown.Writes a b → (shown.state a).asked ≤ (shown.state b).asked };

    ghost failed_before: { (a b c : Self) → shown.HasFailed a b → shown.Writes b c → shown.HasFailed a c };

    ghost failed_after: { (a b c : Self) → shown.Writes a b → shown.HasFailed b c → shown.HasFailed a c };

    /// The same of any call.
    ghost begins_on: { (a b c : Self) → shown.Begins a b → shown.Begins b c → shown.Begins a c };

    ghost begins_honestly: { (a b : Self) → shown.Begins a b
        → IsTrue (shown.state b).is_honest → IsTrue (shown.state a).is_honest };

    ghost begins_ready: { (a b : Self) → shown.Begins a b → shown.IsReady a → shown.IsReady b };

    ghost begins_counts: { (a b : Self) → shown.Begins a b → (shown.state a).asked ≤ (shown.state b).asked };

    ghost failed_earlier: { (a b c : Self) → shown.HasFailed a b → shown.Begins b c → shown.HasFailed a c };

    ghost failed_later: { (a b c : Self) → shown.Begins a b → shown.HasFailed b c → shown.HasFailed a c };
}

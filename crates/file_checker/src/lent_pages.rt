//! Pages that are lent.

ghost use Rattle.std.specs.Borrow.{sem};
ghost use Rattle.file_checker.specs.Lending.{LendsPage};

use pages::{PAGE_SIZE, PageList, PageSource};

/// A source of pages that are looked at where they lie.
pub trait LentPages: PageSource {
    /// Page n, if there is one, as `page` would answer it, and lent until the next call.
    fn lend(&mut self, n: u32) -> Option<&[u8; PAGE_SIZE]>
        ensures* lends { sem 𝓛 (LendsPage Self.row Self.has self.entry n result) };
}

impl<'a> LentPages for PageList<'a> {
    fn lend(&mut self, n: u32) -> Option<&[u8; PAGE_SIZE]> {
        self.pages.get(n as usize)
    }
}

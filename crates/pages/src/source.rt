//! Where the pages of a file come from.

ghost use Rattle.std.specs.Prelude.{◌≡◌, ℕ, List};
ghost use Rattle.pages.specs.PageList.{pages_in};
ghost use Rattle.pages.specs.Source.{KeepsItsPages, OfItsPages};

use crate::PAGE_SIZE;

/// The pages of a file that nobody writes, which are read when they are asked for.
///
/// What is told of the pages of a source holds of each list of pages that the source has after the
/// call. There is none where a page was asked for twice and answered otherwise, or where the device
/// has failed; what is told then says nothing.
pub trait PageSource {
    /// These are the pages: each page that was answered is that of the list, and none was wanting
    /// by a fault of the device.
    ghost has: { Self → List (List ℕ) → Type 0 };

    /// Page n, if there is one.
    ///
    /// None also where the device has failed, at this call or before: then the source has no list
    /// of pages any more.
    fn page(&mut self, n: u32) -> Option<[u8; PAGE_SIZE]>
        ensures page { OfItsPages has self.new (λ list. result ≡ pages_in list n) }
        ensures before { KeepsItsPages has self.old self.new };
}

/// The pages of a file in memory.
#[derive(Clone, Copy)]
pub struct PageList<'a> {
    pub pages: &'a [[u8; PAGE_SIZE]],
}

impl<'a> PageSource for PageList<'a> {
    ghost has = { λ source list. source.pages.now ≡ list };

    fn page(&mut self, n: u32) -> Option<[u8; PAGE_SIZE]> {
        self.pages.get(n as usize).copied()
    }
}

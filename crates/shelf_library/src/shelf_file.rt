//! The parts of an open file, and its pages.

ghost use Rattle.std.specs.Prelude.{◌≡◌};
ghost use Rattle.page_alloc.specs.PagedFile.{times_asked};
ghost use Rattle.shelf_library.specs.Standing.{parts_of, pages_behind, recounted};

use open_file::OpenFile;
use page_alloc::PagedFile;

/// An indexed file that is open on a shelf.
#[derive(Drop)]
pub struct ShelfFile {
    pub(crate) file: OpenFile,
    pub(crate) pages: PagedFile,
}

impl ShelfFile {
    /// Its indexes and its heap.
    pub fn parts(&self) -> &OpenFile
        ensures { result.now ≡ parts_of self.now }
    {
        &self.file
    }

    /// How often a page was asked for since the last restart.
    pub fn asked(&self) -> u64
        ensures { result ≡ times_asked (pages_behind self.now) }
    {
        self.pages.cache().asked()
    }

    /// Counts from 0 again.
    pub fn restart_count(&mut self)
        ensures { self.new ≡ recounted self.old }
    {
        self.pages.restart_count();
    }
}

//! The parts of a file: it is opened and closed.

ghost use Rattle.std.specs.NonZero.{non_zero_usize_get};
ghost use Rattle.open_file.specs.Bounds.{FitsItsBytes, IsHeader};
ghost use Rattle.open_file.specs.Headers.{IsHeaderOf};
ghost use Rattle.open_file.specs.Stands.{IsShaped};
ghost use Rattle.shelf_library.specs.Standing.{IsReady};
ghost use Rattle.shelf_library.specs.FileOpening.{CountsPages, OpensByHeader, ClosesHeld};
ghost use Rattle.file_building.specs.Parts.{joined_file, joined_answer, ClosesCounted, FailsToClose};

use io_state::Fault;
use open_file::{Header, OpenFile};
use page_alloc::{PagedFile, Pager};
use page_store::{Shelf, Store};
use pages::PAGE_SIZE;
use std::alloc::Global;
use std::num::NonZeroUsize;

/// What the header of an open file tells, and its pages.
#[derive(Drop)]
pub struct FileParts {
    pub file: OpenFile,
    pub pages: PagedFile,
}

impl FileParts {
    /// Opens the file of a unit that a look has found: it may grow to `limit` pages, of which at
    /// most `frames` are held in memory. Nothing is read.
    ///
    /// Memory.
    pub fn open(
        alloc: Global,
        unit: usize,
        frames: NonZeroUsize,
        limit: u32,
        header: &Header,
    ) -> Result<FileParts, Fault>
        requires header { IsHeader header.now }
        ensures { OpensByHeader unit limit (non_zero_usize_get frames) header.now (joined_answer result) }
    {
        let store = Store {
            unit,
            pages: header.pages,
        };
        let pager = Pager::numbered(header.pages, header.first_free, header.free, limit);
        let pages = PagedFile::open(alloc, store, frames, pager)?;
        Ok(FileParts {
            file: OpenFile::from_header(header),
            pages,
        })
    }

    /// Closes the file: what was changed is written, and its gate is closed. Where nothing was
    /// changed, nothing is written; and nothing is where an earlier change failed, which is
    /// answered Broken.
    ///
    /// Broken; else Device.
    pub fn close<S: Shelf>(&mut self, shelf: &mut S) -> Result<(), Fault>
        requires ready { IsReady (joined_file self.old) (S.state shelf.old) }
        ensures closes { ClosesHeld S.state S.fault_count (joined_file self.old) shelf.old shelf.new result }
        ensures counted { ClosesCounted (joined_file self.old) (S.state shelf.old) (S.state shelf.new) result }
        ensures cause { FailsToClose self.old.file (S.fault_count shelf.old) (S.fault_count shelf.new) result }
    {
        if self.file.is_broken() {
            return Err(Fault::Broken);
        }
        let mut page = [0; PAGE_SIZE];
        self.header().write(&mut page);
        self.pages.close(shelf, &page)
    }

    /// The header that the file is closed with.
    fn header(&self) -> Header
        requires { IsShaped self.now.file }
        ensures told { IsHeaderOf result self.now.file }
        ensures counts { CountsPages result self.now.pages }
        ensures room { FitsItsBytes result }
    {
        let pager = self.pages.pager();
        self.file.header(pager.count(), pager.first(), pager.free())
    }
}

//! A file is made, opened and closed.

ghost use Rattle.std.specs.Prelude.{◌≤◌};
ghost use Rattle.std.specs.NonZero.{non_zero_usize_get};
ghost use Rattle.page_store.specs.ShelfState.{HasUnit};
ghost use Rattle.open_file.specs.Bounds.{FitsItsBytes, IsHeader};
ghost use Rattle.open_file.specs.Headers.{IsHeaderOf};
ghost use Rattle.open_file.specs.Stands.{IsShaped};
ghost use Rattle.shelf_library.specs.Standing.{IsReady};
ghost use Rattle.shelf_library.specs.FileOpening.{CountsPages, MakesHeld, OpensByHeader, ClosesHeld};

use crate::shelf_file::ShelfFile;
use io_state::Fault;
use open_file::{Header, OpenFile};
use page_alloc::{FilePages, PagedFile, Pager};
use page_store::{Shelf, Store};
use pages::PAGE_SIZE;
use record_layout::Schema;
use std::alloc::Global;
use std::num::NonZeroUsize;

impl ShelfFile {
    /// Makes a file without records in the place of whatever the unit's name stands for, with at
    /// most `limit` pages, of which at most `frames` are held in memory. Its gate is open. A fault
    /// leaves the file as it was, or one that is refused.
    ///
    /// Device, Memory, Damage.
    pub fn create<S: Shelf>(
        alloc: Global,
        shelf: &mut S,
        unit: usize,
        frames: NonZeroUsize,
        limit: u32,
        schema: &Schema,
    ) -> Result<ShelfFile, Fault>
        requires unit { HasUnit (S.state shelf.old) unit }
        requires limit { 16 ≤ limit }
        ensures { MakesHeld S.state S.fault_count unit limit (non_zero_usize_get frames) schema.now
            shelf.old shelf.new result }
    {
        // There are at most nine, so that each has a page for its tree.
        let _keys = schema.key_count();
        let mut pages = PagedFile::create(alloc, shelf, unit, frames, limit, &[0; PAGE_SIZE])?;
        let file = OpenFile::create(
            &mut FilePages {
                file: &mut pages,
                shelf,
            },
            schema,
        )?;
        Ok(ShelfFile { file, pages })
    }

    /// Opens the file of a unit that a look has found: it may grow to `limit` pages, of which at
    /// most `frames` are held in memory. Nothing is read.
    ///
    /// Memory.
    pub fn open(
        alloc: Global,
        unit: usize,
        frames: NonZeroUsize,
        limit: u32,
        header: &Header,
    ) -> Result<ShelfFile, Fault>
        requires header { IsHeader header.now }
        ensures { OpensByHeader unit limit (non_zero_usize_get frames) header.now result }
    {
        let store = Store {
            unit,
            pages: header.pages,
        };
        let pager = Pager::numbered(header.pages, header.first_free, header.free, limit);
        let pages = PagedFile::open(alloc, store, frames, pager)?;
        Ok(ShelfFile {
            file: OpenFile::from_header(header),
            pages,
        })
    }

    /// Closes the file: what was changed is written, and its gate is closed. Where nothing was
    /// changed, nothing is written; and nothing is where an earlier change failed, which is
    /// answered Broken.
    ///
    /// Device, Broken.
    pub fn close<S: Shelf>(&mut self, shelf: &mut S) -> Result<(), Fault>
        requires ready { IsReady self.old (S.state shelf.old) }
        ensures { ClosesHeld S.state S.fault_count self.old shelf.old shelf.new result }
    {
        if self.file.is_broken() {
            return Err(Fault::Broken);
        }
        let mut page = [0; PAGE_SIZE];
        self.header().write(&mut page);
        self.pages.close(shelf, &page)
    }

    /// The header that the file is closed with.
    fn header(&self) -> Header
        requires { IsShaped self.now.file }
        ensures told { IsHeaderOf result self.now.file }
        ensures counts { CountsPages result self.now.pages }
        ensures room { FitsItsBytes result }
    {
        let pager = self.pages.pager();
        self.file.header(pager.count(), pager.first(), pager.free())
    }
}

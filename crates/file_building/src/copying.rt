//! A file that is copied from one shelf to another.

ghost use Rattle.std.specs.Prelude.{◌≤◌};
ghost use Rattle.page_store.specs.ShelfState.{HasUnit};
ghost use Rattle.file_building.specs.Copying.{CopiesUnit, CopiesByHeader, CanCopyByHeader};

use crate::closing::close_copy;
use crate::fault::{Copied, CopyingFault};
use crate::file_parts::FileParts;
use crate::filling::fill;
use crate::looking::{find_no_target, source_header};
use open_file::Header;
use page_alloc::PagedFile;
use page_store::Shelf;
use pages::PAGE_SIZE;
use std::alloc::Global;
use std::num::NonZeroUsize;

/// Makes the file of `unit`, which is not there yet, with what the closed file of `source` on
/// another shelf has: the same records with the same stamps. They lie in the order of a key, by its
/// number: 0 is the prime key, and 1 to 8 are the alternate keys. It may grow to `limit` pages; at most
/// `frames` pages of each file are held in memory.
///
/// The file that is copied is only read. The new one is refused until all of it is written.
/// `NoneToCopy`, `NotAccepted`, `NoKey`, `IsThere`: nothing was written. `Reading`: Device; Damage where an
/// entry or a record is not what its place requires. `Writing`: Device, Memory, Full. The new file
/// is absent or refused then, or it is the whole copy where its closing failed.
pub fn copy_closed<S: Shelf, T: Shelf>(
    alloc: Global,
    from: &mut S,
    source: usize,
    to: &mut T,
    unit: usize,
    key: u8,
    frames: NonZeroUsize,
    limit: u32,
) -> Result<Copied, CopyingFault>
    requires source { HasUnit (S.state from.old) source }
    requires target { HasUnit (T.state to.old) unit }
    ensures { CopiesUnit S.state S.fault_count T.state T.fault_count source unit key limit
        from.old from.new to.old to.new result }
{
    let header = match source_header(from, source, key) {
        Ok(header) => header,
        Err(fault) => return Err(fault),
    };
    match find_no_target(to, unit) {
        Ok(()) => copy_by_header(alloc, from, source, &header, to, unit, key, frames, limit),
        Err(fault) => Err(fault),
    }
}

/// Copies the file of this header.
fn copy_by_header<S: Shelf, T: Shelf>(
    alloc: Global,
    from: &mut S,
    source: usize,
    header: &Header,
    to: &mut T,
    unit: usize,
    key: u8,
    frames: NonZeroUsize,
    limit: u32,
) -> Result<Copied, CopyingFault>
    requires { CanCopyByHeader source unit key header.now (S.state from.old) (T.state to.old) }
    ensures { CopiesByHeader S.state S.fault_count T.state T.fault_count source unit limit header.now
        from.old from.new to.old to.new result }
{
    let mut parts = match FileParts::open(alloc, source, frames, header.pages, header) {
        Ok(parts) => parts,
        Err(fault) => return Err(CopyingFault::Writing(fault)),
    };
    let pages = match PagedFile::create(alloc, to, unit, frames, limit, &[0; PAGE_SIZE]) {
        Ok(pages) => pages,
        Err(fault) => return Err(CopyingFault::Writing(fault)),
    };
    match fill(alloc, from, &parts.file, &mut parts.pages, key, to, pages) {
        Ok(copy) => close_copy(to, copy),
        Err(fault) => Err(fault),
    }
}

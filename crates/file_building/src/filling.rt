//! The pages of the new file, filled.

ghost use Rattle.std.specs.Prelude.{◌≡◌};
ghost use Rattle.file_building.specs.Faults.{copying_fault_of};
ghost use Rattle.file_building.specs.Filling.{CanFill, FillsPages};

use crate::copied_pages::copy_file;
use crate::copy_fault::CopyFault;
use crate::fault::CopyingFault;
use crate::file_parts::FileParts;
use open_file::OpenFile;
use page_alloc::{FilePages, PagedFile};
use page_store::Shelf;
use std::alloc::Global;

/// Why pages were not filled.
fn told_fault(fault: CopyFault) -> CopyingFault
    ensures { result ≡ copying_fault_of fault }
{
    match fault {
        CopyFault::Reading(fault) => CopyingFault::Reading(fault),
        CopyFault::Writing(fault) => CopyingFault::Writing(fault),
    }
}

/// Copies an open file of one shelf into new pages on another, its records in the order of a key.
pub fn fill<S: Shelf, T: Shelf>(
    alloc: Global,
    from: &mut S,
    file: &OpenFile,
    pages: &mut PagedFile,
    key: u8,
    to: &mut T,
    target: PagedFile,
) -> Result<FileParts, CopyingFault>
    requires { CanFill file.now key pages.old target (S.state from.old) (T.state to.old) }
    ensures { FillsPages S.state S.fault_count T.state T.fault_count file.now pages.old target
        from.old from.new to.old to.new result }
{
    let mut target = target;
    match copy_file(
        alloc,
        file,
        key,
        &mut FilePages {
            file: pages,
            shelf: from,
        },
        &mut FilePages {
            file: &mut target,
            shelf: to,
        },
    ) {
        Ok(file) => Ok(FileParts {
            file,
            pages: target,
        }),
        Err(fault) => Err(told_fault(fault)),
    }
}

//! The new file, closed.

ghost use Rattle.file_building.specs.Closing.{IsReadyParts, ClosesCopy, ClosesToCount};

use crate::built_end::FileBuilt;
use crate::fault::{Copied, CopyingFault};
use crate::file_parts::FileParts;
use page_store::Shelf;

/// Closes the new file, and tells what it has.
pub fn close_copy<T: Shelf>(shelf: &mut T, parts: FileParts) -> Result<Copied, CopyingFault>
    requires { IsReadyParts parts (T.state shelf.old) }
    ensures { ClosesCopy T.state T.fault_count parts shelf.old shelf.new result }
{
    let mut parts = parts;
    let copied = Copied {
        records: parts.file.prime().count(),
        pages: parts.pages.pager().count(),
    };
    match parts.close(shelf) {
        Ok(()) => Ok(copied),
        Err(fault) => Err(CopyingFault::Writing(fault)),
    }
}

/// Closes the new file, and tells how many records it has.
pub fn close_counted<T: Shelf>(shelf: &mut T, parts: FileParts) -> FileBuilt
    requires { IsReadyParts parts (T.state shelf.old) }
    ensures { ClosesToCount T.state T.fault_count parts shelf.old shelf.new result }
{
    let mut parts = parts;
    let records = parts.file.prime().count();
    match parts.close(shelf) {
        Ok(()) => FileBuilt::Closed { records },
        Err(fault) => FileBuilt::Unclosed { records, fault },
    }
}

//! The two files, as the units of their shelves.

ghost use Rattle.file_building.specs.Attached.{CopiesNamed};

use crate::copying::copy_closed;
use crate::fault::{Copied, CopyingFault};
use io_state::{Fault, FileName};
use page_store::Shelf;
use std::alloc::Global;
use std::num::NonZeroUsize;

/// Copies the file of the empty name of one shelf into a new file of this name on another. Where
/// memory is wanting for the two names, nothing was read or written, and `Writing(Memory)` is told.
pub fn copy_named<S: Shelf, T: Shelf>(
    alloc: Global,
    from: &mut S,
    to: &mut T,
    name: FileName,
    key: u8,
    frames: NonZeroUsize,
    limit: u32,
) -> Result<Copied, CopyingFault>
    ensures { CopiesNamed S.state S.fault_count T.state T.fault_count name.bytes key limit
        from.old from.new to.old to.new result }
{
    if from.attach(&[FileName::new()]).is_err() {
        return Err(CopyingFault::Writing(Fault::Memory));
    }
    if to.attach(&[name]).is_err() {
        return Err(CopyingFault::Writing(Fault::Memory));
    }
    copy_closed(alloc, from, 0, to, 0, key, frames, limit)
}

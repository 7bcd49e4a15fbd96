//! The file that is worked on.

ghost use Rattle.std.specs.Prelude.{◌≡◌, true, IfOk};
ghost use Rattle.page_alloc.specs.PagedFile.{IsOpenOver, is_begun};

use folder_shelf::{EmptyDisk, FolderShelf, RecordedSystem};
use io_state::{Fault, FileName};
use page_alloc::PagedFile;
use page_store::Shelf;
use std::num::NonZeroUsize;

/// Its name.
pub fn file_name() -> FileName {
    let mut name = FileName::new();
    name.push_str("measured");
    name
}

/// The shelf of a folder.
pub fn shelf_over(
    rt: &HostRuntime,
    folder: String,
) -> FolderShelf<RecordedSystem<HostRuntime>, EmptyDisk> {
    FolderShelf::new(RecordedSystem::new(*rt, rt.alloc()), folder)
}

/// A new file on a shelf, with so many of its pages in memory.
pub fn new_file<S: Shelf>(
    rt: &HostRuntime,
    shelf: &mut S,
    frames: NonZeroUsize,
) -> Result<PagedFile, Fault>
    ensures ready { IfOk result (λ file. IsOpenOver file (S.state shelf.new)) }
    ensures changed { IfOk result (λ file. is_begun file ≡ true) }
{
    shelf.attach(&[file_name()])?;
    PagedFile::create(rt.alloc(), shelf, 0, frames, u32::MAX, &[0; 4096])
}

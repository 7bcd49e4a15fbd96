//! The library of a session.
ghost use Rattle.std.specs.Prelude.{◌≡◌, [], string_bytes};
ghost use Rattle.cobix_inside.specs.NewLibrary.{IsNewInside, unasked_within, shown_inside};

use crate::asked_system::AskedSystem;
use crate::library_limits::LibraryLimits;
use folder_shelf::{Disk, EmptyDisk, FolderShelf, RecordedSystem};
use page_store::Shelf;
use shelf_library::ShelfLibrary;
use std::alloc::Global;

/// A folder of a system that is asked.
pub type AskedShelf = FolderShelf<RecordedSystem<AskedSystem>, EmptyDisk>;

/// A library over such a folder.
pub type AskedLibrary = ShelfLibrary<AskedShelf>;

/// A library without units over the folder of this path.
pub fn asked_library(
    alloc: Global,
    system: AskedSystem,
    folder: String,
    limits: LibraryLimits,
) -> AskedLibrary
    ensures new { IsNewInside (unasked_within (⟦<EmptyDisk as Disk>⟧).unseen (string_bytes folder) limits) result }
    ensures units { ((shown_inside ⟦<AskedShelf as Shelf>⟧).world result).units ≡ [] }
{
    let system = RecordedSystem::new(system, alloc);
    let shelf: AskedShelf = FolderShelf::new(system, folder);
    ShelfLibrary::new(alloc, shelf, limits.pages, limits.frames)
}

//! The copy.

ghost use Rattle.std.specs.Prelude.{◌≡◌, [], string_bytes};
ghost use Rattle.folder_shelf.specs.Reading.{AreReading};
ghost use Rattle.folder_shelf.specs.Within.{StaysWithin};
ghost use Rattle.file_building.specs.CopiedPath.{CopiesBySystems, copy_paths};

use crate::attaching::copy_named;
use crate::fault::{Copied, CopyingFault};
use folder_shelf::{Disk, FolderShelf, PathShelf, System};
use io_state::FileName;
use std::alloc::Global;
use std::num::NonZeroUsize;

/// Copies the closed file of a path into a new file of a name in a folder, which may grow to `limit`
/// pages of 4,096 bytes, its records in the order of a key; at most `frames` pages of each file are
/// held in memory. `reader` reads the
/// first file, and `system` has the folder of the second; nothing was asked of either. Both are given
/// back, the reader first, with the record of what they were asked and answered.
///
/// `NoneToCopy`, `NotAccepted`, `NoKey`, `IsThere`: nothing was written. `Reading`: Device; Damage where an
/// entry or a record is not what its place requires. `Writing`: Device, Memory, Full. The new file is
/// absent or refused then, or it is the whole copy where its closing failed.
pub fn copy_path<S: System + Drop, D: Disk>(
    alloc: Global,
    reader: S,
    system: S,
    source: String,
    folder: String,
    name: FileName,
    key: u8,
    frames: NonZeroUsize,
    limit: u32,
) -> (S, S, Result<Copied, CopyingFault>)
    requires unread { (S.state reader).calls ≡ [] }
    requires unasked { (S.state system).calls ≡ [] }
    ensures copies { CopiesBySystems S.state D.Disk.unseen
        (copy_paths (string_bytes source) (string_bytes folder) name.bytes key limit) result }
    ensures reading { AreReading (S.state result.0).calls }
    ensures within { StaysWithin (S.state result.1) }
{
    let mut from: PathShelf<S, D> = PathShelf::new(alloc, reader, source);
    let mut to: FolderShelf<S, D> = FolderShelf::new(system, folder);
    let copied = copy_named(alloc, &mut from, &mut to, name, key, frames, limit);
    (from.into_system(), to.into_system(), copied)
}

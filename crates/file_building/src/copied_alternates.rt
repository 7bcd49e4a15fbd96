//! The indexes of the alternate keys, copied.

ghost use Rattle.std.specs.Prelude.{◌≡◌, false};
ghost use Rattle.open_file.specs.Lent.{LendsPages, LendsToChange};
ghost use Rattle.file_building.specs.CopyFault.{KeepsCopying};
ghost use Rattle.file_building.specs.CopiedEntries.{CopiesIndexes};

use crate::copied_entries::copy_alternate;
use crate::copy_fault::CopyFault;
use arrayvec::ArrayVec;
use key_index::AltIndex;
use open_file::OpenFile;
use pages::Pages;
use std::alloc::Global;

/// Copies the index of each alternate key. An entry has no place, so each stays as it is.
///
/// Damage where an entry is amiss, or an index has more or fewer entries than there are records.
pub fn copy_alternates<P: Pages, Q: Pages>(
    alloc: Global,
    source: &OpenFile,
    from: &mut P,
    to: &mut Q,
) -> Result<ArrayVec<AltIndex, 8>, CopyFault>
    requires lent { LendsPages P.shown from.old source.now }
    requires target { LendsToChange Q.shown to.old }
    ensures copies { CopiesIndexes P.shown Q.shown source.now from.old from.new to.old to.new result }
    ensures keeps { KeepsCopying P.shown Q.shown false from.old from.new to.old to.new result }
{
    let records = source.prime().count();
    let count = source.alternate_count();
    let mut alternates = ArrayVec::new();
    for j in 0..count {
        let index = source.alternate(j + 1);
        let copy = copy_alternate(alloc, &index, records, from, to)?;
        alternates.push(copy);
    }
    Ok(alternates)
}

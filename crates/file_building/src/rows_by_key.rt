//! The rows of a file, copied in the order of any key.

ghost use Rattle.std.specs.Prelude.{◌<◌, false, length};
ghost use Rattle.open_file.specs.Fields.{has_broken, file_schema};
ghost use Rattle.open_file.specs.Lent.{LendsPages, LendsToChange, IsAlternate};
ghost use Rattle.file_building.specs.CopyFault.{KeepsCopying};
ghost use Rattle.file_building.specs.CopiedRows.{CopiesRows};

use crate::copy_fault::CopyFault;
use crate::leading::lead_to_records;
use crate::moving::move_records;
use crate::rows::copy_rows;
use crate::rows_builder::RowParts;
use open_file::OpenFile;
use pages::Pages;
use std::alloc::Global;

/// Copies the rows, with their records in the order of a key: 0 is the prime key, and 1 to 8 are the
/// alternate keys.
///
/// Damage where an entry is amiss, or its place has no record, or an index has more or fewer entries
/// than there are records.
pub fn copy_rows_by<P: Pages, Q: Pages>(
    alloc: Global,
    source: &OpenFile,
    key: u8,
    from: &mut P,
    to: &mut Q,
) -> Result<RowParts, CopyFault>
    requires lent { LendsPages P.shown from.old source.now }
    requires key { key < length (file_schema source.now).keys }
    requires target { LendsToChange Q.shown to.old }
    ensures copies { CopiesRows P.shown Q.shown source.now from.old from.new to.old to.new result }
    ensures keeps { KeepsCopying P.shown Q.shown (has_broken source.now) from.old from.new to.old to.new
        result }
{
    if key == 0 {
        copy_rows(alloc, source, from, to)
    } else {
        copy_rows_by_alternate(alloc, source, usize::from(key), from, to)
    }
}

/// Copies them in the order of an alternate key: first the records, and then the prime index.
fn copy_rows_by_alternate<P: Pages, Q: Pages>(
    alloc: Global,
    source: &OpenFile,
    key: usize,
    from: &mut P,
    to: &mut Q,
) -> Result<RowParts, CopyFault>
    requires lent { LendsPages P.shown from.old source.now }
    requires key { IsAlternate source.now key }
    requires target { LendsToChange Q.shown to.old }
    ensures copies { CopiesRows P.shown Q.shown source.now from.old from.new to.old to.new result }
    ensures keeps { KeepsCopying P.shown Q.shown false from.old from.new to.old to.new result }
{
    let moved = move_records(alloc, source, key, from, to)?;
    let prime = lead_to_records(alloc, source, &moved.places, from, to)?;
    Ok(RowParts {
        heap: moved.heap,
        prime,
    })
}

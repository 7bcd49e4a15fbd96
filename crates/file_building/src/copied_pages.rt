//! A file that is copied.

ghost use Rattle.std.specs.Prelude.{◌<◌, length};
ghost use Rattle.open_file.specs.Fields.{file_schema};
ghost use Rattle.open_file.specs.Lent.{LendsPages, LendsToChange};
ghost use Rattle.file_building.specs.Copies.{CopiesFile};

use crate::copied_alternates::copy_alternates;
use crate::copied_opening::open_copy;
use crate::copy_fault::CopyFault;
use crate::rows_by_key::copy_rows_by;
use io_state::Fault;
use open_file::OpenFile;
use pages::Pages;
use std::alloc::Global;

/// Copies an open file into pages of which none is in use: the same rows, with the same stamps,
/// their records in the order of a key. The file is only read. Each page of the copy is taken once, and
/// written once.
///
/// `Reading`: Broken where an earlier change of the file failed; Device; Damage where an entry or a
/// record is not what its place requires. `Writing`: Device; Full where no page is left; Memory. A
/// fault may leave pages taken.
pub fn copy_file<P: Pages, Q: Pages>(
    alloc: Global,
    source: &OpenFile,
    key: u8,
    from: &mut P,
    to: &mut Q,
) -> Result<OpenFile, CopyFault>
    requires lent { LendsPages P.shown from.old source.now }
    requires key { key < length (file_schema source.now).keys }
    requires target { LendsToChange Q.shown to.old }
    ensures { CopiesFile P.shown Q.shown source.now from.old from.new to.old to.new result }
{
    if source.is_broken() {
        return Err(CopyFault::Reading(Fault::Broken));
    }
    let rows = copy_rows_by(alloc, source, key, from, to)?;
    let alternates = copy_alternates(alloc, source, from, to)?;
    // Each page in use has a number below the count, which a header can tell.
    let _pages = to.count();
    match open_copy(source, &rows.heap, &rows.prime, &alternates) {
        Ok(copy) => Ok(copy),
        Err(fault) => Err(CopyFault::Writing(fault)),
    }
}

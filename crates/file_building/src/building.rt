//! A new file of a shelf that is built from records.

ghost use Rattle.std.specs.Prelude.{◌≡◌, [], IfOk};
ghost use Rattle.page_store.specs.ShelfState.{HasUnit};
ghost use Rattle.file_building.specs.BuiltUnit.{BuildsUnit, WhereAllTaken};

use crate::built_end::FileBuilt;
use crate::built_parts::{BuiltParts, build_parts};
use crate::closing::close_counted;
use crate::record_source::RecordSource;
use io_state::Fault;
use page_alloc::PagedFile;
use page_store::Shelf;
use pages::PAGE_SIZE;
use record_layout::Schema;
use std::alloc::Global;
use std::num::NonZeroUsize;

/// Makes the file of `unit`, or makes it anew, gives it the records of a source, which gave none yet,
/// until it gives no more, and closes it. It may grow to `limit` pages, of which at most `frames` are
/// held in memory. For each record as many bytes are held as the shortest one has, and 48 more, while
/// these are at most `memory` in all. Above that none of these is held: the new file is read again for
/// each alternate key, as often as its entries, of which at most `memory` bytes are held at once, ask for.
///
/// The file is refused until all of it is written. `OutOfOrder`, `Clash`: it is left so. `Unclosed`: it is
/// refused, or whole and closed, and the fault is Device. Device; Full; Memory, also where `memory` is too
/// few bytes for a few entries of a key: the file is as it was or refused then.
pub fn build_closed<S: Shelf, R: RecordSource>(
    alloc: Global,
    shelf: &mut S,
    unit: usize,
    schema: &Schema,
    records: &mut R,
    frames: NonZeroUsize,
    limit: u32,
    memory: usize,
) -> Result<FileBuilt, Fault>
    requires unit { HasUnit (S.state shelf.old) unit }
    requires schema { R.schema records.old ≡ schema.now }
    requires begun { R.given records.old ≡ [] }
    ensures builds { BuildsUnit S.state S.fault_count unit limit schema.now (R.given records.new)
        shelf.old shelf.new result }
    ensures all { IfOk result (WhereAllTaken (R.has_ended records.new)) }
    ensures reads { R.reads_on records.old records.new }
{
    let pages = match PagedFile::create(alloc, shelf, unit, frames, limit, &[0; PAGE_SIZE]) {
        Ok(pages) => pages,
        Err(fault) => return Err(fault),
    };
    match build_parts(alloc, shelf, pages, schema, records, memory) {
        Ok(BuiltParts::File(parts)) => Ok(close_counted(shelf, parts)),
        Ok(BuiltParts::OutOfOrder) => Ok(FileBuilt::OutOfOrder),
        Ok(BuiltParts::Clash) => Ok(FileBuilt::Clash),
        Err(fault) => Err(fault),
    }
}

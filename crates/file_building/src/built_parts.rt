//! The parts of a new file, built from the records of a source.

ghost use Rattle.std.specs.Prelude.{◌≡◌, [], IfOk};
ghost use Rattle.file_building.specs.BuiltParts.{CanBuildParts, BuildsParts, WhereParts};

use crate::built_file::{BuiltFile, build_file};
use crate::file_parts::FileParts;
use crate::record_source::RecordSource;
use io_state::Fault;
use page_alloc::{FilePages, PagedFile};
use page_store::Shelf;
use record_layout::Schema;
use std::alloc::Global;

/// What became of the records of a source.
#[derive(Drop)]
pub enum BuiltParts {
    /// The file that they make, added one after another, and its pages.
    File(FileParts),
    /// The prime value of the last one does not come after that of the one before it.
    OutOfOrder,
    /// One of them has the value of another in an alternate key that is to be unique.
    Clash,
}

/// Builds a file from the records of a source, in new pages on a shelf. At most `memory` bytes are held
/// of the records.
pub fn build_parts<S: Shelf, R: RecordSource>(
    alloc: Global,
    shelf: &mut S,
    target: PagedFile,
    schema: &Schema,
    records: &mut R,
    memory: usize,
) -> Result<BuiltParts, Fault>
    requires target { CanBuildParts target (S.state shelf.old) }
    requires schema { R.schema records.old ≡ schema.now }
    requires begun { R.given records.old ≡ [] }
    ensures builds { BuildsParts S.state S.fault_count target schema.now (R.given records.new)
        shelf.old shelf.new result }
    ensures all { IfOk result (WhereParts (R.has_ended records.new)) }
    ensures reads { R.reads_on records.old records.new }
{
    let mut target = target;
    match build_file(
        alloc,
        &mut FilePages {
            file: &mut target,
            shelf,
        },
        schema,
        records,
        memory,
    ) {
        Ok(BuiltFile::File(file)) => Ok(BuiltParts::File(FileParts {
            file,
            pages: target,
        })),
        Ok(BuiltFile::OutOfOrder) => Ok(BuiltParts::OutOfOrder),
        Ok(BuiltFile::Clash) => Ok(BuiltParts::Clash),
        Err(fault) => Err(fault),
    }
}

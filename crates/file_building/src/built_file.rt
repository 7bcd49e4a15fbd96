//! A file that is built from the records of a source.

ghost use Rattle.std.specs.Prelude.{◌≡◌, [], IfOk};
ghost use Rattle.open_file.specs.Lent.{LendsToChange};
ghost use Rattle.file_building.specs.Building.{builder_schema};
ghost use Rattle.file_building.specs.BuiltFile.{PushesGiven, BuildsFile, WherePushed, WhereBuilt};

use crate::file_builder::{Built, FileBuilder, Pushed};
use crate::record_source::RecordSource;
use io_state::Fault;
use open_file::OpenFile;
use pages::Pages;
use record_layout::Schema;
use std::alloc::Global;

/// What became of the records of a source.
#[derive(Drop)]
pub enum BuiltFile {
    /// The file that they make, added one after another.
    File(OpenFile),
    /// The prime value of the last one does not come after that of the one before it.
    OutOfOrder,
    /// One of them has the value of another in an alternate key that is to be unique.
    Clash,
}

/// Builds a file from the records of a source, in pages of which none is in use. At most `memory` bytes
/// are held of the records: where these are too few, the rows are read again for each alternate key.
///
/// Device; Full where no page is left; Memory.
pub fn build_file<P: Pages, R: RecordSource>(
    alloc: Global,
    pages: &mut P,
    schema: &Schema,
    records: &mut R,
    memory: usize,
) -> Result<BuiltFile, Fault>
    requires target { LendsToChange P.shown pages.old }
    requires schema { R.schema records.old ≡ schema.now }
    requires begun { R.given records.old ≡ [] }
    ensures builds { BuildsFile P.shown pages.old pages.new schema.now (R.given records.new) result }
    ensures all { IfOk result (WhereBuilt (R.has_ended records.new)) }
    ensures reads { R.reads_on records.old records.new }
{
    let mut builder = FileBuilder::new(alloc, schema, memory);
    match push_records(&mut builder, pages, records) {
        Ok(Pushed::Done) => match builder.finish(alloc, pages) {
            Ok(Built::File(file)) => Ok(BuiltFile::File(file)),
            Ok(Built::Clash) => Ok(BuiltFile::Clash),
            Err(fault) => Err(fault),
        },
        Ok(Pushed::OutOfOrder) => Ok(BuiltFile::OutOfOrder),
        Err(fault) => Err(fault),
    }
}

/// Puts the records of a source into a file, one after another.
fn push_records<P: Pages, R: RecordSource>(
    builder: &mut FileBuilder,
    pages: &mut P,
    records: &mut R,
) -> Result<Pushed, Fault>
    requires target { LendsToChange P.shown pages.old }
    requires schema { R.schema records.old ≡ builder_schema builder.old }
    ensures pushes { PushesGiven P.shown pages.old pages.new builder.old builder.new
        (R.given records.old) (R.given records.new) result }
    ensures all { IfOk result (WherePushed (R.has_ended records.new)) }
    ensures reads { R.reads_on records.old records.new }
{
    for _ in 0..usize::MAX {
        if !records.next() {
            return Ok(Pushed::Done);
        }
        match builder.push(pages, records.latest_record()) {
            Ok(Pushed::Done) => {}
            Ok(Pushed::OutOfOrder) => return Ok(Pushed::OutOfOrder),
            Err(fault) => return Err(fault),
        }
    }
    if records.next() {
        Err(Fault::Memory)
    } else {
        Ok(Pushed::Done)
    }
}

//! The schema of a file, held against that of a deck.
ghost use Rattle.std.specs.Prelude.{◌≡◌, ◌≢◌, Ok, IfOk, IfErr, OnErr};
ghost use Rattle.file_reports.specs.Differences.{differences};
ghost use Rattle.file_reports.specs.Comparing.{TellsDifferences, ComparesReader};
ghost use Rattle.file_reports.specs.SchemaListing.{WritesSchemaLines};

use crate::differences::difference_lines;
use crate::first_page::Refusal;
use crate::schema_listing::{ListingFault, header_in, read_first};
use open_file::Header;
use record_layout::Schema;
use std::alloc::Global;
use std::io::{Read, Write};

/// Whether the schema of a file is that of a deck.
#[derive(Clone, Copy, Debug, PartialEq, Eq)]
pub enum Comparison {
    /// It is. Nothing was written.
    Same,
    /// It is not: OPEN in the deck would answer 39. A line was written for each difference.
    Different,
}

/// Writes the lines of the differences.
fn write_differences<W: Write>(
    alloc: Global,
    file: &Schema,
    deck: &Schema,
    out: &mut W,
) -> Result<(), ListingFault>
    ensures { WritesSchemaLines out.old out.new (W.contents out.old) (W.contents out.new)
        (differences file.now deck.now) result }
{
    let Ok(lines) = difference_lines(alloc, file, deck) else {
        return Err(ListingFault::Memory);
    };
    match out.write_all(&lines) {
        Ok(()) => Ok(()),
        Err(_) => Err(ListingFault::Output),
    }
}

/// Writes the lines of the differences of the schema of a file by its header, if there are any.
fn compare_header<W: Write>(
    alloc: Global,
    header: &Header,
    deck: &Schema,
    out: &mut W,
) -> Result<Comparison, ListingFault>
    ensures told { IfOk result (λ told. TellsDifferences deck.now (W.contents out.old) (W.contents out.new)
        (Ok header.now) (Ok told)) }
    ensures same { IfOk result (λ told. told ≡ Comparison.Same → out.new ≡ out.old) }
    ensures fault { IfErr result (λ fault. fault ≢ ListingFault.Output → out.new ≡ out.old) }
{
    if header.schema.same(deck) {
        return Ok(Comparison::Same);
    }
    write_differences(alloc, &header.schema, deck, out)?;
    Ok(Comparison::Different)
}

/// Writes a line for each difference of the schema of the file that a reader has from that of a
/// deck, by the first page of the file alone; or writes nothing, and tells that they are the same,
/// or why the page is none.
///
/// Input where the reader fails; Memory. Both leave the writer as it was. Output where the writer
/// fails: it may have a part of the lines.
pub fn compare_schema<R: Read + Drop, W: Write>(
    alloc: Global,
    reader: R,
    deck: &Schema,
    out: &mut W,
) -> Result<Result<Comparison, Refusal>, ListingFault>
    ensures told { ComparesReader deck.now (R.remaining reader) (W.contents out.old) (W.contents out.new)
        result }
    ensures same { IfOk result (λ told. told ≡ Ok Comparison.Same → out.new ≡ out.old) }
    ensures refused { IfOk result (λ told. OnErr told (out.new ≡ out.old)) }
    ensures fault { IfErr result (λ fault. fault ≢ ListingFault.Output → out.new ≡ out.old) }
{
    let bytes = read_first(alloc, reader)?;
    match header_in(&bytes) {
        Ok(header) => {
            let told = compare_header(alloc, &header, deck, out)?;
            Ok(Ok(told))
        }
        Err(refusal) => Ok(Err(refusal)),
    }
}

//! What is told of a file by its first page.
ghost use Rattle.std.specs.Prelude.{◌≡◌, ◌≢◌, take, IfOk, IfErr, OnErr};
ghost use Rattle.std.specs.Option.{IfSome};
ghost use Rattle.open_file.specs.Bounds.{IsHeader};
ghost use Rattle.file_reports.specs.SchemaLines.{all_header_lines};
ghost use Rattle.file_reports.specs.SchemaListing.{read_front, WritesSchemaLines, TellsOfReader};

use crate::first_page::{Refusal, header_of};
use crate::schema_text::schema_lines;
use open_file::Header;
use pages::PAGE_SIZE;
use std::alloc::Global;
use std::io::{self, ErrorKind, Read, Write};
use thiserror::Error;

/// Why nothing is told of a file, or not all.
#[derive(Clone, Copy, Debug, PartialEq, Eq, Error)]
pub enum ListingFault {
    #[error("the file cannot be read")]
    Input,
    #[error("the lines cannot be written")]
    Output,
    #[error("out of memory")]
    Memory,
}

impl ListingFault {
    /// Why a file was not read.
    fn of_input(error: &io::Error) -> ListingFault
        ensures { result ≢ ListingFault.Output }
    {
        if error.kind() == ErrorKind::OutOfMemory {
            ListingFault::Memory
        } else {
            ListingFault::Input
        }
    }
}

/// The bytes of a reader, as many as a page has at most.
pub fn read_first<R: Read + Drop>(alloc: Global, reader: R) -> Result<Vec<u8>, ListingFault>
    ensures bytes { IfSome (R.remaining reader) (λ all. IfOk result (λ bytes. bytes.items ≡ take 4096 all)) }
    ensures fault { IfErr result (λ fault. fault ≢ ListingFault.Output) }
{
    let mut bytes = Vec::new(alloc);
    let mut first = reader.take(PAGE_SIZE as u64);
    match first.read_to_end(&mut bytes) {
        Ok(_) => Ok(bytes),
        Err(error) => Err(ListingFault::of_input(&error)),
    }
}

/// The header of a file by its first bytes, as many as a page has, or all that there are.
pub fn header_in(bytes: &[u8]) -> Result<Header, Refusal>
    ensures header { result ≡ read_front bytes.now }
    ensures allowed { IfOk result IsHeader }
{
    if bytes.len() < PAGE_SIZE {
        return Err(Refusal::Short);
    }
    let mut page = [0; PAGE_SIZE];
    page.copy_from_slice(&bytes[..PAGE_SIZE]);
    header_of(&page)
}

/// Writes the lines that tell of a file by its header.
fn write_lines<W: Write>(alloc: Global, header: &Header, out: &mut W) -> Result<(), ListingFault>
    requires { IsHeader header.now }
    ensures { WritesSchemaLines out.old out.new (W.contents out.old) (W.contents out.new)
        (all_header_lines header.now) result }
{
    let Ok(lines) = schema_lines(alloc, header) else {
        return Err(ListingFault::Memory);
    };
    match out.write_all(&lines) {
        Ok(()) => Ok(()),
        Err(_) => Err(ListingFault::Output),
    }
}

/// Writes the lines that tell of the file that a reader has, by its first page alone; or writes
/// nothing, and tells why the page is none.
///
/// Input where the reader fails; Memory. Both leave the writer as it was. Output where the writer
/// fails: it may have a part of the lines.
pub fn list_schema<R: Read + Drop, W: Write>(
    alloc: Global,
    reader: R,
    out: &mut W,
) -> Result<Result<(), Refusal>, ListingFault>
    ensures told { TellsOfReader (R.remaining reader) (W.contents out.old) (W.contents out.new) result }
    ensures refused { IfOk result (λ told. OnErr told (out.new ≡ out.old)) }
    ensures fault { IfErr result (λ fault. fault ≢ ListingFault.Output → out.new ≡ out.old) }
{
    let bytes = read_first(alloc, reader)?;
    match header_in(&bytes) {
        Ok(header) => {
            write_lines(alloc, &header, out)?;
            Ok(Ok(()))
        }
        Err(refusal) => Ok(Err(refusal)),
    }
}

//! The schema of a file, held against that of a file of a deck.
ghost use Rattle.file_reports.specs.SchemaListing.{read_of_file};
ghost use Rattle.folder_shelf.specs.Reading.{ByReads};
ghost use Rattle.file_commands.specs.Schema.{ComparesAs, ComparesFileAlone, IsOfComparison, ComesOfFile};
ghost use Rattle.file_commands.specs.Schema.{ComparesPaths};
ghost use Rattle.command_support.specs.Front.{ReadBy};

use crate::first_page::fault_of;
use command_support::{CommandFault, Outcome, deck_at, file_in, read_first_page};
use file_reports::compare_schema;
use folder_shelf::System;
use record_layout::Schema;
use std::alloc::Global;
use std::io::{Read, Write};

/// Writes how the schema of the file that begins with these bytes differs from that of a deck, by its
/// first page alone; or nothing, where that page is none.
fn write_differences<W: Write>(
    alloc: Global,
    bytes: &[u8],
    deck: &Schema,
    out: &mut W,
) -> Result<Outcome, CommandFault>
    ensures { ComesOfFile IsOfComparison
        (ComparesAs deck.now (W.contents out.old) (W.contents out.new) (read_of_file bytes.now)) result }
{
    match compare_schema(alloc, bytes, deck, out) {
        Ok(Ok(told)) => Ok(Outcome::SchemaCompared(told)),
        Ok(Err(refusal)) => Ok(Outcome::SchemaRefused(refusal)),
        Err(fault) => Err(fault_of(fault)),
    }
}

/// Writes how the schema of the file of a path, as long as no run changes it, differs from that of a deck.
fn compare_file<S: System, W: Write>(
    system: &mut S,
    alloc: Global,
    path: &str,
    deck: &Schema,
    out: &mut W,
) -> Result<Outcome, CommandFault>
    ensures { ByReads (ComparesFileAlone path.now deck.now W.contents out.old out.new result)
        (S.state system.old) (S.state system.new) }
{
    let bytes = match read_first_page(system, path) {
        Ok(bytes) => bytes,
        Err(fault) => return Err(fault),
    };
    write_differences(alloc, bytes.as_slice(), deck, out)
}

/// Writes how the schema of the file of a path, as long as no run changes it, differs from that of
/// a file of the deck in the file of another path. `Deck`, `NoSuchFile`: the deck is refused, or
/// does not have the file. Nothing was written.
pub fn compare_path<S: System, I: Read, W: Write>(
    system: &mut S,
    alloc: Global,
    path: &str,
    deck: &str,
    name: &str,
    input: &mut I,
    out: &mut W,
) -> Result<Outcome, CommandFault>
    ensures { ReadBy S.state system.old system.new (ComparesPaths (I.remaining input.old)
        path.now deck.now name.now W.contents out.old out.new result) }
{
    let deck = match deck_at(system, alloc, deck, input) {
        Ok(deck) => deck,
        Err(fault) => return Err(fault),
    };
    let described = match file_in(&deck, name) {
        Ok(described) => described,
        Err(fault) => return Err(fault),
    };
    compare_file(system, alloc, path, &described.schema, out)
}

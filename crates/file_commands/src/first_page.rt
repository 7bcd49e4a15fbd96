//! The schema of a file, by its first page, told or held against that of a file of a deck.
ghost use Rattle.std.specs.Prelude.{◌≡◌, []};
ghost use Rattle.file_reports.specs.SchemaListing.{read_of_file};
ghost use Rattle.folder_shelf.specs.Reading.{ByReads};
ghost use Rattle.file_commands.specs.Schema.{TellsAs, TellsFile, IsOfSchema, ComesOfFile, AnswersSchema};
ghost use Rattle.file_commands.specs.Schema.{listing_told_as};
ghost use Rattle.command_support.specs.Front.{ReadBy};
ghost use Rattle.command_support.specs.Status.{status_of};

use crate::comparing::compare_path;
use command_support::{CommandFault, FormFault, Outcome, read_first_page};
use file_reports::{ListingFault, list_schema};
use folder_shelf::System;
use std::alloc::Global;
use std::io::{Read, Write};

/// Why nothing is told of a file, or not all.
pub fn fault_of(fault: ListingFault) -> CommandFault
    ensures told { result ≡ listing_told_as fault }
    ensures status { status_of result ≡ 4 }
{
    match fault {
        ListingFault::Input => CommandFault::Input,
        ListingFault::Output => CommandFault::Output,
        ListingFault::Memory => CommandFault::Memory,
    }
}

/// Writes the lines that tell of the file that begins with these bytes, by its first page alone; or
/// nothing, where that page is none.
fn write_schema<W: Write>(alloc: Global, bytes: &[u8], out: &mut W) -> Result<Outcome, CommandFault>
    ensures { ComesOfFile IsOfSchema
        (TellsAs (W.contents out.old) (W.contents out.new) (read_of_file bytes.now)) result }
{
    match list_schema(alloc, bytes, out) {
        Ok(Ok(())) => Ok(Outcome::SchemaTold),
        Ok(Err(refusal)) => Ok(Outcome::SchemaRefused(refusal)),
        Err(fault) => Err(fault_of(fault)),
    }
}

/// Writes the schema of the file of a path, as long as no run changes it.
fn schema_path<S: System, W: Write>(
    system: &mut S,
    alloc: Global,
    path: &str,
    out: &mut W,
) -> Result<Outcome, CommandFault>
    ensures { ByReads (λ calls. ComesOfFile IsOfSchema
        (TellsFile path.now W.contents out.old out.new [] calls) result)
        (S.state system.old) (S.state system.new) }
{
    let bytes = match read_first_page(system, path) {
        Ok(bytes) => bytes,
        Err(fault) => return Err(fault),
    };
    write_schema(alloc, bytes.as_slice(), out)
}

#[tactic(auto, using(folder_shelf::proofs::ReadingLemmas::by_none))]
/// Writes the schema of the file of a path, or how it differs from that of a file of a deck.
pub fn schema<S: System, I: Read, W: Write>(
    system: &mut S,
    alloc: Global,
    path: &str,
    deck: Option<&str>,
    name: Option<&str>,
    input: &mut I,
    out: &mut W,
) -> Result<Outcome, CommandFault>
    ensures { ReadBy S.state system.old system.new (AnswersSchema (I.remaining input.old)
        path.now deck.entry name.entry W.contents out.old out.new result) }
{
    match (deck, name) {
        (None, None) => schema_path(system, alloc, path, out),
        (Some(deck), Some(name)) => compare_path(system, alloc, path, deck, name, input, out),
        (Some(_), None) | (None, Some(_)) => Err(CommandFault::Form(FormFault::HalfDeck)),
    }
}

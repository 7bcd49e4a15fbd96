//! The lines that tell how the schema of a file differs from that of a deck.
ghost use Rattle.std.specs.Prelude.{◌≡◌, string_bytes, IfOk, IfErr};
ghost use Rattle.file_reports.specs.SchemaListing.{read_of_file};
ghost use Rattle.folder_shelf.specs.Reading.{ByReads};
ghost use Rattle.folder_shelf.specs.SystemState.{file_path};
ghost use Rattle.file_commands.specs.Differing.{differences_of_page, GivesDifferences};

use command_support::CommandFault;
use file_reports::compare_schema;
use folder_shelf::System;
use io_state::FileName;
use pages::PAGE_SIZE;
use record_layout::Schema;
use std::alloc::Global;
use streams::Silent;

/// A line for each difference of the schema of the file that begins with these bytes from that of a
/// deck; none, where its first page is none.
fn differences_of(alloc: Global, bytes: &[u8], deck: &Schema) -> Result<Vec<u8>, CommandFault>
    ensures lines { IfOk result (λ lines.
        lines.items ≡ differences_of_page deck.now (read_of_file bytes.now)) }
    ensures fault { IfErr result (λ fault. fault ≡ CommandFault.Memory) }
{
    let mut lines = Vec::new(alloc);
    match compare_schema(alloc, bytes, deck, &mut lines) {
        Ok(_) => Ok(lines),
        Err(_) => Err(CommandFault::Memory),
    }
}

/// A line for each difference of the schema of the file of a path, as long as no run changes it, from
/// that of a deck, by its first page alone. None where that page is none, or cannot be read, of which
/// the system keeps why. `Memory`: the lines were not had.
pub fn differences_at<S: System>(
    system: &mut S,
    alloc: Global,
    path: &str,
    deck: &Schema,
) -> Result<Vec<u8>, CommandFault>
    ensures { ByReads (GivesDifferences path.now deck.now result)
        (S.state system.old) (S.state system.new) }
{
    match system.take_shared(path, PAGE_SIZE, &mut Silent) {
        Ok(first) => differences_of(alloc, first.as_slice(), deck),
        Err(_) => Ok(Vec::new(alloc)),
    }
}

/// The path of the file of a name in a folder. `Memory`.
pub fn path_in(alloc: Global, folder: &str, name: &FileName) -> Result<String, CommandFault>
    ensures path { IfOk result (λ path. string_bytes path ≡ file_path folder.now name.now.bytes) }
    ensures fault { IfErr result (λ fault. fault ≡ CommandFault.Memory) }
{
    match [folder, name.as_str()].join(alloc, "/") {
        Ok(path) => Ok(path),
        Err(_) => Err(CommandFault::Memory),
    }
}

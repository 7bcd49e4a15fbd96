//! The deck in a file as a COBOL program.
ghost use Rattle.std.specs.Prelude.{◌≡◌};
ghost use Rattle.folder_shelf.specs.Reading.{ByReads};
ghost use Rattle.file_commands.specs.Listed.{form_of, IsInCobol, GivesText, WritesCobolAt};

use crate::deck_list::refused;
use crate::text::write_text;
use cobol_program::{SourceForm, write_program};
use command_support::{CommandFault, Outcome, read_deck_bytes};
use folder_shelf::System;
use std::alloc::Global;
use std::io::{Read, Write};

/// The program of the deck that the bytes are.
fn program_of(alloc: Global, bytes: &[u8], form: SourceForm) -> Result<String, CommandFault>
    ensures { GivesText (IsInCobol bytes.now form) bytes.now result }
{
    match write_program(alloc, bytes, form) {
        Ok(text) => Ok(text),
        Err(fault) => Err(refused(alloc, bytes, fault)),
    }
}

/// The form that a flag asks for.
fn form_of(fixed: bool) -> SourceForm
    ensures { result ≡ form_of fixed }
{
    if fixed {
        SourceForm::Fixed
    } else {
        SourceForm::Free
    }
}

#[tactic(auto, using(crate::proofs::ListLemmas::not_read, crate::proofs::ListLemmas::not_written))]
/// Writes the deck in the file of a path, or in the input where the path is a hyphen, as a COBOL
/// program. `NotListed`: it is refused, and nothing was written.
pub fn write_cobol<S: System, I: Read, W: Write>(
    system: &mut S,
    alloc: Global,
    path: &str,
    fixed: bool,
    input: &mut I,
    out: &mut W,
) -> Result<Outcome, CommandFault>
    ensures { ByReads (WritesCobolAt (I.remaining input.old) path.now fixed W.contents out.old out.new result)
        (S.state system.old) (S.state system.new) }
{
    let bytes = match read_deck_bytes(system, alloc, path, input) {
        Ok(bytes) => bytes,
        Err(fault) => return Err(fault),
    };
    let text = match program_of(alloc, bytes.as_slice(), form_of(fixed)) {
        Ok(text) => text,
        Err(fault) => return Err(fault),
    };
    write_text(&text, Outcome::InCobol, out)
}

//! The list of the deck in a file.
ghost use Rattle.std.specs.Prelude.{◌≢◌};
ghost use Rattle.deck_reader.specs.declared.deck.Deck.{Deck as ToldDeck};
ghost use Rattle.deck_reader.specs.Deck.{IsDeck};
ghost use Rattle.deck_listing.specs.Listing.{Lists};
ghost use Rattle.folder_shelf.specs.Reading.{ByReads};
ghost use Rattle.file_commands.specs.Listed.{IsRefusalOf, IsListFault, GivesText, ListsDeckAt};

use crate::text::write_text;
use command_support::{CommandFault, Outcome, RefusedDeck, read_deck_bytes};
use deck_listing::{diagnose, list_deck};
use file_control::DeckFault;
use folder_shelf::System;
use std::alloc::Global;
use std::io::{Read, Write};

/// The code of a deck's fault that is want of memory.
const MEMORY_CODE: u8 = 8;

/// The fault of bytes that are no deck, with the words for it; or want of memory.
pub fn refused(alloc: Global, bytes: &[u8], fault: DeckFault) -> CommandFault
    requires none { fault.code ≢ 8 → (deck : ToldDeck) → IsDeck bytes.now deck → ⊥ }
    ensures refused { IsRefusalOf bytes.now result }
    ensures fault { IsListFault result }
{
    if fault.code == MEMORY_CODE {
        return CommandFault::Memory;
    }
    match diagnose(alloc, bytes, fault) {
        Ok(faults) => CommandFault::NotListed(RefusedDeck { fault, faults }),
        Err(_) => CommandFault::Memory,
    }
}

/// The list of the deck that the bytes are.
fn list(alloc: Global, bytes: &[u8]) -> Result<String, CommandFault>
    ensures { GivesText (Lists bytes.now) bytes.now result }
{
    match list_deck(alloc, bytes) {
        Ok(text) => Ok(text),
        Err(fault) => Err(refused(alloc, bytes, fault)),
    }
}

#[tactic(auto, using(crate::proofs::ListLemmas::not_read, crate::proofs::ListLemmas::not_written))]
/// Writes the list of the deck in the file of a path, or in the input where the path is a hyphen.
/// `NotListed`: it is refused, and nothing was written.
pub fn list_path<S: System, I: Read, W: Write>(
    system: &mut S,
    alloc: Global,
    path: &str,
    input: &mut I,
    out: &mut W,
) -> Result<Outcome, CommandFault>
    ensures { ByReads (ListsDeckAt (I.remaining input.old) path.now W.contents out.old out.new result)
        (S.state system.old) (S.state system.new) }
{
    let bytes = match read_deck_bytes(system, alloc, path, input) {
        Ok(bytes) => bytes,
        Err(fault) => return Err(fault),
    };
    let text = match list(alloc, bytes.as_slice()) {
        Ok(text) => text,
        Err(fault) => return Err(fault),
    };
    write_text(&text, Outcome::Listed, out)
}

//! The deck in a file, and a file of it.
ghost use Rattle.std.specs.Prelude.{◌≡◌, None, find, option_map, IfOk, IfErr};
ghost use Rattle.folder_shelf.specs.Reading.{ByReads};
ghost use Rattle.command_support.specs.DeckFile.{is_named_in_deck, IsFileOf, IsDeckAt, ComesOfDeck, GivesDeck};

use crate::fault::CommandFault;
use crate::file_bytes::read_deck_bytes;
use deck_runner::{Deck, RunFault, read_deck};
use file_control::FileDesc;
use folder_shelf::System;
use std::alloc::Global;
use std::io::Read;

#[tactic(auto, using(crate::proofs::DeckLemmas::of_a_deck))]
/// The deck that the bytes are.
pub fn deck_of(alloc: Global, bytes: &[u8]) -> Result<Deck, CommandFault>
    ensures { GivesDeck bytes.now result }
{
    match read_deck(alloc, bytes) {
        Ok(deck) => Ok(deck),
        Err(fault) => Err(CommandFault::of_run(RunFault::of(fault))),
    }
}

#[tactic(auto, using(crate::proofs::DeckLemmas::same_test))]
/// Whether a file has a name, in capitals or small letters.
fn is_named(file: &FileDesc, name: &str) -> bool
    ensures { result ≡ is_named_in_deck name.now file.now }
{
    name.eq_ignore_ascii_case(file.name.as_str())
}

/// The file of a name, if one has it.
pub fn file_named<'a>(files: &'a [FileDesc], name: &str) -> Option<&'a FileDesc>
    ensures { option_map (λ file. file.now) result ≡ find (is_named_in_deck name.now) files.now }
{
    files.iter().find(|file| is_named(file, name))
}

/// The deck in the file of a path, or in the input where the path is a hyphen.
pub fn deck_at<S: System, I: Read>(
    system: &mut S,
    alloc: Global,
    path: &str,
    input: &mut I,
) -> Result<Deck, CommandFault>
    ensures { ByReads (λ calls. ComesOfDeck (IsDeckAt calls (I.remaining input.old) path.now) result)
        (S.state system.old) (S.state system.new) }
{
    let bytes = match read_deck_bytes(system, alloc, path, input) {
        Ok(bytes) => bytes,
        Err(fault) => return Err(fault),
    };
    deck_of(alloc, bytes.as_slice())
}

/// The file of a name in a deck.
pub fn file_in<'a>(deck: &'a Deck, name: &str) -> Result<&'a FileDesc, CommandFault>
    ensures file { IfOk result (λ file. IsFileOf deck.now.files name.now file.now) }
    ensures none { IfErr result (λ fault. find (is_named_in_deck name.now) deck.now.files ≡ None) }
    ensures fault { IfErr result (λ fault. fault ≡ CommandFault.NoSuchFile) }
{
    match file_named(deck.files.as_slice(), name) {
        Some(file) => Ok(file),
        None => Err(CommandFault::NoSuchFile),
    }
}

//! The program of a deck.
ghost use Rattle.std.specs.Prelude.{◌≢◌, string_bytes, IsOk, IfOk, IfErr};
ghost use Rattle.deck_parser.specs.Fault.{IsTold};
ghost use Rattle.deck_reader.specs.declared.deck.Deck.{Deck as ReadDeck};
ghost use Rattle.deck_reader.specs.Deck.{IsDeck};
ghost use Rattle.cobol_program.specs.Layout.{IsLaidOut};

use crate::data_files::add_files;
use crate::form::SourceForm;
use crate::lines::ProgramLines;
use crate::paragraphs::add_paragraphs;
use crate::procedure::add_procedure;
use crate::selects::add_selects;
use crate::storage::add_storage;
use deck_parser::ParseRefusal;
use deck_reader::{Deck, read_deck};
use file_control::DeckFault;
use std::alloc::{AllocError, Global};

fn program(alloc: Global, deck: &Deck, form: SourceForm) -> Result<String, AllocError>
    ensures { IfOk result (λ text. IsLaidOut form (string_bytes text)) }
{
    let files = deck.files.as_slice();
    let items = deck.items.as_slice();
    let mut lines = ProgramLines::new(alloc);
    add_selects(&mut lines, files);
    add_files(&mut lines, files);
    add_storage(&mut lines, files, items);
    add_procedure(&mut lines, files, items, deck.statements.as_slice());
    add_paragraphs(&mut lines, files);
    lines.text(alloc, form)
}

/// The COBOL program of the deck that the bytes are, or the first fault, as `read_deck` tells it:
/// code 8 on line 0 for want of memory, for the deck or for its program.
pub fn write_program(alloc: Global, bytes: &[u8], form: SourceForm) -> Result<String, DeckFault>
    ensures deck { IsOk result → (deck : ReadDeck) × IsDeck bytes.now deck }
    ensures layout { IfOk result (λ text. IsLaidOut form (string_bytes text)) }
    ensures none { IfErr result (λ fault. fault.code ≢ 8 → (deck : ReadDeck) → IsDeck bytes.now deck → ⊥) }
    ensures told { IfErr result IsTold }
{
    let deck = read_deck(alloc, bytes)?;
    Ok(program(alloc, &deck, form).map_err(ParseRefusal::from)?)
}

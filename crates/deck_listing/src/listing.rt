//! The list of a deck.
ghost use Rattle.std.specs.Prelude.{◌≡◌, ◌≢◌, ◌++◌, map, flat_map, string_bytes, OnOk, IfOk, IfErr};
ghost use Rattle.record_layout.specs.Layout.{item_of};
ghost use Rattle.deck_parser.specs.Fault.{IsTold};
ghost use Rattle.deck_reader.specs.declared.deck.Deck.{Deck as ReadDeck};
ghost use Rattle.deck_reader.specs.Deck.{IsDeck};
ghost use Rattle.deck_listing.specs.Lines.{item_line};
ghost use Rattle.deck_listing.specs.Listing.{key_lines, file_lines, deck_listing_text, Lists};

use crate::key_name::key_name;
use crate::lines::{add_heading, add_item, add_key};
use crate::procedure::add_procedure;
use deck_parser::ParseRefusal;
use deck_reader::{Deck, read_deck};
use file_control::{DeckFault, FileDesc};
use record_layout::{KeyPart, Placed};
use std::alloc::{AllocError, Global};

/// Adds the lines of items.
fn add_items(text: &mut String, items: &[Placed]) -> Result<(), AllocError>
    ensures { OnOk result (string_bytes text.new ≡ string_bytes text.old
        ++ flat_map item_line (map item_of items.now)) }
{
    for item in items {
        add_item(text, item)?;
    }
    Ok(())
}

/// Adds the lines of keys.
fn add_keys(text: &mut String, items: &[Placed], keys: &[KeyPart]) -> Result<(), AllocError>
    ensures { OnOk result (string_bytes text.new ≡ string_bytes text.old
        ++ key_lines (map item_of items.now) 0 keys.now) }
{
    let mut k = 0;
    let mut rest = keys;
    'more: while let Some((key, more)) = rest.split_first() {
        add_key(text, k, key_name(items, key), key)?;
        k += 1;
        rest = more;
    }
    Ok(())
}

/// Adds the lines of a file.
fn add_file(text: &mut String, file: &FileDesc) -> Result<(), AllocError>
    ensures { OnOk result (string_bytes text.new ≡ string_bytes text.old ++ file_lines file.now) }
{
    let lengths = (file.schema.least(), file.schema.greatest());
    add_heading(
        text,
        file.name.as_str(),
        file.file.as_str(),
        lengths,
        file.access,
        file.optional,
    )?;
    add_items(text, file.layout.items())?;
    add_keys(text, file.layout.items(), file.schema.keys())
}

/// Adds the lines of files.
fn add_files(text: &mut String, files: &[FileDesc]) -> Result<(), AllocError>
    ensures { OnOk result (string_bytes text.new ≡ string_bytes text.old ++ flat_map file_lines files.now) }
{
    for file in files {
        add_file(text, file)?;
    }
    Ok(())
}

/// The list of a deck.
fn listing(alloc: Global, deck: &Deck) -> Result<String, AllocError>
    ensures { IfOk result (λ text. string_bytes text ≡ deck_listing_text deck.now) }
{
    let files = deck.files.as_slice();
    let mut text = String::new(alloc);
    add_files(&mut text, files)?;
    add_procedure(&mut text, files, deck.statements.as_slice(), &deck.places)?;
    Ok(text)
}

/// The list of the deck that the bytes are, or the first fault, as `read_deck` tells it: code 8 on
/// line 0 for want of memory, for the deck or for its list.
pub fn list_deck(alloc: Global, bytes: &[u8]) -> Result<String, DeckFault>
    ensures list { IfOk result (λ text. Lists bytes.now (string_bytes text)) }
    ensures none { IfErr result (λ fault. fault.code ≢ 8 → (deck : ReadDeck) → IsDeck bytes.now deck → ⊥) }
    ensures told { IfErr result IsTold }
{
    let deck = read_deck(alloc, bytes)?;
    Ok(listing(alloc, &deck).map_err(ParseRefusal::from)?)
}

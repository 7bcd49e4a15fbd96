//! The items of the working storage.
ghost use Rattle.std.specs.Prelude.{◌≡◌, List, []};
ghost use Rattle.deck_parser.specs.Class.{begins};
ghost use Rattle.deck_parser.specs.Rule.{any_behind};
ghost use Rattle.deck_parser.specs.Reading.{ReadsRule};
ghost use Rattle.deck_entries.specs.FileDescription.{StorageEntry, storage_item, more_storage};
ghost use Rattle.deck_entries.specs.Divisions.{storage_section};

use crate::item::picture_clause;
use crate::words::heading;
use deck_parser::{NameOf, ParseRefusal, Parser, WordPlace};
use io_state::Name;
use std::alloc::{AllocError, Global};
use std::marker::Model;

/// An item of the working storage, and where its level number stands. Contracts see the line of the
/// place, the name and the picture.
#[derive(Drop)]
pub struct StorageItem {
    pub place: WordPlace,
    pub name: Name,
    pub picture: Name,
}

impl Model for StorageItem {
    ghost use Rattle.deck_entries.specs.FileDescription.{StorageEntry};

    ghost Value = { StorageEntry };

    ghost view = { λ item. record {
      line = item.place.line;
      name = item.name.bytes;
      picture = item.picture.bytes;
    } };
}

impl StorageItem {
    ghost use Rattle.std.specs.Prelude.{◌≡◌};

    pub fn picture_bytes(&self) -> &[u8]
        ensures { result.now ≡ self.now.picture }
    {
        self.picture.as_str().as_bytes()
    }
}

/// The items of the working storage in their order, which contracts see as a list.
#[derive(Drop)]
pub struct StorageItems {
    items: Vec<StorageItem>,
}

impl Model for StorageItems {
    ghost use Rattle.std.specs.Prelude.{List};
    ghost use Rattle.deck_entries.specs.FileDescription.{StorageEntry};

    ghost Value = { List StorageEntry };

    ghost view = { λ items. items.items.items };
}

impl StorageItems {
    ghost use Rattle.std.specs.Prelude.{◌≡◌, [], ◌∷◌, ◌++◌, OnOk};

    pub fn new(alloc: Global) -> Self
        ensures { result ≡ [] }
    {
        StorageItems {
            items: Vec::new(alloc),
        }
    }

    fn push(&mut self, item: StorageItem) -> Result<(), AllocError>
        ensures { OnOk result (self.new ≡ self.old ++ item ∷ []) }
    {
        self.items.push(item)?;
        Ok(())
    }

    /// The items themselves.
    pub fn as_slice(&self) -> &[StorageItem]
        ensures { result.now ≡ self.now }
    {
        self.items.as_slice()
    }
}

#[tactic(auto, unfolding(crate::specs::FileDescription::storage_item))]
fn storage_item(parser: &mut Parser<'_>) -> Result<StorageItem, ParseRefusal>
    ensures { ReadsRule storage_item parser.old result parser.new }
{
    let place = parser.word_place();
    parser.expect(b"77")?;
    let name = parser.name(NameOf::LengthItem)?;
    let picture = picture_clause(parser)?;
    parser.period()?;
    Ok(StorageItem {
        place,
        name,
        picture,
    })
}

/// The items with the next one.
#[tactic(auto, unfolding(crate::specs::FileDescription::more_storage))]
fn one_more(parser: &mut Parser<'_>, items: StorageItems) -> Result<StorageItems, ParseRefusal>
    ensures { ReadsRule (more_storage items) parser.old result parser.new }
{
    let item = storage_item(parser)?;
    let mut items = items;
    items.push(item)?;
    Ok(items)
}

/// Whether an item comes next.
#[tactic(auto, unfolding(crate::specs::FileDescription::more_storage, crate::specs::FileDescription::storage_item, deck_parser::specs::Notation::the))]
fn sees_item(parser: &Parser<'_>) -> bool
    ensures { (earlier : List StorageEntry) → result ≡ begins (more_storage earlier).starts parser.now }
{
    parser.sees(b"77")
}

/// The items that come next, if any.
fn items(parser: &mut Parser<'_>, alloc: Global) -> Result<StorageItems, ParseRefusal>
    ensures { ReadsRule (any_behind more_storage []) parser.old result parser.new }
{
    let mut items = StorageItems::new(alloc);
    'more: while sees_item(parser) {
        items = one_more(parser, items)?;
    }
    Ok(items)
}

/// The working storage, if it comes next.
#[tactic(auto, unfolding(crate::specs::Divisions::storage_section, deck_parser::specs::Notation::the))]
pub fn storage_section(parser: &mut Parser<'_>, alloc: Global) -> Result<StorageItems, ParseRefusal>
    ensures { ReadsRule storage_section parser.old result parser.new }
{
    if parser.sees(b"WORKING-STORAGE") {
        heading(parser, b"WORKING-STORAGE", b"SECTION")?;
        return items(parser, alloc);
    }
    Ok(StorageItems::new(alloc))
}

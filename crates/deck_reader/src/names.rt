//! What the procedure knows of the deck's descriptions.
ghost use Rattle.std.specs.Prelude.{◌≡◌, ℕ, List, position, slice_get, is_some, option_map};
ghost use Rattle.std.specs.Prelude.{option_and_then, Some, None, if◌then◌else◌, OnOk, IfOk};
ghost use Rattle.record_layout.specs.Layout.{is_named, field_of};
ghost use Rattle.record_layout.specs.Schema.{key_at, key_of_field, key_led_by};
ghost use Rattle.deck_reader.specs.Names.{names_of, item_in, item_named, access_at};
ghost use Rattle.deck_reader.specs.Names.{prime_length, key_by_item, led_key_by_item};
ghost use Rattle.std.specs.Option.{option_map_or, option_or};
ghost use Rattle.deck_reader.specs.Places.{place_of_name, AddsPlace, ArePlaces};
ghost use Rattle.deck_reader.specs.Named.{IsNamed};
ghost use Rattle.std.specs.Prelude.{bytes_eq};

use deck_parser::Named;
use file_control::{FileDesc, LengthItem};
use io_state::{Access, Name};
use record_layout::Field;
use std::alloc::{AllocError, Global};
use std::collections::BTreeMap;
use std::marker::Model;

/// The files of a deck in the order of their SELECT entries, and its 77-level items in the order of
/// their entries. The names of the 77-level items are kept in their order too, so that one is found
/// by a search.
#[derive(Drop)]
pub struct Names<'a> {
    files: &'a [FileDesc],
    items: &'a [LengthItem],
    item_places: BTreeMap<&'a str, usize>,
}

impl<'a> Model for Names<'a> {
    ghost use Rattle.deck_reader.specs.Names.{Names as Known, names_of};
    ghost use Rattle.deck_reader.specs.Places.{ArePlaces};

    ghost Value = { Known };

    ghost view = { λ n. names_of n.files.now n.items.now };

    ghost invariant = { λ n. ArePlaces n.item_places n.items.now };
}

fn is_named(file: &FileDesc, name: &str) -> bool
    ensures { result ≡ bytes_eq file.now.name name.now }
{
    file.name.as_str() == name
}

fn has_record(file: &FileDesc, name: &str) -> bool
    ensures { result ≡ is_named name.now file.now.entry }
{
    match &file.entry {
        Some(entry) => entry.as_str() == name,
        None => false,
    }
}

fn has_item(file: &FileDesc, name: &Name) -> bool
    ensures { result ≡ is_some (field_of file.now.layout name.now.bytes) }
{
    file.field(name).is_some()
}

fn prime_length_of(file: &FileDesc) -> u16
    ensures { result ≡ (key_at file.now.schema 0).length }
{
    match file.schema.keys().first() {
        Some(prime) => prime.length,
        None => 0,
    }
}

/// Adds the place of a name, unless the name has one.
fn add_place<'a>(
    places: &mut BTreeMap<&'a str, usize>,
    name: &'a str,
    place: usize,
) -> Result<(), AllocError>
    ensures { OnOk result (AddsPlace name.now place places.old places.new) }
{
    if places.contains_key(name) {
        return Ok(());
    }
    places.insert(name, place)?;
    Ok(())
}

/// The place of the first item of each name.
fn places_of<'a>(
    alloc: Global,
    items: &'a [LengthItem],
) -> Result<BTreeMap<&'a str, usize>, AllocError>
    ensures { IfOk result (λ places. ArePlaces places items.now) }
{
    let mut places = BTreeMap::new(alloc);
    for (place, item) in items.iter().enumerate() {
        add_place(&mut places, item.name.as_str(), place)?;
    }
    Ok(places)
}

impl<'a> Names<'a> {
    /// The names of these files and items. Memory is wanted for the places of the items.
    pub fn new(
        alloc: Global,
        files: &'a [FileDesc],
        items: &'a [LengthItem],
    ) -> Result<Self, AllocError>
        ensures { IfOk result (λ names. names ≡ names_of files.now items.now) }
    {
        let item_places = places_of(alloc, items)?;
        Ok(Names {
            files,
            items,
            item_places,
        })
    }

    /// The file of a name.
    pub fn file(&self, name: &str) -> Option<usize>
        ensures { result ≡ position (λ file. bytes_eq file.name name.now) self.now.files }
    {
        self.files.iter().position(|file| is_named(file, name))
    }

    /// The file whose record has this name.
    pub fn record(&self, name: &str) -> Option<usize>
        ensures { result ≡ position (λ file. is_named name.now file.entry) self.now.files }
    {
        self.files.iter().position(|file| has_record(file, name))
    }

    /// The item of a name in the record of a file.
    pub fn item_in(&self, file: usize, name: &Name) -> Option<Field>
        ensures { result ≡ item_in self.now file name.now.bytes }
    {
        self.files.get(file)?.field(name)
    }

    /// The file whose record has an item of this name.
    fn holder(&self, name: &Name) -> Option<usize>
        ensures { result ≡ position (λ file. is_some (field_of file.layout name.now.bytes)) self.now.files }
    {
        self.files.iter().position(|file| has_item(file, name))
    }

    /// The item of a name in the record of any file, and the file.
    pub fn item(&self, name: &Name) -> Option<(usize, Field)>
        ensures { result ≡ item_named self.now name.now.bytes }
    {
        let file = self.holder(name)?;
        let field = self.item_in(file, name)?;
        Some((file, field))
    }

    /// The 77-level item of a name.
    pub fn length_item(&self, name: &str) -> Option<usize>
        ensures { result ≡ position (λ item. bytes_eq item.name name.now) self.now.items }
    {
        self.item_places.get(name).copied()
    }

    /// What has a name. A file of the name comes first, then an item, then a 77-level item.
    pub fn named(&self, name: &Name) -> Named
        ensures { IsNamed self.now name.now.bytes result }
    {
        if let Some(file) = self.file(name.as_str()) {
            return Named::File(file);
        }
        if let Some(file) = self.record(name.as_str()) {
            return Named::Record(file);
        }
        if let Some(file) = self.holder(name) {
            return Named::Item(file);
        }
        match self.length_item(name.as_str()) {
            Some(_) => Named::LengthItem,
            None => Named::Nothing,
        }
    }

    /// How many digits a 77-level item has.
    pub fn digits(&self, item: usize) -> u16 {
        match self.items.get(item) {
            Some(item) => item.digits,
            None => 0,
        }
    }

    /// The access mode of a file.
    pub fn access(&self, file: usize) -> Access
        ensures { result ≡ access_at self.now file }
    {
        match self.files.get(file) {
            Some(file) => file.access,
            None => Access::Sequential,
        }
    }

    /// The length of a file's prime key.
    pub fn prime_length(&self, file: usize) -> u16
        ensures { result ≡ prime_length self.now file }
    {
        match self.files.get(file) {
            Some(file) => prime_length_of(file),
            None => 0,
        }
    }

    /// The key of a file that an item is.
    pub fn key(&self, file: usize, field: Field) -> Option<u8>
        ensures { result ≡ key_by_item self.now file field }
    {
        self.files.get(file)?.schema.key_of(field)
    }

    /// The key of a file that begins with an item, and the item's length.
    pub fn led_key(&self, file: usize, field: Field) -> Option<(u8, u16)>
        ensures { result ≡ led_key_by_item self.now file field }
    {
        self.files.get(file)?.schema.partial(field)
    }
}

//! The files of a deck, and its 77-level items.
ghost use Rattle.std.specs.Prelude.{◌≡◌, ℕ, List, [], ◌∷◌, option_map, find, OnOk, IfOk, IfErr};
ghost use Rattle.std.specs.Str.{bytes_eq};
ghost use Rattle.deck_parser.specs.Fault.{HasNoneIfRefused, GivesOrRefuses};
ghost use Rattle.file_control.specs.Description.{FileDesc as File, LengthItem as Digits};
ghost use Rattle.file_control.specs.Description.{AreFiles, AreItems, HaveDigits};
ghost use Rattle.file_control.specs.NoFiles.{AreNoFiles};
ghost use Rattle.file_control.specs.FirstFault.{IsFilesFault, IsItemFault, TellsFault};

use crate::data_names::DataNames;
use crate::described_files::DescribedFiles;
use crate::file::{FileDesc, file};
use crate::length_item::digits_of_item;
use deck_entries::{Described, Selected, StorageItem};
use deck_parser::{FaultCause, LayoutCause, ParseRefusal, Twice, Unknown};
use io_state::Name;
use std::alloc::{AllocError, Global};
use std::marker::Model;

/// Files in the order of their SELECT entries, which contracts see as a list.
#[derive(Drop)]
pub struct DeckFiles {
    files: Vec<FileDesc>,
}

impl Model for DeckFiles {
    ghost use Rattle.std.specs.Prelude.{List};
    ghost use Rattle.file_control.specs.Description.{FileDesc};

    ghost Value = { List FileDesc };

    ghost view = { λ f. f.files.items };
}

/// A 77-level item, and how many digits it has.
#[derive(Drop)]
pub struct LengthItem {
    pub name: Name,
    pub digits: u16,
}

impl Model for LengthItem {
    ghost use Rattle.file_control.specs.Description.{LengthItem as Item};

    ghost Value = { Item };

    ghost view = { λ i. record { name = i.name.bytes; digits = i.digits } };
}

/// 77-level items in their order, which contracts see as a list.
#[derive(Drop)]
pub struct ItemList {
    items: Vec<LengthItem>,
}

impl Model for ItemList {
    ghost use Rattle.std.specs.Prelude.{List};
    ghost use Rattle.file_control.specs.Description.{LengthItem};

    ghost Value = { List LengthItem };

    ghost view = { λ i. i.items.items };
}

impl DeckFiles {
    ghost use Rattle.std.specs.Prelude.{◌≡◌, [], ◌∷◌, ◌++◌, OnOk};

    fn new(alloc: Global) -> Self
        ensures { result ≡ [] }
    {
        DeckFiles {
            files: Vec::new(alloc),
        }
    }

    fn push(&mut self, file: FileDesc) -> Result<(), AllocError>
        ensures { OnOk result (self.new ≡ self.old ++ file ∷ []) }
    {
        self.files.push(file)?;
        Ok(())
    }

    /// The files themselves.
    pub fn as_slice(&self) -> &[FileDesc]
        ensures { result.now ≡ self.now }
    {
        self.files.as_slice()
    }
}

impl ItemList {
    ghost use Rattle.std.specs.Prelude.{◌≡◌, [], ◌∷◌, ◌++◌, OnOk, IfOk};

    fn with_capacity(alloc: Global, capacity: usize) -> Result<Self, AllocError>
        ensures { IfOk result (λ items. items ≡ []) }
    {
        Ok(ItemList {
            items: Vec::with_capacity(alloc, capacity)?,
        })
    }

    fn push(&mut self, item: LengthItem) -> Result<(), AllocError>
        ensures { OnOk result (self.new ≡ self.old ++ item ∷ []) }
    {
        self.items.push(item)?;
        Ok(())
    }

    /// The items themselves.
    pub fn as_slice(&self) -> &[LengthItem]
        ensures { result.now ≡ self.now }
    {
        self.items.as_slice()
    }
}

fn is_of(description: &Described, name: &[u8]) -> bool
    ensures { result ≡ bytes_eq description.now.name name.now }
{
    description.name() == name
}

/// The description of a file.
fn described_as<'a>(descriptions: &'a [Described], name: &[u8]) -> Option<&'a Described>
    ensures { option_map (λ d. d.now) result
        ≡ find (λ description. bytes_eq description.name name.now) descriptions.now }
{
    descriptions
        .iter()
        .find(|description| is_of(description, name))
}

/// The files of entries, in their order, whose data names are added to the ones before.
pub fn files_of<'a>(
    alloc: Global,
    entries: &[Selected],
    descriptions: &'a [Described],
    storage: &[StorageItem],
    names: &mut DataNames<'a>,
) -> Result<DeckFiles, ParseRefusal>
    ensures files { IfOk result (λ files. AreFiles descriptions.now storage.now names.old entries.now files
        names.new) }
    ensures none { IfErr result (AreNoFiles descriptions.now storage.now names.old entries.now) }
    ensures fault { TellsFault (IsFilesFault descriptions.now storage.now names.old entries.now) result }
{
    let mut files = DeckFiles::new(alloc);
    let mut rest = entries;
    'more: while let Some((selected, after)) = rest.split_first() {
        let Some(described) = described_as(descriptions, selected.name()) else {
            return Err(
                selected
                    .entry
                    .place
                    .fault(FaultCause::Unknown(Unknown::Described)),
            );
        };
        let at = files.as_slice().len();
        let known = DescribedFiles {
            entries,
            descriptions,
        };
        let next = file(alloc, &known, at, selected, described, storage, names)?;
        names.add_all(described.items())?;
        files.push(next)?;
        rest = after;
    }
    Ok(files)
}

/// Looks whether each 77-level item has digits and a name that is new behind these. The names are
/// not wanted behind that, and give their memory back.
pub fn check_items<'a>(
    files: &DescribedFiles<'_>,
    storage: &'a [StorageItem],
    names: DataNames<'a>,
) -> Result<(), ParseRefusal>
    ensures items { OnOk result ((items : List Digits) × AreItems names.entry storage.now items) }
    ensures none { HasNoneIfRefused (AreItems names.entry storage.now) result }
    ensures fault { TellsFault (IsItemFault names.entry storage.now) result }
{
    let mut names = names;
    let mut rest = storage;
    'more: while let Some((item, after)) = rest.split_first() {
        if names.has(item.name.as_str()) {
            let first = files.first_named(storage, item.name.as_str().as_bytes());
            return Err(
                item.place
                    .fault(FaultCause::Twice(Twice::LengthItem(first))),
            );
        }
        let Some(_) = digits_of_item(item) else {
            return Err(item.place.fault(FaultCause::Layout(LayoutCause::Digits)));
        };
        names.push(&item.name)?;
        rest = after;
    }
    Ok(())
}

/// The 77-level items, whatever their names are.
pub fn items_of(alloc: Global, storage: &[StorageItem]) -> Result<ItemList, ParseRefusal>
    ensures { GivesOrRefuses (HaveDigits storage.now) result }
{
    let mut items = ItemList::with_capacity(alloc, storage.len())?;
    let mut rest = storage;
    'more: while let Some((item, after)) = rest.split_first() {
        let Some(digits) = digits_of_item(item) else {
            return Err(item.place.fault(FaultCause::Layout(LayoutCause::Digits)));
        };
        items.push(LengthItem {
            name: item.name,
            digits,
        })?;
        rest = after;
    }
    Ok(items)
}

//! A file, as its entry and its description describe it.
ghost use Rattle.std.specs.Prelude.{◌≡◌, ◌≤◌, ◌≢◌, ℕ, false, List, Option, map, option_map, OnErr, OnOk, IfOk, true};
ghost use Rattle.std.specs.Prelude.{IfErr, option_and_then, slice_get, if◌then◌else◌, Some};
ghost use Rattle.record_layout.specs.Layout.{Placed as PlacedItem, entry_of_item, IsLayout, length_of};
ghost use Rattle.record_layout.specs.Schema.{Schema as Keys, IsSchema};
ghost use Rattle.record_layout.specs.SchemaFault.{GivesSchema};
ghost use Rattle.record_layout.specs.declared.fault.LayoutFault.{LayoutFault};
ghost use Rattle.deck_parser.specs.Fault.{IsFault, HasNoneIfRefused, GivesOrRefuses};
ghost use Rattle.deck_parser.specs.Fault.{cause_code, fault_of, told};
ghost use Rattle.file_control.specs.Description.{FileDesc as File, described_by, GivesKeys};
ghost use Rattle.file_control.specs.Description.{least_length, DependsOn, IsFile};
ghost use Rattle.file_control.specs.Checks.{are_keys_named, are_new};
ghost use Rattle.file_control.specs.FieldPlaces.{AreFields};
ghost use Rattle.file_control.specs.FirstFault.{has_length_item, IsFileFault, TellsFault};

use crate::data_names::{DataNames, are_new};
use crate::described_files::DescribedFiles;
use crate::field_places::{FieldPlaces, fields_by_name};
use crate::keys::{are_keys_named, first_unnamed};
use crate::length_item::length_item;
use deck_entries::{Described, FileControlEntry, RecordLength, Selected, StorageItem};
use deck_parser::{FaultCause, LayoutCause, ParseRefusal, Unknown, WordPlace};
use io_state::{Access, FileName, Name};
use record_layout::{Field, Item, Layout, LayoutFault, Schema, one_outcome};
use std::alloc::Global;
use std::marker::Model;

/// A file of a deck: its name in the program, the name of its file in the folder, the name of its
/// record, the places of the items, the same by their names, the keys, and the place among the
/// 77-level items of the one that a record's length depends on.
#[derive(Drop)]
pub struct FileDesc {
    pub name: Name,
    pub file: FileName,
    pub access: Access,
    pub optional: bool,
    pub entry: Option<Name>,
    pub layout: Layout,
    pub fields: FieldPlaces,
    pub schema: Schema,
    pub depends_on: Option<usize>,
}

impl Model for FileDesc {
    ghost use Rattle.std.specs.Prelude.{option_map};
    ghost use Rattle.file_control.specs.Description.{FileDesc as File};
    ghost use Rattle.file_control.specs.FieldPlaces.{AreFields};

    ghost Value = { File };

    ghost view = { λ f. record {
      name = f.name.bytes;
      file = f.file.bytes;
      access = f.access;
      optional = f.optional;
      entry = option_map (λ name. name.bytes) f.entry;
      layout = f.layout;
      schema = f.schema;
      depends_on = f.depends_on;
    } };

    ghost invariant = { λ f. AreFields f.fields f.layout };
}

impl FileDesc {
    ghost use Rattle.std.specs.Prelude.{◌≡◌};
    ghost use Rattle.record_layout.specs.Layout.{field_of};

    /// The item of a name in its record.
    pub fn field(&self, name: &Name) -> Option<Field>
        ensures { result ≡ field_of self.now.layout name.now.bytes }
    {
        self.fields.get(name).copied()
    }
}

/// Looks at the keys of the entry of a place: each is an item.
fn check_entry(at: usize, selected: &Selected, described: &Described) -> Result<(), ParseRefusal>
    ensures named { OnOk result (are_keys_named described.now.items selected.now ≡ true) }
    ensures unnamed { OnErr result (are_keys_named described.now.items selected.now ≡ false) }
    ensures told { TellsFault (λ fault. fault ≡ fault_of selected.now.line 3) result }
{
    if !are_keys_named(described.items(), &selected.entry) {
        let key = first_unnamed(described.items(), &selected.entry);
        return Err(
            selected
                .entry
                .place
                .fault(FaultCause::Unknown(Unknown::Key(at, key))),
        );
    }
    Ok(())
}

fn layout_refusal(at: usize, place: WordPlace, fault: LayoutFault) -> ParseRefusal
    ensures memory { IsFault result → fault ≢ LayoutFault.Memory }
    ensures told { IsFault result → told result ≡ fault_of place.line 7 }
{
    if fault == LayoutFault::Memory {
        ParseRefusal::Memory
    } else {
        place.fault(FaultCause::Layout(LayoutCause::Items(at, fault)))
    }
}

fn layout_of(
    alloc: Global,
    at: usize,
    place: WordPlace,
    items: &[Item],
) -> Result<Layout, ParseRefusal>
    ensures layout { GivesOrRefuses (IsLayout (map entry_of_item items.now)) result }
    ensures told { TellsFault (λ fault. fault ≡ fault_of place.line 7) result }
{
    one_outcome();
    match Layout::build(alloc, items) {
        Ok(layout) => Ok(layout),
        Err(fault) => Err(layout_refusal(at, place, fault)),
    }
}

fn described_layout(alloc: Global, at: usize, described: &Described) -> Result<Layout, ParseRefusal>
    ensures layout { GivesOrRefuses (IsLayout described.now.items) result }
    ensures told { TellsFault (λ fault. fault ≡ fault_of described.now.line 7) result }
{
    layout_of(alloc, at, described.place, described.items())
}

fn least_of(described: &Described, layout: &Layout) -> Option<u16>
    ensures least { result ≡ least_length described.now.lengths (length_of layout.now) }
    ensures some { 1 ≤ length_of layout.now }
{
    least_length(&described.lengths, layout.length())
}

fn are_names_new(names: &DataNames<'_>, described: &Described) -> bool
    ensures { result ≡ are_new names.now described.now.items }
{
    are_new(names, described.items())
}

fn place_of(
    files: &DescribedFiles<'_>,
    storage: &[StorageItem],
    at: usize,
    described: &Described,
) -> Result<Option<usize>, FaultCause>
    ensures place { IfOk result (DependsOn storage.now described.now.lengths) }
    ensures none { IfErr result (λ cause. (place : Option ℕ)
        → DependsOn storage.now described.now.lengths place → ⊥) }
    ensures code { IfErr result (λ cause. cause_code cause
        ≡ (if has_length_item storage.now described.now.lengths then 7 else 3)) }
{
    depends_on(files, storage, at, &described.lengths)
}

/// The least length of the records, where the lengths that are described end with that of the record.
fn least_length(lengths: &Option<RecordLength>, greatest: u16) -> Option<u16>
    ensures { result ≡ least_length lengths.now greatest }
{
    match lengths {
        None => Some(greatest),
        Some(RecordLength::Fixed(length)) => {
            if *length == u64::from(greatest) {
                Some(greatest)
            } else {
                None
            }
        }
        Some(RecordLength::Varying(lengths)) => {
            let least = lengths.least;
            let to = lengths.greatest;
            if least >= 1 && least <= to && to == u64::from(greatest) {
                Some(least as u16)
            } else {
                None
            }
        }
    }
}

/// The place of the item on which this length depends, if it varies.
fn item_of_length(
    files: &DescribedFiles<'_>,
    storage: &[StorageItem],
    at: usize,
    length: &RecordLength,
) -> Result<Option<usize>, FaultCause>
    ensures place { IfOk result (DependsOn storage.now (Some length.now)) }
    ensures none { IfErr result (λ cause. (place : Option ℕ) → DependsOn storage.now (Some length.now) place
        → ⊥) }
    ensures code { IfErr result (λ cause. cause_code cause
        ≡ (if has_length_item storage.now (Some length.now) then 7 else 3)) }
{
    match length {
        RecordLength::Fixed(_) => Ok(None),
        RecordLength::Varying(lengths) => {
            match length_item(files, storage, at, lengths.item_bytes(), lengths.greatest) {
                Ok(place) => Ok(Some(place)),
                Err(cause) => Err(cause),
            }
        }
    }
}

/// The place of the item that a record's length depends on, if its length varies.
fn depends_on(
    files: &DescribedFiles<'_>,
    storage: &[StorageItem],
    at: usize,
    lengths: &Option<RecordLength>,
) -> Result<Option<usize>, FaultCause>
    ensures place { IfOk result (DependsOn storage.now lengths.now) }
    ensures none { IfErr result (λ cause. (place : Option ℕ) → DependsOn storage.now lengths.now place → ⊥) }
    ensures code { IfErr result (λ cause. cause_code cause
        ≡ (if has_length_item storage.now lengths.now then 7 else 3)) }
{
    match lengths {
        Some(length) => item_of_length(files, storage, at, length),
        None => Ok(None),
    }
}

/// What is known of each schema.
fn know(schema: &Schema)
    ensures { IsSchema schema.now }
{
    schema.greatest();
}

fn schema_of(
    at: usize,
    place: WordPlace,
    layout: &Layout,
    least: u16,
    entry: &FileControlEntry,
) -> Result<Schema, ParseRefusal>
    requires some { 1 ≤ least }
    requires within { least ≤ length_of layout.now }
    ensures given { IfOk result (λ schema. IsSchema schema × GivesKeys layout.now least entry.now schema) }
    ensures none { HasNoneIfRefused (GivesKeys layout.now least entry.now) result }
    ensures told { TellsFault (λ fault. fault ≡ fault_of place.line 7) result }
{
    let prime = entry.record_key.as_str();
    match Schema::varying(layout, least, prime, entry.alternate_keys.as_slice()) {
        Ok(schema) => {
            know(&schema);
            Ok(schema)
        }
        Err(fault) => Err(place.fault(FaultCause::Layout(LayoutCause::Keys(at, fault)))),
    }
}

/// The name of the record, which is the first item.
fn record_name(items: &[Item]) -> Option<Name>
    ensures { option_map (λ name. name.bytes) result
        ≡ option_and_then (λ item. item.name) (slice_get (map entry_of_item items.now) 0) }
{
    match items.first() {
        Some(item) => item.name,
        None => None,
    }
}

fn file_of(
    entry: &FileControlEntry,
    items: &[Item],
    layout: Layout,
    fields: FieldPlaces,
    schema: Schema,
    depends_on: Option<usize>,
) -> FileDesc
    requires { AreFields fields layout }
    ensures { result ≡ described_by entry.now (map entry_of_item items.now) layout schema depends_on }
{
    FileDesc {
        name: entry.name,
        file: entry.file_name,
        access: entry.access,
        optional: entry.optional,
        entry: record_name(items),
        layout,
        fields,
        schema,
        depends_on,
    }
}

fn selected_schema(
    at: usize,
    selected: &Selected,
    layout: &Layout,
    least: u16,
) -> Result<Schema, ParseRefusal>
    requires some { 1 ≤ least }
    requires within { least ≤ length_of layout.now }
    ensures given { IfOk result (λ schema. IsSchema schema × GivesKeys layout.now least selected.now schema) }
    ensures none { HasNoneIfRefused (GivesKeys layout.now least selected.now) result }
    ensures told { TellsFault (λ fault. fault ≡ fault_of selected.now.line 7) result }
{
    schema_of(at, selected.entry.place, layout, least, &selected.entry)
}

fn whole_file(
    selected: &Selected,
    described: &Described,
    layout: Layout,
    fields: FieldPlaces,
    schema: Schema,
    depends_on: Option<usize>,
) -> FileDesc
    requires { AreFields fields layout }
    ensures { result ≡ described_by selected.now described.now.items layout schema depends_on }
{
    file_of(
        &selected.entry,
        described.items(),
        layout,
        fields,
        schema,
        depends_on,
    )
}

/// The file of the entry of a place and its description, behind the data names of earlier files. The faults are
/// looked for in this order: a key that names no item, items that are no layout, lengths that are
/// not the record's, a data name that is there, an item that cannot hold a record's length, and any
/// other fault of the keys.
pub fn file(
    alloc: Global,
    files: &DescribedFiles<'_>,
    at: usize,
    selected: &Selected,
    described: &Described,
    storage: &[StorageItem],
    names: &DataNames<'_>,
) -> Result<FileDesc, ParseRefusal>
    ensures file { GivesOrRefuses (IsFile names.now storage.now selected.now described.now) result }
    ensures fault { TellsFault (IsFileFault names.now storage.now selected.now described.now) result }
{
    check_entry(at, selected, described)?;
    let layout = described_layout(alloc, at, described)?;
    let Some(least) = least_of(described, &layout) else {
        let length = LayoutCause::Length(at, layout.length());
        return Err(described.place.fault(FaultCause::Layout(length)));
    };
    if !are_names_new(names, described) {
        let twice = files.item_twice(at, described);
        return Err(described.place.fault(FaultCause::Twice(twice)));
    }
    let place = match place_of(files, storage, at, described) {
        Ok(place) => place,
        Err(cause) => return Err(described.place.fault(cause)),
    };
    let schema = selected_schema(at, selected, &layout, least)?;
    let fields = fields_by_name(alloc, &layout)?;
    Ok(whole_file(selected, described, layout, fields, schema, place))
}

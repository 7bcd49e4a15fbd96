//! The indexes of the alternate keys.

ghost use Rattle.std.specs.Prelude.{◌≡◌, ◌<◌, ◌≤◌, ◌^◌, length, IfOk, [], ℕ};
ghost use Rattle.record_layout.specs.Schema.{IsSchema};
ghost use Rattle.tree_building.specs.IndexBuilding.{CanBuildAlt, KeepsAlt};
ghost use Rattle.open_file.specs.Lent.{LendsToChange};
ghost use Rattle.file_building.specs.Steps.{KeepsWhileBuilding};
ghost use Rattle.file_building.specs.Entries.{ranked_entries};
ghost use Rattle.file_building.specs.Alternates.{CanPushEntries, PushesEntries, FitIndex, BuildsIndex, IsIndexWith};
ghost use Rattle.file_building.specs.Alternates.{BuildsAlternate, BuildsKey, BuildsAlternates};

use crate::batching::build_in_batches;
use crate::entries::{entries_of, rise};
use crate::kept_fronts::KeptFronts;
use crate::ranked::Ranked;
use crate::rows_builder::RowParts;
use arrayvec::ArrayVec;
use io_state::Fault;
use key_index::{AltEntry, AltIndex};
use pages::Pages;
use record_layout::Schema;
use std::alloc::Global;
use tree_building::AltBuilder;

/// So many bytes are held of an entry while it is sorted, beside its own.
const SORTED_BYTES: usize = 48;

/// The index of each alternate key of so many rows, from the fronts of their records where all are kept,
/// and else from the rows themselves. None where two rows have one value of a key that is to be unique.
///
/// Device; Full where no page is left; Memory.
pub fn build_alternates<P: Pages>(
    alloc: Global,
    pages: &mut P,
    schema: &Schema,
    rows: &RowParts,
    count: u64,
    fronts: &KeptFronts,
) -> Result<Option<ArrayVec<AltIndex, 8>>, Fault>
    requires target { LendsToChange P.shown pages.old }
    requires few { count < 2 ^ 63 }
    ensures schema { IsSchema schema.now }
    ensures builds { BuildsAlternates P.shown schema.now rows.now count fronts.now
        pages.old pages.new result }
    ensures keeps { KeepsWhileBuilding P.shown pages.old pages.new result }
{
    let keys = schema.key_count();
    let mut alternates = ArrayVec::new();
    for k in 1..keys {
        match build_key(alloc, pages, schema, k as u8, rows, count, fronts)? {
            Some(index) => alternates.push(index),
            None => return Ok(None),
        }
    }
    Ok(Some(alternates))
}

/// The index of alternate key `k`, from the fronts of the records or from the rows.
fn build_key<P: Pages>(
    alloc: Global,
    pages: &mut P,
    schema: &Schema,
    k: u8,
    rows: &RowParts,
    count: u64,
    fronts: &KeptFronts,
) -> Result<Option<AltIndex>, Fault>
    requires target { LendsToChange P.shown pages.old }
    requires schema { IsSchema schema.now }
    requires some { 1 ≤ k }
    requires key { k < length schema.now.keys }
    requires few { count < 2 ^ 63 }
    ensures builds { BuildsKey P.shown schema.now k rows.now count fronts.now pages.old pages.new result }
    ensures keeps { KeepsWhileBuilding P.shown pages.old pages.new result }
{
    if fronts.are_all {
        return build_alternate(alloc, pages, schema, k, fronts.bytes.as_slice());
    }
    let most = batch_size(schema, k, fronts.memory);
    if most == 0 {
        return Err(Fault::Memory);
    }
    build_in_batches(alloc, schema, k, rows, count, most, pages)
}

/// How many entries of key `k` a batch is to have: three times as many are held in so many bytes, of which
/// two thirds are sorted.
fn batch_size(schema: &Schema, k: u8, memory: usize) -> usize
    requires { k < length schema.now.keys }
{
    let parts = usize::from(schema.part(k).length) + usize::from(schema.part(0).length);
    memory / (3 * (parts + 8) + 2 * SORTED_BYTES)
}

/// The index of alternate key `k`.
fn build_alternate<P: Pages>(
    alloc: Global,
    pages: &mut P,
    schema: &Schema,
    k: u8,
    fronts: &[u8],
) -> Result<Option<AltIndex>, Fault>
    requires target { LendsToChange P.shown pages.old }
    requires schema { IsSchema schema.now }
    requires some { 1 ≤ k }
    requires key { k < length schema.now.keys }
    ensures builds { BuildsAlternate P.shown schema.now k fronts.now pages.old pages.new result }
    ensures keeps { KeepsWhileBuilding P.shown pages.old pages.new result }
{
    let mut entries = entries_of(alloc, schema, k, fronts)?;
    entries.sort_unstable();
    if !rise(entries.as_slice()) {
        return Ok(None);
    }
    let width = schema.part(k).length;
    let prime = schema.part(0).length;
    let index = build_index(alloc, pages, k, width, prime, entries.as_slice())?;
    Ok(Some(index))
}

/// The index of these entries, whose ranks rise.
fn build_index<P: Pages>(
    alloc: Global,
    pages: &mut P,
    key: u8,
    width: u16,
    prime: u16,
    entries: &[Ranked<'_>],
) -> Result<AltIndex, Fault>
    requires target { LendsToChange P.shown pages.old }
    requires can { CanBuildAlt width prime }
    requires fit { FitIndex width prime (ranked_entries entries.now) }
    ensures builds { BuildsIndex P.shown pages.old pages.new (ranked_entries entries.now) result }
    ensures of { IfOk result (IsIndexWith key width prime) }
    ensures keeps { KeepsWhileBuilding P.shown pages.old pages.new result }
{
    let mut builder = AltBuilder::new(alloc, key, width, prime);
    push_all(pages, &mut builder, entries)?;
    builder.finish(alloc, pages)
}

/// Puts entries behind those of an index.
pub fn push_all<P: Pages>(
    pages: &mut P,
    builder: &mut AltBuilder,
    entries: &[Ranked<'_>],
) -> Result<(), Fault>
    requires { CanPushEntries P.shown builder.old (ranked_entries entries.now) pages.old }
    ensures pushes { PushesEntries P.shown pages.old pages.new builder.old builder.new
        (ranked_entries entries.now) result }
    ensures same { KeepsAlt builder.old builder.new }
    ensures keeps { KeepsWhileBuilding P.shown pages.old pages.new result }
{
    let mut entry = AltEntry::blank();
    for ranked in entries {
        entry.set(ranked.value, ranked.stamp, ranked.prime);
        builder.push(pages, &entry)?;
    }
    Ok(())
}

//! The index of an alternate key, built in batches: for each the rows are read again.

ghost use Rattle.std.specs.Prelude.{◌≡◌, ◌<◌, ◌≤◌, ◌^◌, length};
ghost use Rattle.record_layout.specs.Schema.{IsSchema, key_at};
ghost use Rattle.tree_building.specs.IndexBuilding.{KeepsAlt, IsAltBuilderOf};
ghost use Rattle.open_file.specs.Lent.{LendsToChange};
ghost use Rattle.file_building.specs.Held.{held_entries};
ghost use Rattle.file_building.specs.Steps.{KeepsWhileBuilding};
ghost use Rattle.file_building.specs.Batching.{CanPushHeld, PushesHeld, PushesAll, BuildsInBatches};

use crate::alternates::push_all;
use crate::batch::Batch;
use crate::batch_reading::read_batch;
use crate::held_entries::HeldEntries;
use crate::rows_builder::RowParts;
use io_state::Fault;
use key_index::{AltEntry, AltIndex};
use pages::Pages;
use record_layout::Schema;
use std::alloc::Global;
use tree_building::AltBuilder;

/// The index of alternate key `k` of so many rows, of which less than twice `most` entries are held at
/// once. None where two rows have one value of a key that is to be unique.
///
/// Device; Full where no page is left; Memory.
pub fn build_in_batches<P: Pages>(
    alloc: Global,
    schema: &Schema,
    k: u8,
    parts: &RowParts,
    count: u64,
    most: usize,
    pages: &mut P,
) -> Result<Option<AltIndex>, Fault>
    requires target { LendsToChange P.shown pages.old }
    requires schema { IsSchema schema.now }
    requires some { 1 ≤ k }
    requires key { k < length schema.now.keys }
    requires most { 1 ≤ most }
    requires few { count < 2 ^ 63 }
    ensures builds { BuildsInBatches P.shown schema.now k parts.now count pages.old pages.new result }
    ensures keeps { KeepsWhileBuilding P.shown pages.old pages.new result }
{
    let width = schema.part(k).length;
    let prime = schema.part(0).length;
    let mut builder = AltBuilder::new(alloc, k, width, prime);
    if !push_batches(alloc, schema, k, parts, count, most, pages, &mut builder)? {
        return Ok(None);
    }
    let index = builder.finish(alloc, pages)?;
    Ok(Some(index))
}

/// Puts the entries of all rows into an index, batch by batch. False where two have one rank.
fn push_batches<P: Pages>(
    alloc: Global,
    schema: &Schema,
    k: u8,
    parts: &RowParts,
    count: u64,
    most: usize,
    pages: &mut P,
    builder: &mut AltBuilder,
) -> Result<bool, Fault>
    requires target { LendsToChange P.shown pages.old }
    requires schema { IsSchema schema.now }
    requires some { 1 ≤ k }
    requires key { k < length schema.now.keys }
    requires most { 1 ≤ most }
    requires few { count < 2 ^ 63 }
    requires builder { IsAltBuilderOf k (key_at schema.now k).length (key_at schema.now 0).length
        builder.old }
    ensures pushes { PushesAll P.shown schema.now k parts.now count pages.old pages.new
        builder.old builder.new result }
    ensures keeps { KeepsWhileBuilding P.shown pages.old pages.new result }
{
    let mut above = AltEntry::blank();
    // Each batch has one entry at least.
    for _ in 0..count {
        let Some(batch) = read_batch(alloc, schema, k, parts, count, above, most, pages)? else {
            return Ok(false);
        };
        let Batch { top, held, .. } = batch;
        if !push_held(alloc, pages, builder, &held)? {
            return Ok(false);
        }
        match top {
            Some(top) => above = top,
            None => return Ok(true),
        }
    }
    Ok(true)
}

/// Puts entries behind those of an index, in the order of their ranks. False where two have one rank.
fn push_held<P: Pages>(
    alloc: Global,
    pages: &mut P,
    builder: &mut AltBuilder,
    held: &HeldEntries,
) -> Result<bool, Fault>
    requires { CanPushHeld P.shown builder.old held.now pages.old }
    ensures pushes { PushesHeld P.shown pages.old pages.new builder.old builder.new (held_entries held.now)
        result }
    ensures same { KeepsAlt builder.old builder.new }
    ensures keeps { KeepsWhileBuilding P.shown pages.old pages.new result }
{
    let Some(sorted) = held.sorted(alloc)? else {
        return Ok(false);
    };
    push_all(pages, builder, sorted.as_slice())?;
    Ok(true)
}

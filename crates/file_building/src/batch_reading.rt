//! A batch of the entries of rows that were built.

ghost use Rattle.std.specs.Prelude.{◌≡◌, ◌<◌, ◌≤◌, ◌+◌, ◌^◌, length};
ghost use Rattle.record_layout.specs.Schema.{IsSchema};
ghost use Rattle.file_building.specs.Walk.{walk_tree};
ghost use Rattle.file_building.specs.Rereading.{TakesNextRow, ReadsBatch, IsBatchFor};

use crate::batch::Batch;
use crate::ranked::Ranked;
use crate::row_reading::next_record;
use crate::rows_builder::RowParts;
use crate::walk::TreeWalk;
use io_state::Fault;
use key_index::AltEntry;
use pages::{PAGE_SIZE, Pages};
use record_layout::Schema;
use std::alloc::Global;

/// Gives a batch the entries that key `k` has of so many rows. None where two have one rank.
///
/// Device; Memory.
pub fn read_batch<P: Pages>(
    alloc: Global,
    schema: &Schema,
    k: u8,
    parts: &RowParts,
    count: u64,
    above: AltEntry,
    most: usize,
    pages: &mut P,
) -> Result<Option<Batch>, Fault>
    requires ready { P.shown.IsReady pages.old }
    requires schema { IsSchema schema.now }
    requires some { 1 ≤ k }
    requires key { k < length schema.now.keys }
    requires most { 1 ≤ most }
    requires few { count < 2 ^ 63 }
    ensures { ReadsBatch P.shown schema.now k parts.now count above pages.old pages.new result }
{
    let width = usize::from(schema.part(k).length);
    let prime = usize::from(schema.part(0).length);
    let mut batch = Batch::new(alloc, above, width, prime, most);
    let mut walk = TreeWalk::new(parts.prime.tree);
    for i in 0..count {
        if !take_next(alloc, schema, k, i + 1, parts, &mut walk, pages, &mut batch)? {
            return Ok(None);
        }
    }
    Ok(Some(batch))
}

/// Gives a batch the entry of the next row, which has this stamp. False where two have one rank.
fn take_next<P: Pages>(
    alloc: Global,
    schema: &Schema,
    k: u8,
    stamp: u64,
    parts: &RowParts,
    walk: &mut TreeWalk,
    pages: &mut P,
    batch: &mut Batch,
) -> Result<bool, Fault>
    requires ready { P.shown.IsReady pages.old }
    requires schema { IsSchema schema.now }
    requires some { 1 ≤ k }
    requires key { k < length schema.now.keys }
    requires walk { walk_tree walk.old ≡ parts.now.prime.tree }
    requires batch { IsBatchFor schema.now k batch.old }
    ensures { TakesNextRow P.shown schema.now k stamp parts.now pages.old pages.new walk.old walk.new
        batch.old batch.new result }
{
    let mut area = [0; PAGE_SIZE];
    let end = next_record(parts, walk, pages, &mut area)?;
    let stamps = usize::from(parts.heap.shape().stamps);
    let behind = stamps + usize::from(schema.least());
    if end < behind {
        return Err(Fault::Damage);
    }
    let entry = Ranked::of_record(schema, k, &area[stamps..behind], stamp);
    batch.offer(alloc, &entry)
}

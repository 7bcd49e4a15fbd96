//! Rows that were built, read again in the order of the prime key.

ghost use Rattle.std.specs.Prelude.{◌≡◌};
ghost use Rattle.file_building.specs.Walk.{walk_tree};
ghost use Rattle.file_building.specs.Rereading.{ReadsBuiltRow};

use crate::rows_builder::RowParts;
use crate::walk::TreeWalk;
use io_state::Fault;
use key_index::PrimeEntry;
use pages::{PAGE_SIZE, Pages};
use tree_node::Entry;

/// The stamps and the record to which the next entry of the prime index leads go to the front of `area`.
/// The answer is how many bytes these are.
///
/// Device; Damage where the entry is amiss, or its place has no record.
pub fn next_record<P: Pages>(
    parts: &RowParts,
    walk: &mut TreeWalk,
    pages: &mut P,
    area: &mut [u8; PAGE_SIZE],
) -> Result<usize, Fault>
    requires ready { P.shown.IsReady pages.old }
    requires walk { walk_tree walk.old ≡ parts.now.prime.tree }
    ensures { ReadsBuiltRow P.shown parts.now pages.old pages.new walk.old walk.new area.new result }
{
    let mut entry = Entry::new();
    walk.next(pages, &mut entry)?;
    let width = usize::from(parts.prime.width);
    let place = PrimeEntry::read(entry.as_slice(), width).place;
    parts.heap.get(pages, place, area)
}

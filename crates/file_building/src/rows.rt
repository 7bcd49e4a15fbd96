//! The rows of a file, copied in the order of the prime key.

ghost use Rattle.std.specs.Prelude.{◌≡◌, false};
ghost use Rattle.open_file.specs.Lent.{LendsPages, LendsToChange};
ghost use Rattle.open_file.specs.Fields.{prime_index_of, has_broken};
ghost use Rattle.file_building.specs.CopyFault.{KeepsCopying};
ghost use Rattle.file_building.specs.Walk.{walk_tree};
ghost use Rattle.file_building.specs.CopiedRows.{CanCopyRow, ReadsNextRow, CopiesRow, CopiesRows};
ghost use Rattle.file_building.specs.CopiedRows.{CanPutRow, PutsReadRow, EndsRows};

use crate::copy_fault::CopyFault;
use crate::rows_builder::{RowParts, RowsBuilder};
use crate::walk::TreeWalk;
use io_state::Fault;
use key_index::PrimeEntry;
use open_file::OpenFile;
use pages::{PAGE_SIZE, Pages};
use std::alloc::Global;
use tree_node::Entry;

/// Copies the record of each entry of the prime index, in their order, and makes the entry that
/// leads to it.
///
/// Damage where an entry is amiss, or its place has no record, or there are more or fewer entries
/// than the index counts.
pub fn copy_rows<P: Pages, Q: Pages>(
    alloc: Global,
    source: &OpenFile,
    from: &mut P,
    to: &mut Q,
) -> Result<RowParts, CopyFault>
    requires lent { LendsPages P.shown from.old source.now }
    requires target { LendsToChange Q.shown to.old }
    ensures copies { CopiesRows P.shown Q.shown source.now from.old from.new to.old to.new result }
    ensures keeps { KeepsCopying P.shown Q.shown (has_broken source.now) from.old from.new to.old to.new
        result }
{
    let width = source.part(0).length;
    let mut rows = RowsBuilder::new(alloc, source.heap().shape(), width);
    let index = *source.prime();
    let mut walk = TreeWalk::new(index.tree);
    let count = index.count();
    for _ in 0..count {
        copy_row(source, &mut walk, from, to, &mut rows)?;
    }
    end_rows(alloc, &mut walk, from, to, rows)
}

/// Looks that there is no other entry, and ends the heap and the index.
fn end_rows<P: Pages, Q: Pages>(
    alloc: Global,
    walk: &mut TreeWalk,
    from: &mut P,
    to: &mut Q,
    rows: RowsBuilder,
) -> Result<RowParts, CopyFault>
    requires ready { P.shown.IsReady from.old }
    requires target { LendsToChange Q.shown to.old }
    ensures ends { EndsRows P.shown Q.shown walk.old rows from.old from.new to.old to.new result }
    ensures keeps { KeepsCopying P.shown Q.shown false from.old from.new to.old to.new result }
{
    if let Err(fault) = walk.end(from) {
        return Err(CopyFault::Reading(fault));
    }
    match rows.finish(alloc, to) {
        Ok(parts) => Ok(parts),
        Err(fault) => Err(CopyFault::Writing(fault)),
    }
}

/// The row of the next entry is read, and put behind those before it.
fn copy_row<P: Pages, Q: Pages>(
    source: &OpenFile,
    walk: &mut TreeWalk,
    from: &mut P,
    to: &mut Q,
    rows: &mut RowsBuilder,
) -> Result<(), CopyFault>
    requires { CanCopyRow P.shown Q.shown source.now walk.old rows.old from.old to.old }
    ensures copies { CopiesRow P.shown Q.shown source.now walk.old walk.new rows.old rows.new
        from.old from.new to.old to.new result }
    ensures keeps { KeepsCopying P.shown Q.shown (has_broken source.now) from.old from.new to.old to.new
        result }
{
    let mut entry = Entry::new();
    let mut area = [0; PAGE_SIZE];
    match read_row(source, walk, from, &mut entry, &mut area) {
        Ok(end) => put_row(source, to, rows, entry.as_slice(), &area[..end]),
        Err(fault) => Err(CopyFault::Reading(fault)),
    }
}

/// Puts a row behind those before it: an entry of the prime index, whose value leads to it, and
/// what a slot of the heap has of it.
fn put_row<Q: Pages>(
    source: &OpenFile,
    to: &mut Q,
    rows: &mut RowsBuilder,
    entry: &[u8],
    slot: &[u8],
) -> Result<(), CopyFault>
    requires { CanPutRow Q.shown source.now rows.old entry.now slot.now to.old }
    ensures { PutsReadRow Q.shown source.now to.old to.new rows.old rows.new entry.now slot.now result }
{
    let value = &entry[..usize::from(source.prime().width)];
    let stamps = usize::from(source.stamps_length());
    match rows.push(to, value, &slot[..stamps], &slot[stamps..]) {
        Ok(()) => Ok(()),
        Err(fault) => Err(CopyFault::Writing(fault)),
    }
}

/// The next entry of the prime index goes to `entry`, and the stamps and the record to which it
/// leads to the front of `area`. The answer is how many bytes these are.
fn read_row<P: Pages>(
    source: &OpenFile,
    walk: &mut TreeWalk,
    from: &mut P,
    entry: &mut Entry,
    area: &mut [u8; PAGE_SIZE],
) -> Result<usize, Fault>
    requires ready { P.shown.IsReady from.old }
    requires walk { walk_tree walk.old ≡ (prime_index_of source.now).tree }
    ensures { ReadsNextRow P.shown source.now from.old from.new walk.old walk.new entry.new.items
        area.new result }
{
    walk.next(from, entry)?;
    let width = usize::from(source.prime().width);
    let place = PrimeEntry::read(entry.as_slice(), width).place;
    source.read_stored(from, place, area)
}

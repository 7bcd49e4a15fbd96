//! The records of a file, moved in the order of an alternate key.

ghost use Rattle.std.specs.Prelude.{◌≡◌, false};
ghost use Rattle.open_file.specs.Lent.{LendsPages, LendsToChange, IsAlternate};
ghost use Rattle.file_building.specs.CopyFault.{KeepsCopying};
ghost use Rattle.file_building.specs.Walk.{walk_tree};
ghost use Rattle.file_building.specs.Moving.{MovesRecords, EndsMoving, CanMoveNext, MovesNext};
ghost use Rattle.file_building.specs.Moving.{FindsNextPlace, CanMoveFrom, MovesFrom, CanPutRecord};
ghost use Rattle.file_building.specs.Moving.{PutsMovedRecord};

use crate::copy_fault::CopyFault;
use crate::records_mover::{MovedRecords, RecordsMover};
use crate::walk::TreeWalk;
use io_state::Fault;
use key_index::{AltEntry, AltIndex};
use open_file::OpenFile;
use pages::{PAGE_SIZE, Pages};
use record_heap::Place;
use std::alloc::Global;
use tree_node::Entry;

/// Puts the record of each entry of the index of an alternate key into a new heap, in their order,
/// and tells where each lies now. A record to which two entries lead is moved once: some other one is
/// left then, which has no place.
///
/// `Reading`: Device; Damage where an entry is amiss, or leads to no record, or there are more or fewer
/// entries than records. `Writing`: Device; Full where no page is left; Memory.
pub fn move_records<P: Pages, Q: Pages>(
    alloc: Global,
    source: &OpenFile,
    key: usize,
    from: &mut P,
    to: &mut Q,
) -> Result<MovedRecords, CopyFault>
    requires lent { LendsPages P.shown from.old source.now }
    requires key { IsAlternate source.now key }
    requires target { LendsToChange Q.shown to.old }
    ensures moves { MovesRecords P.shown Q.shown source.now key from.old from.new to.old to.new result }
    ensures keeps { KeepsCopying P.shown Q.shown false from.old from.new to.old to.new result }
{
    let mut mover = RecordsMover::new(alloc, source.heap().shape());
    let index = source.alternate(key);
    let mut walk = TreeWalk::new(index.tree);
    let count = source.prime().count();
    for _ in 0..count {
        move_next(source, &index, &mut walk, from, to, &mut mover)?;
    }
    end_moving(&mut walk, from, to, mover)
}

/// Looks that there is no other entry, and ends the heap.
fn end_moving<P: Pages, Q: Pages>(
    walk: &mut TreeWalk,
    from: &mut P,
    to: &mut Q,
    mover: RecordsMover,
) -> Result<MovedRecords, CopyFault>
    requires ready { P.shown.IsReady from.old }
    requires target { LendsToChange Q.shown to.old }
    ensures ends { EndsMoving P.shown Q.shown walk.old mover from.old from.new to.old to.new result }
    ensures keeps { KeepsCopying P.shown Q.shown false from.old from.new to.old to.new result }
{
    if let Err(fault) = walk.end(from) {
        return Err(CopyFault::Reading(fault));
    }
    match mover.finish(to) {
        Ok(moved) => Ok(moved),
        Err(fault) => Err(CopyFault::Writing(fault)),
    }
}

/// Moves the record to which the next entry leads.
fn move_next<P: Pages, Q: Pages>(
    source: &OpenFile,
    index: &AltIndex,
    walk: &mut TreeWalk,
    from: &mut P,
    to: &mut Q,
    mover: &mut RecordsMover,
) -> Result<(), CopyFault>
    requires { CanMoveNext P.shown Q.shown source.now index.now walk.old mover.old from.old to.old }
    ensures moves { MovesNext P.shown Q.shown source.now index.now walk.old walk.new mover.old mover.new
        from.old from.new to.old to.new result }
    ensures keeps { KeepsCopying P.shown Q.shown false from.old from.new to.old to.new result }
{
    match next_place(source, index, walk, from) {
        Ok(place) => move_from(source, place, from, to, mover),
        Err(fault) => Err(CopyFault::Reading(fault)),
    }
}

/// The place to which the next entry leads, by its value of the prime key.
fn next_place<P: Pages>(
    source: &OpenFile,
    index: &AltIndex,
    walk: &mut TreeWalk,
    from: &mut P,
) -> Result<Place, Fault>
    requires ready { P.shown.IsReady from.old }
    requires walk { walk_tree walk.old ≡ index.now.tree }
    ensures { FindsNextPlace P.shown source.now index.now from.old from.new walk.old walk.new result }
{
    let mut bytes = Entry::new();
    walk.next(from, &mut bytes)?;
    let entry = AltEntry::read(
        bytes.as_slice(),
        usize::from(index.width),
        usize::from(index.prime),
    );
    match source.prime().place_of(from, entry.prime.as_slice())? {
        Some(place) => Ok(place),
        None => Err(Fault::Damage),
    }
}

/// Moves the record of a place, where that was not done before.
fn move_from<P: Pages, Q: Pages>(
    source: &OpenFile,
    place: Place,
    from: &mut P,
    to: &mut Q,
    mover: &mut RecordsMover,
) -> Result<(), CopyFault>
    requires { CanMoveFrom P.shown Q.shown source.now mover.old from.old to.old }
    ensures moves { MovesFrom P.shown Q.shown source.now place mover.old mover.new
        from.old from.new to.old to.new result }
    ensures keeps { KeepsCopying P.shown Q.shown false from.old from.new to.old to.new result }
{
    if mover.places.of(place).page != 0 {
        return Ok(());
    }
    let mut area = [0; PAGE_SIZE];
    match source.read_stored(from, place, &mut area) {
        Ok(end) => put_record(source, to, mover, place, &area[..end]),
        Err(fault) => Err(CopyFault::Reading(fault)),
    }
}

/// Puts what a slot has of a record behind the others, and tells that it lay at a place.
fn put_record<Q: Pages>(
    source: &OpenFile,
    to: &mut Q,
    mover: &mut RecordsMover,
    place: Place,
    slot: &[u8],
) -> Result<(), CopyFault>
    requires { CanPutRecord Q.shown source.now mover.old slot.now to.old }
    ensures { PutsMovedRecord Q.shown to.old to.new mover.old mover.new place slot.now result }
{
    let stamps = usize::from(source.stamps_length());
    match mover.push(to, place, &slot[..stamps], &slot[stamps..]) {
        Ok(()) => Ok(()),
        Err(fault) => Err(CopyFault::Writing(fault)),
    }
}

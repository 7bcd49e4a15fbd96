//! The prime index of a file whose records were moved.

ghost use Rattle.std.specs.Prelude.{false};
ghost use Rattle.open_file.specs.Lent.{LendsPages, LendsToChange};
ghost use Rattle.file_building.specs.CopyFault.{KeepsCopying};
ghost use Rattle.file_building.specs.Leading.{LeadsToRecords, EndsLeading, CanLeadToRecords, LeadsNext};
ghost use Rattle.file_building.specs.Leading.{CanPutLeading, PutsLeading};

use crate::copy_fault::CopyFault;
use crate::new_places::NewPlaces;
use crate::walk::TreeWalk;
use io_state::Fault;
use key_index::{PrimeEntry, PrimeIndex};
use open_file::OpenFile;
use pages::Pages;
use std::alloc::Global;
use tree_building::PrimeBuilder;
use tree_node::Entry;

/// An index with the values of the prime index, which lead to the places that the records have now.
///
/// `Reading`: Device; Damage where an entry is amiss, or leads to no record that was moved, or there
/// are more or fewer entries than the index counts. `Writing`: Device; Full where no page is left;
/// Memory.
pub fn lead_to_records<P: Pages, Q: Pages>(
    alloc: Global,
    source: &OpenFile,
    places: &NewPlaces,
    from: &mut P,
    to: &mut Q,
) -> Result<PrimeIndex, CopyFault>
    requires lent { LendsPages P.shown from.old source.now }
    requires target { LendsToChange Q.shown to.old }
    ensures leads { LeadsToRecords P.shown Q.shown source.now places.now from.old from.new to.old to.new
        result }
    ensures keeps { KeepsCopying P.shown Q.shown false from.old from.new to.old to.new result }
{
    let width = source.part(0).length;
    let mut builder = PrimeBuilder::new(alloc, width);
    let index = *source.prime();
    let mut walk = TreeWalk::new(index.tree);
    let count = index.count();
    for _ in 0..count {
        lead_next(&index, places, &mut walk, from, to, &mut builder)?;
    }
    end_leading(alloc, &mut walk, from, to, builder)
}

/// Looks that there is no other entry, and ends the index.
fn end_leading<P: Pages, Q: Pages>(
    alloc: Global,
    walk: &mut TreeWalk,
    from: &mut P,
    to: &mut Q,
    builder: PrimeBuilder,
) -> Result<PrimeIndex, CopyFault>
    requires ready { P.shown.IsReady from.old }
    requires target { LendsToChange Q.shown to.old }
    ensures ends { EndsLeading P.shown Q.shown walk.old builder from.old from.new to.old to.new result }
    ensures keeps { KeepsCopying P.shown Q.shown false from.old from.new to.old to.new result }
{
    if let Err(fault) = walk.end(from) {
        return Err(CopyFault::Reading(fault));
    }
    match builder.finish(alloc, to) {
        Ok(index) => Ok(index),
        Err(fault) => Err(CopyFault::Writing(fault)),
    }
}

/// The next entry of the index is read, and put behind those before it with its new place.
fn lead_next<P: Pages, Q: Pages>(
    index: &PrimeIndex,
    places: &NewPlaces,
    walk: &mut TreeWalk,
    from: &mut P,
    to: &mut Q,
    builder: &mut PrimeBuilder,
) -> Result<(), CopyFault>
    requires { CanLeadToRecords P.shown Q.shown index.now walk.old builder.old from.old to.old }
    ensures leads { LeadsNext P.shown Q.shown index.now places.now walk.old walk.new
        builder.old builder.new from.old from.new to.old to.new result }
    ensures keeps { KeepsCopying P.shown Q.shown false from.old from.new to.old to.new result }
{
    let mut bytes = Entry::new();
    match walk.next(from, &mut bytes) {
        Ok(()) => put_leading(index, places, to, builder, bytes.as_slice()),
        Err(fault) => Err(CopyFault::Reading(fault)),
    }
}

/// Puts the entry of these bytes behind those before it, with its new place.
fn put_leading<Q: Pages>(
    index: &PrimeIndex,
    places: &NewPlaces,
    to: &mut Q,
    builder: &mut PrimeBuilder,
    bytes: &[u8],
) -> Result<(), CopyFault>
    requires { CanPutLeading Q.shown index.now builder.old bytes.now to.old }
    ensures { PutsLeading Q.shown index.now places.now to.old to.new builder.old builder.new bytes.now
        result }
{
    let width = usize::from(index.width);
    let place = places.of(PrimeEntry::read(bytes, width).place);
    if place.page == 0 {
        return Err(CopyFault::Reading(Fault::Damage));
    }
    match builder.push(to, &bytes[..width], place) {
        Ok(()) => Ok(()),
        Err(fault) => Err(CopyFault::Writing(fault)),
    }
}

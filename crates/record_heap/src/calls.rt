//! One call on one page.

ghost use Rattle.std.specs.Prelude.{◌+◌, ◌++◌};
ghost use Rattle.record_heap.specs.Calls.{Linking, Filling, Refilling, Gets, GetsRecord, MayChange, MayFill};
ghost use Rattle.record_heap.specs.Calls.{MayReadTo, ReadsStamped, ReadsUnstamped, ChangesSlot};

use crate::shape::{Place, SlotShape};
use crate::slot::{behind, fetch, fetch_record};
use crate::slots::{put_free, put_used, slot};
use io_state::Fault;
use pages::Pages;

/// The stamps and the record at a place go to the front of `to`.
pub fn read_used<P: Pages>(
    pages: &mut P,
    shape: SlotShape,
    place: Place,
    to: &mut [u8],
) -> Result<usize, Fault>
    requires { MayReadTo P.shown pages.old (shape.stamps + shape.greatest) to.old }
    ensures { ReadsStamped P.shown pages.old pages.new shape to.old to.new result (Gets shape place) }
{
    let page = pages.page(place.page)?;
    if page[0] != b'H' || place.slot as usize >= shape.room() {
        return Err(Fault::Damage);
    }
    match fetch(slot(page, shape, place.slot as usize), shape, to) {
        None => Err(Fault::Damage),
        Some(n) => Ok(n),
    }
}

/// The record at a place goes to the front of `to`.
pub fn read_record<P: Pages>(
    pages: &mut P,
    shape: SlotShape,
    place: Place,
    to: &mut [u8],
) -> Result<usize, Fault>
    requires { MayReadTo P.shown pages.old shape.greatest to.old }
    ensures { ReadsUnstamped P.shown pages.old pages.new shape to.old to.new result
        (GetsRecord shape place) }
{
    let page = pages.page(place.page)?;
    if page[0] != b'H' || place.slot as usize >= shape.room() {
        return Err(Fault::Damage);
    }
    match fetch_record(slot(page, shape, place.slot as usize), shape, to) {
        None => Err(Fault::Damage),
        Some(n) => Ok(n),
    }
}

/// Makes the slot at a place free, with another behind it.
pub fn link<P: Pages>(
    pages: &mut P,
    shape: SlotShape,
    place: Place,
    next: Place,
) -> Result<(), Fault>
    requires { MayChange P.shown pages.old }
    ensures { ChangesSlot P.shown pages.old pages.new result (Linking shape place next) }
{
    let page = pages.page_mut(place.page)?;
    if page[0] != b'H' || place.slot as usize >= shape.room() {
        return Err(Fault::Damage);
    }
    put_free(page, shape, place.slot as usize, next);
    Ok(())
}

/// Puts stamps and a record into the slot at a place.
pub fn fill<P: Pages>(
    pages: &mut P,
    shape: SlotShape,
    place: Place,
    stamps: &[u8],
    record: &[u8],
) -> Result<(), Fault>
    requires { MayFill P.shown pages.old shape stamps.now «record».now }
    ensures { ChangesSlot P.shown pages.old pages.new result
        (Filling shape place (stamps.now ++ «record».now)) }
{
    let page = pages.page_mut(place.page)?;
    if page[0] != b'H' || place.slot as usize >= shape.room() {
        return Err(Fault::Damage);
    }
    put_used(page, shape, place.slot as usize, stamps, record);
    Ok(())
}

/// Puts stamps and a record into a free slot, and answers the place of the free slot behind it.
pub fn refill<P: Pages>(
    pages: &mut P,
    shape: SlotShape,
    place: Place,
    stamps: &[u8],
    record: &[u8],
) -> Result<Place, Fault>
    requires { MayFill P.shown pages.old shape stamps.now «record».now }
    ensures { ChangesSlot P.shown pages.old pages.new result
        (Refilling shape place (stamps.now ++ «record».now)) }
{
    let page = pages.page_mut(place.page)?;
    if page[0] != b'H' || place.slot as usize >= shape.room() {
        return Err(Fault::Damage);
    }
    let i = place.slot as usize;
    match behind(slot(page, shape, i)) {
        None => Err(Fault::Damage),
        Some(next) => {
            put_used(page, shape, i, stamps, record);
            Ok(next)
        }
    }
}

//! What a slot holds, in the pages of a file.

ghost use Rattle.std.specs.Prelude.{◌≡◌, ◌<◌, IfSome, option_map};
ghost use Rattle.std.specs.Borrow.{sem};
ghost use Rattle.record_heap.specs.Slot.{room};
ghost use Rattle.record_heap.specs.Standing.{slot_shape};
ghost use Rattle.open_file.specs.Stands.{IsShaped};
ghost use Rattle.open_file.specs.Fields.{heap_of};
ghost use Rattle.file_checker.specs.Leading.{IsStoredRecord};
ghost use Rattle.file_checker.specs.Lent.{IsLentSlot, prime_value_off};
ghost use Rattle.file_checker.specs.Lending.{LendsOfItsPages};
ghost use Rattle.pages.specs.Source.{KeepsItsPages, OfItsPages};

use crate::entry::bytes_fit;
use crate::lent_pages::LentPages;
use crate::row::value;
use open_file::OpenFile;
use record_heap::Place;
use record_heap::slot::used;
use record_heap::slots::slot;
use tree_node::Entry;
use tree_search::fill;

/// The stamps and the record at a place, where it is in use, in its page, which is lent.
pub fn stored_at<'a, P: LentPages>(
    pages: &'a mut P,
    file: &OpenFile,
    place: Place,
) -> Option<&'a [u8]>
    requires { IsShaped file.now }
    ensures* lends { sem 𝓛 (LendsOfItsPages P.row P.has pages.entry (IsLentSlot file.now place result)) }
    ensures within { IfSome result (λ stored. place.slot < room (slot_shape (heap_of file.now))) }
    ensures fits { IfSome result (λ stored. IsStoredRecord file.now stored.now) }
{
    let shape = file.heap().shape();
    let i = place.slot as usize;
    if i >= shape.room() {
        return None;
    }
    let page = pages.lend(place.page)?;
    let stored = used(slot(page, shape, i), shape)?;
    bytes_fit(stored);
    Some(stored)
}

/// The value of the prime key of the record at a place, where it is in use, copied.
pub fn prime_value_at<P: LentPages>(pages: &mut P, file: &OpenFile, place: Place) -> Option<Entry>
    requires { IsShaped file.now }
    ensures value { OfItsPages P.has pages.new (λ list. option_map (λ value. value.items) result
        ≡ prime_value_off file.now list place) }
    ensures before { KeepsItsPages P.has pages.old pages.new }
{
    let stored = stored_at(pages, file, place)?;
    let mut copied = Entry::new();
    fill(&mut copied, value(file, stored, 0));
    Some(copied)
}

//! Adding a record.

ghost use Rattle.std.specs.Prelude.{true, false, ◌*◌, ◌≤◌, sum_by};
ghost use Rattle.indexed_file.specs.Room.{need_of_add};
ghost use Rattle.pages.specs.PageCalls.{ReadsPages, WritesPages};
ghost use Rattle.open_file.specs.Stands.{heights_of};
ghost use Rattle.open_file.specs.Fields.{alternates_of};
ghost use Rattle.file_changes.specs.Contents.{TakesStep};
ghost use Rattle.file_changes.specs.InPages.{in_pages, MakesAddition, AddsRecord};
ghost use Rattle.file_changes.specs.Adding.{index_levels, PutsRow, LeavesAdded, AnswersAdding};
ghost use Rattle.file_changes.specs.Adding.{TakesPagesOfPrime};
ghost use Rattle.file_changes.specs.Adding.{new_slot, prime_added, entry_added, entries_added};
ghost use Rattle.file_changes.specs.Steps.{CanTakeRecord, CanLookFor, CanChangeWith, CanChangeIndex};
ghost use Rattle.file_changes.specs.Steps.{CanStore, HasRoomFor, KeepsMark, KeepsMade, ChangesHeap};
ghost use Rattle.file_changes.specs.Steps.{ChangesPrime, ChangesAlternates, ChangesAlternate, TakesPages};

use crate::key_number::number_of;
use crate::room::is_full;
use crate::stamps::new_stamps;
use indexed_file::Added;
use io_state::Fault;
use key_index::{AltEntry, AltIndex, PrimeEntry};
use open_file::OpenFile;
use pages::Pages;
use record_heap::Place;

/// Adds a record, unless its value of a key that has to be unique is there. Of the looks, the test
/// for room and the change each comes only after the one before; the gate is opened before the
/// change.
///
/// Device, Damage, Broken, after which the file is broken; Full, where nothing is changed.
pub fn add<P: Pages>(opened: &mut OpenFile, pages: &mut P, bytes: &[u8]) -> Result<Added, Fault>
    requires { CanTakeRecord P.shown (in_pages opened.old pages.old) bytes.now }
    ensures { AddsRecord P.shown bytes.now opened.old opened.new pages.old pages.new result }
{
    if opened.is_broken() {
        return Err(Fault::Broken);
    }
    let added = try_add(opened, pages, bytes);
    opened.end_change(&added);
    added
}

/// What `add` does on a file that is not broken.
fn try_add<P: Pages>(opened: &mut OpenFile, pages: &mut P, bytes: &[u8]) -> Result<Added, Fault>
    requires { CanTakeRecord P.shown (in_pages opened.old pages.old) bytes.now }
    ensures adds { MakesAddition P.shown bytes.now opened.old opened.new pages.old pages.new result }
    ensures keeps { KeepsMark P.shown opened.old opened.new pages.old pages.new result }
{
    let Added::Done { repeated } = adding(opened, pages, bytes)? else {
        return Ok(Added::Clash);
    };
    if is_full(opened, pages.pages_left()) {
        return Err(Fault::Full);
    }
    pages.begin()?;
    put_in(opened, pages, bytes)?;
    Ok(Added::Done { repeated })
}

/// What adding a record answers, if there is room for it.
fn adding<P: Pages>(opened: &OpenFile, pages: &mut P, bytes: &[u8]) -> Result<Added, Fault>
    requires { CanLookFor P.shown opened.now pages.old bytes.now }
    ensures found { AnswersAdding P.shown opened.now bytes.now pages.old pages.new result }
    ensures reads { ReadsPages P.shown (2 * sum_by (λ height. height) (heights_of opened.now)) pages.old
        pages.new result }
{
    let mut repeated = false;
    for k in 0..opened.key_count() {
        if opened.is_there(pages, k as u8, bytes)? {
            if !opened.part(k as u8).has_duplicates() {
                return Ok(Added::Clash);
            }
            repeated = true;
        }
    }
    Ok(Added::Done { repeated })
}

/// Puts in a record that does not clash, and for which there is room.
fn put_in<P: Pages>(opened: &mut OpenFile, pages: &mut P, bytes: &[u8]) -> Result<(), Fault>
    requires can { CanStore P.shown opened.old pages.old bytes.now }
    requires room { HasRoomFor P.shown opened.old pages.old (need_of_add (heights_of opened.old)) true }
    ensures done { LeavesAdded P.shown (in_pages opened.old pages.old)
        (in_pages opened.new pages.new) bytes.now result }
    ensures keeps { KeepsMade opened.old opened.new }
    ensures writes { WritesPages P.shown (8 * need_of_add (heights_of opened.old)) ⊥ pages.old pages.new
        result }
{
    opened.forget_path();
    let place = store(opened, pages, bytes)?;
    add_to_prime(opened, pages, place, bytes)?;
    add_to_alternates(opened, pages, bytes)?;
    opened.take_stamp();
    Ok(())
}

/// Puts a new record into the heap.
fn store<P: Pages>(opened: &mut OpenFile, pages: &mut P, bytes: &[u8]) -> Result<Place, Fault>
    requires { CanStore P.shown opened.old pages.old bytes.now }
    ensures put { PutsRow P.shown (new_slot opened.old bytes.now) opened.old opened.new
        pages.old pages.new result }
    ensures file { ChangesHeap opened.old opened.new }
    ensures pages { TakesPages P.shown 1 4 pages.old pages.new result }
{
    let stamps = new_stamps(opened);
    opened.put_record(pages, stamps.as_slice(), bytes)
}

/// Adds a new record to the prime index.
fn add_to_prime<P: Pages>(
    opened: &mut OpenFile,
    pages: &mut P,
    place: Place,
    bytes: &[u8],
) -> Result<(), Fault>
    requires { CanChangeWith P.shown opened.old pages.old bytes.now }
    ensures added { TakesStep P.shown (prime_added bytes.now place) opened.old opened.new
        pages.old pages.new result }
    ensures file { ChangesPrime opened.old opened.new }
    ensures pages { TakesPagesOfPrime P.shown opened.old pages.old pages.new result }
{
    let value = opened.value(bytes, 0);
    match opened.insert_prime(pages, value, place)? {
        true => Ok(()),
        false => Err(Fault::Damage),
    }
}

/// Adds a new record to the alternate indexes.
fn add_to_alternates<P: Pages>(
    opened: &mut OpenFile,
    pages: &mut P,
    bytes: &[u8],
) -> Result<(), Fault>
    requires can { CanChangeWith P.shown opened.old pages.old bytes.now }
    requires room { index_levels (alternates_of opened.old) ≤ (P.shown.state pages.old).available }
    ensures added { TakesStep P.shown (entries_added bytes.now) opened.old opened.new
        pages.old pages.new result }
    ensures file { ChangesAlternates opened.old opened.new }
    ensures writes { WritesPages P.shown (8 * index_levels (alternates_of opened.old)) ⊥ pages.old pages.new
        result }
{
    for j in 0..opened.alternate_count() {
        add_to_alternate(opened, pages, j, bytes)?;
    }
    Ok(())
}

/// Adds a new record to an alternate index.
pub(crate) fn add_to_alternate<P: Pages>(
    opened: &mut OpenFile,
    pages: &mut P,
    j: usize,
    bytes: &[u8],
) -> Result<(), Fault>
    requires { CanChangeIndex P.shown opened.old pages.old j bytes.now }
    ensures added { TakesStep P.shown (entry_added bytes.now j) opened.old opened.new
        pages.old pages.new result }
    ensures alternate { ChangesAlternate P.shown j true 8 opened.old opened.new
        pages.old pages.new result }
{
    let k = number_of(j);
    let part = opened.part(k);
    let value = opened.value(bytes, k);
    let prime = opened.value(bytes, 0);
    let stamp = if part.has_duplicates() {
        opened.next_stamp()
    } else {
        0
    };
    let mut index = opened.alternate(usize::from(k));
    let added = index.add(pages, value, stamp, prime)?;
    opened.put_alternate(j, index);
    if added { Ok(()) } else { Err(Fault::Damage) }
}

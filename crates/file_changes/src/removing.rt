//! Removing a record.

ghost use Rattle.std.specs.Prelude.{◌≡◌, ◌+◌, ◌*◌, ◌≤◌, length, true, false, IfErr, OnOk};
ghost use Rattle.pages.specs.Cause.{IsCaused};
ghost use Rattle.pages.specs.PageCalls.{WritesPages};
ghost use Rattle.key_index.specs.Standing.{prime_height};
ghost use Rattle.open_file.specs.Stands.{IsShaped};
ghost use Rattle.open_file.specs.Lent.{LendsToChange};
ghost use Rattle.open_file.specs.Fields.{alternates_of, has_broken, prime_index_of};
ghost use Rattle.file_changes.specs.Adding.{index_levels};
ghost use Rattle.file_changes.specs.Contents.{TakesStep};
ghost use Rattle.file_changes.specs.Old.{most_stored};
ghost use Rattle.file_changes.specs.InPages.{in_pages, IsReadyIn, MakesRemoval, RemovesRecord};
ghost use Rattle.file_changes.specs.Removing.{CanTakeOut, ChangesParts, KeepsOtherIndexes, most_to_take_out};
ghost use Rattle.file_changes.specs.Removing.{prime_lost, slot_freed, entry_lost, row_lost, LosesEntries};
ghost use Rattle.file_changes.specs.Steps.{CanChangeWith, CanChangeIndex, ChangesHeap, ChangesPrime};
ghost use Rattle.file_changes.specs.Steps.{ChangesAlternates, ChangesAlternate, IsNoHigher};

use crate::key_number::number_of;
use crate::old_record::{LONGEST_SLOT, OldRecord, SHORT_SLOT, find_old, most_stored, record_in};
use io_state::{Fault, Key};
use key_index::{AltEntry, AltIndex, PrimeEntry};
use open_file::OpenFile;
use pages::Pages;
use record_heap::Place;

/// Takes out the record of a prime value, and tells whether there was one. No page is taken.
///
/// Device, Damage, Broken, after which the file is broken.
pub fn remove<P: Pages>(opened: &mut OpenFile, pages: &mut P, key: &Key) -> Result<bool, Fault>
    requires { IsReadyIn P.shown (in_pages opened.old pages.old) }
    ensures { RemovesRecord P.shown key.now.items opened.old opened.new pages.old pages.new result }
{
    if opened.is_broken() {
        return Err(Fault::Broken);
    }
    let removed = try_remove(opened, pages, key.as_slice());
    opened.end_change(&removed);
    removed
}

/// What `remove` does on a file that is not broken.
fn try_remove<P: Pages>(opened: &mut OpenFile, pages: &mut P, prime: &[u8]) -> Result<bool, Fault>
    requires { IsReadyIn P.shown (in_pages opened.old pages.old) }
    ensures removes { MakesRemoval P.shown prime.now opened.old opened.new pages.old pages.new result }
    ensures cause { IfErr result (IsCaused (P.shown.HasFailed pages.old pages.new) ⊥) }
    ensures broken { has_broken opened.new ≡ has_broken opened.old }
{
    if most_stored(opened) <= SHORT_SLOT {
        remove_by(opened, pages, prime, &mut [0; SHORT_SLOT])
    } else {
        remove_by(opened, pages, prime, &mut [0; LONGEST_SLOT])
    }
}

/// The same by a slot that is long enough, into which the record is read.
fn remove_by<P: Pages>(
    opened: &mut OpenFile,
    pages: &mut P,
    prime: &[u8],
    slot: &mut [u8],
) -> Result<bool, Fault>
    requires ready { IsReadyIn P.shown (in_pages opened.old pages.old) }
    requires room { most_stored opened.old ≤ length slot.old }
    ensures removes { MakesRemoval P.shown prime.now opened.old opened.new pages.old pages.new result }
    ensures cause { IfErr result (IsCaused (P.shown.HasFailed pages.old pages.new) ⊥) }
    ensures broken { has_broken opened.new ≡ has_broken opened.old }
{
    let Some(old) = find_old(opened, pages, prime, slot)? else {
        return Ok(false);
    };
    pages.begin()?;
    let before = record_in(opened, &old, slot);
    take_out(opened, pages, &old, before)?;
    Ok(true)
}

/// Takes a record out of the indexes and the heap.
fn take_out<P: Pages>(
    opened: &mut OpenFile,
    pages: &mut P,
    old: &OldRecord,
    bytes: &[u8],
) -> Result<(), Fault>
    requires { CanTakeOut P.shown opened.old pages.old bytes.now old.now.stamps.items }
    ensures out { TakesStep P.shown (row_lost old.now bytes.now) opened.old opened.new
        pages.old pages.new result }
    ensures rest { ChangesParts opened.old opened.new }
    ensures shaped { IsShaped opened.new }
    ensures writes { WritesPages P.shown (most_to_take_out opened.old) ⊥ pages.old pages.new result }
{
    opened.forget_path();
    remove_from_prime(opened, pages, bytes)?;
    remove_from_alternates(opened, pages, bytes, old.stamps.as_slice())?;
    free_slot(opened, pages, old.place)
}

/// Gives back the slot of a record.
fn free_slot<P: Pages>(opened: &mut OpenFile, pages: &mut P, place: Place) -> Result<(), Fault>
    requires { LendsToChange P.shown pages.old }
    ensures freed { TakesStep P.shown (slot_freed place) opened.old opened.new
        pages.old pages.new result }
    ensures file { ChangesHeap opened.old opened.new }
    ensures writes { WritesPages P.shown 1 ⊥ pages.old pages.new result }
{
    opened.free_record(pages, place)
}

/// Takes a record out of the prime index.
fn remove_from_prime<P: Pages>(
    opened: &mut OpenFile,
    pages: &mut P,
    bytes: &[u8],
) -> Result<(), Fault>
    requires { CanChangeWith P.shown opened.old pages.old bytes.now }
    ensures removed { TakesStep P.shown (prime_lost bytes.now) opened.old opened.new
        pages.old pages.new result }
    ensures file { ChangesPrime opened.old opened.new }
    ensures writes { WritesPages P.shown (8 * (prime_height (prime_index_of opened.old) + 1)) ⊥ pages.old
        pages.new result }
{
    let value = opened.value(bytes, 0);
    match opened.remove_prime(pages, value)? {
        true => Ok(()),
        false => Err(Fault::Damage),
    }
}

/// Takes a record out of the alternate indexes.
fn remove_from_alternates<P: Pages>(
    opened: &mut OpenFile,
    pages: &mut P,
    bytes: &[u8],
    stamps: &[u64],
) -> Result<(), Fault>
    requires { CanTakeOut P.shown opened.old pages.old bytes.now stamps.now }
    ensures removed { LosesEntries P.shown bytes.now stamps.now opened.old opened.new
        pages.old pages.new result }
    ensures file { ChangesAlternates opened.old opened.new }
    ensures writes { WritesPages P.shown (8 * index_levels (alternates_of opened.old)) ⊥ pages.old pages.new
        result }
{
    for j in 0..opened.alternate_count() {
        remove_from_alternate(opened, pages, j, bytes, stamps[j])?;
    }
    Ok(())
}

/// Takes a record of this stamp out of an alternate index.
pub(crate) fn remove_from_alternate<P: Pages>(
    opened: &mut OpenFile,
    pages: &mut P,
    j: usize,
    bytes: &[u8],
    stamp: u64,
) -> Result<(), Fault>
    requires { CanChangeIndex P.shown opened.old pages.old j bytes.now }
    ensures removed { TakesStep P.shown (entry_lost bytes.now stamp j) opened.old opened.new
        pages.old pages.new result }
    ensures alternate { ChangesAlternate P.shown j false 8 opened.old opened.new
        pages.old pages.new result }
    ensures others { KeepsOtherIndexes j opened.old opened.new }
    ensures height { OnOk result (IsNoHigher j opened.old opened.new) }
{
    let k = number_of(j);
    let value = opened.value(bytes, k);
    let mut index = opened.alternate(usize::from(k));
    let removed = index.remove(pages, value, stamp)?;
    opened.put_alternate(j, index);
    if removed { Ok(()) } else { Err(Fault::Damage) }
}

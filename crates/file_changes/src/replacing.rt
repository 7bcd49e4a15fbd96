//! Replacing a record.

ghost use Rattle.std.specs.Prelude.{⊤, true, ◌≡◌, ◌≢◌, ◌*◌, ◌≤◌, length, sum_by, slice_index, IfOk, IfErr};
ghost use Rattle.pages.specs.Cause.{IsCaused};
ghost use Rattle.pages.specs.PageCalls.{ReadsPages, WritesPages};
ghost use Rattle.open_file.specs.Stands.{heights_of};
ghost use Rattle.open_file.specs.Fields.{file_schema};
ghost use Rattle.file_changes.specs.Old.{most_stored, row_with};
ghost use Rattle.file_changes.specs.Contents.{TakesStep};
ghost use Rattle.file_changes.specs.InPages.{in_pages, MakesReplacement, ReplacesRecord};
ghost use Rattle.file_changes.specs.Replacing.{CanLookForKey, CanPutInPlace, CanChangeIndexes, CanPutEntry};
ghost use Rattle.file_changes.specs.Replacing.{ReplacesRow, AnswersReplacing, AnswersNewThere, LeavesPutOver};
ghost use Rattle.file_changes.specs.Replacing.{PutsOver, PutsInSlot, PutsEntries, entry_put, need_to_put};
ghost use Rattle.file_changes.specs.Replacing.{most_to_put};
ghost use Rattle.file_changes.specs.Steps.{CanTakeRecord, CanLookFor, CanStore, IsRowOf, KeepsMark};
ghost use Rattle.file_changes.specs.Steps.{ChangesAlternates, ChangesAlternate};

use crate::adding::add_to_alternate;
use crate::changed::{changed_stamps, differs, is_full_to_change, takes_stamp};
use crate::key_number::number_of;
use crate::old_record::{LONGEST_SLOT, OldRecord, SHORT_SLOT, find_old, most_stored, record_in};
use crate::removing::remove_from_alternate;
use indexed_file::Replaced;
use io_state::Fault;
use key_index::{AltEntry, AltIndex, PrimeEntry};
use open_file::OpenFile;
use pages::Pages;

/// Puts a record in the place of that of its prime value, unless a unique alternate value is that
/// of another record. The entries of keys that do not change stay where they are.
///
/// Device, Damage, Broken, after which the file is broken; Full, where nothing is changed.
pub fn replace<P: Pages>(
    opened: &mut OpenFile,
    pages: &mut P,
    bytes: &[u8],
) -> Result<Replaced, Fault>
    requires { CanTakeRecord P.shown (in_pages opened.old pages.old) bytes.now }
    ensures { ReplacesRecord P.shown bytes.now opened.old opened.new pages.old pages.new result }
{
    if opened.is_broken() {
        return Err(Fault::Broken);
    }
    let replaced = try_replace(opened, pages, bytes);
    opened.end_change(&replaced);
    replaced
}

/// What `replace` does on a file that is not broken.
fn try_replace<P: Pages>(
    opened: &mut OpenFile,
    pages: &mut P,
    bytes: &[u8],
) -> Result<Replaced, Fault>
    requires { CanTakeRecord P.shown (in_pages opened.old pages.old) bytes.now }
    ensures replaces { MakesReplacement P.shown bytes.now opened.old opened.new pages.old pages.new result }
    ensures keeps { KeepsMark P.shown opened.old opened.new pages.old pages.new result }
{
    if most_stored(opened) <= SHORT_SLOT {
        replace_by(opened, pages, bytes, &mut [0; SHORT_SLOT])
    } else {
        replace_by(opened, pages, bytes, &mut [0; LONGEST_SLOT])
    }
}

/// The same by a slot that is long enough, into which the old record is read.
fn replace_by<P: Pages>(
    opened: &mut OpenFile,
    pages: &mut P,
    bytes: &[u8],
    slot: &mut [u8],
) -> Result<Replaced, Fault>
    requires can { CanTakeRecord P.shown (in_pages opened.old pages.old) bytes.now }
    requires room { most_stored opened.old ≤ length slot.old }
    ensures replaces { MakesReplacement P.shown bytes.now opened.old opened.new pages.old pages.new result }
    ensures keeps { KeepsMark P.shown opened.old opened.new pages.old pages.new result }
{
    let prime = opened.value(bytes, 0);
    let Some(old) = find_old(opened, pages, prime, slot)? else {
        return Ok(Replaced::Gone);
    };
    let before = record_in(opened, &old, slot);
    replace_old(opened, pages, &old, before, bytes)
}

/// Puts a record in the place of the one that was found. Of the looks, the test for room and the
/// change each comes only after the one before.
fn replace_old<P: Pages>(
    opened: &mut OpenFile,
    pages: &mut P,
    old: &OldRecord,
    before: &[u8],
    bytes: &[u8],
) -> Result<Replaced, Fault>
    requires can { CanTakeRecord P.shown (in_pages opened.old pages.old) bytes.now }
    requires old { IsRowOf opened.old (row_with before.now old.now.stamps.items) }
    ensures replaces { ReplacesRow P.shown old.now before.now bytes.now opened.old opened.new
        pages.old pages.new result }
    ensures some { IfOk result (λ answer. answer ≢ Replaced.Gone) }
    ensures cause { IfErr result (IsCaused (P.shown.HasFailed pages.old pages.new) ⊤) }
{
    let Replaced::Done { repeated } = replacing(opened, pages, before, bytes)? else {
        return Ok(Replaced::Clash);
    };
    if is_full_to_change(opened, pages.pages_left(), before, bytes) {
        return Err(Fault::Full);
    }
    pages.begin()?;
    put_over(opened, pages, old, before, bytes)?;
    Ok(Replaced::Done { repeated })
}

/// What replacing the record of its prime value answers, if there is room for it.
fn replacing<P: Pages>(
    opened: &OpenFile,
    pages: &mut P,
    old: &[u8],
    bytes: &[u8],
) -> Result<Replaced, Fault>
    requires can { CanLookFor P.shown opened.now pages.old bytes.now }
    requires old { (file_schema opened.now).least ≤ length old.now }
    ensures found { AnswersReplacing P.shown opened.now old.now bytes.now pages.old pages.new result }
    ensures some { IfOk result (λ answer. answer ≢ Replaced.Gone) }
    ensures reads { ReadsPages P.shown (2 * sum_by (λ height. height) (heights_of opened.now)) pages.old
        pages.new result }
{
    let mut repeated = false;
    for k in 1..opened.key_count() {
        if is_new_there(opened, pages, k as u8, old, bytes)? {
            if !opened.part(k as u8).has_duplicates() {
                return Ok(Replaced::Clash);
            }
            repeated = true;
        }
    }
    Ok(Replaced::Done { repeated })
}

/// Whether the value of a key changes, and some record has its new one.
fn is_new_there<P: Pages>(
    opened: &OpenFile,
    pages: &mut P,
    k: u8,
    old: &[u8],
    bytes: &[u8],
) -> Result<bool, Fault>
    requires { CanLookForKey P.shown opened.now pages.old k old.now bytes.now }
    ensures found { AnswersNewThere P.shown opened.now old.now bytes.now k pages.old pages.new result }
    ensures reads { ReadsPages P.shown (2 * slice_index (heights_of opened.now) k) pages.old pages.new
        result }
{
    if !differs(opened, k, old, bytes) {
        return Ok(false);
    }
    opened.is_there(pages, k, bytes)
}

/// Puts a record that clashes with none in the place of another, where there is room for it.
fn put_over<P: Pages>(
    opened: &mut OpenFile,
    pages: &mut P,
    old: &OldRecord,
    before: &[u8],
    bytes: &[u8],
) -> Result<(), Fault>
    requires { CanPutInPlace P.shown opened.old pages.old old.now before.now bytes.now }
    ensures over { PutsOver P.shown old.now before.now bytes.now opened.old opened.new
        pages.old pages.new result }
    ensures file { LeavesPutOver opened.old opened.new before.now bytes.now result }
    ensures writes { WritesPages P.shown (most_to_put opened.old before.now bytes.now) ⊥ pages.old pages.new
        result }
{
    opened.forget_path();
    set_slot(opened, pages, old, before, bytes)?;
    change_alternates(opened, pages, before, old.stamps.as_slice(), bytes)?;
    if takes_stamp(opened, before, bytes) {
        opened.take_stamp();
    }
    Ok(())
}

/// Puts the record into the slot of the old one.
fn set_slot<P: Pages>(
    opened: &OpenFile,
    pages: &mut P,
    old: &OldRecord,
    before: &[u8],
    bytes: &[u8],
) -> Result<(), Fault>
    requires can { CanStore P.shown opened.now pages.old bytes.now }
    requires old { IsRowOf opened.now (row_with before.now old.now.stamps.items) }
    ensures set { PutsInSlot P.shown old.now before.now bytes.now opened.now pages.old pages.new result }
    ensures available { (P.shown.state pages.new).available ≡ (P.shown.state pages.old).available }
    ensures writes { WritesPages P.shown 1 ⊥ pages.old pages.new result }
{
    let stamps = changed_stamps(opened, before, old.stamps.as_slice(), bytes);
    opened.set_record(pages, old.place, stamps.as_slice(), bytes)
}

/// Changes the record's entries in the alternate indexes, where its values change.
fn change_alternates<P: Pages>(
    opened: &mut OpenFile,
    pages: &mut P,
    old: &[u8],
    stamps: &[u64],
    bytes: &[u8],
) -> Result<(), Fault>
    requires { CanChangeIndexes P.shown opened.old pages.old old.now stamps.now bytes.now }
    ensures put { PutsEntries P.shown old.now stamps.now bytes.now opened.old opened.new
        pages.old pages.new result }
    ensures file { ChangesAlternates opened.old opened.new }
    ensures writes { WritesPages P.shown (16 * need_to_put opened.old old.now bytes.now) ⊥ pages.old
        pages.new result }
{
    for j in 0..opened.alternate_count() {
        if differs(opened, number_of(j), old, bytes) {
            change_alternate(opened, pages, j, old, stamps[j], bytes)?;
        }
    }
    Ok(())
}

/// Takes the old record, of this stamp, out of an alternate index, and puts in the new one.
fn change_alternate<P: Pages>(
    opened: &mut OpenFile,
    pages: &mut P,
    j: usize,
    old: &[u8],
    stamp: u64,
    bytes: &[u8],
) -> Result<(), Fault>
    requires { CanPutEntry P.shown opened.old pages.old j old.now bytes.now }
    ensures put { TakesStep P.shown (entry_put old.now stamp bytes.now j) opened.old opened.new
        pages.old pages.new result }
    ensures alternate { ChangesAlternate P.shown j true 16 opened.old opened.new
        pages.old pages.new result }
{
    remove_from_alternate(opened, pages, j, old, stamp)?;
    add_to_alternate(opened, pages, j, bytes)
}

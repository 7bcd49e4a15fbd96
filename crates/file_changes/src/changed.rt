//! What a record that is to take the place of another changes, and what that needs.

ghost use Rattle.std.specs.Prelude.{◌≡◌, ◌<◌, length};
ghost use Rattle.indexed_file.specs.Change.{takes_stamp};
ghost use Rattle.open_file.specs.Fields.{alternates_of, next_stamp_of, file_schema};
ghost use Rattle.file_changes.specs.Replacing.{HaveKey, HaveStamps, AreStampsAfter, need_to_put, is_full_for};
ghost use Rattle.file_changes.specs.Replacing.{stamp_after, differs_in};
ghost use Rattle.file_changes.specs.Steps.{HaveEachKey};

use crate::key_number::number_of;
use crate::stamps::push_stamp;
use arrayvec::ArrayVec;
use open_file::OpenFile;

/// Whether two records differ in the value of a key.
pub(crate) fn differs(opened: &OpenFile, k: u8, old: &[u8], new: &[u8]) -> bool
    requires { HaveKey opened.now k old.now new.now }
    ensures { result ≡ differs_in opened.now k old.now new.now }
{
    opened.value(old, k) != opened.value(new, k)
}

/// Whether they differ in the value of a key of duplicates, so that a stamp is taken.
pub(crate) fn takes_stamp(opened: &OpenFile, old: &[u8], new: &[u8]) -> bool
    requires { HaveEachKey opened.now old.now new.now }
    ensures { result ≡ takes_stamp (file_schema opened.now) old.now new.now }
{
    for k in 0..opened.key_count() {
        if opened.part(k as u8).has_duplicates() && differs(opened, k as u8, old, new) {
            return true;
        }
    }
    false
}

/// How many pages the alternate indexes may take.
fn need_to_change(opened: &OpenFile, old: &[u8], new: &[u8]) -> u64
    requires { HaveEachKey opened.now old.now new.now }
    ensures { result ≡ need_to_put opened.now old.now new.now }
{
    let mut need = 0;
    for j in 0..opened.alternate_count() {
        let k = number_of(j);
        if differs(opened, k, old, new) {
            need += u64::from(opened.alternate(usize::from(k)).height()) + 1;
        }
    }
    need
}

/// Whether the one cannot take the place of the other for want of pages or stamps.
pub(crate) fn is_full_to_change(opened: &OpenFile, left: u64, old: &[u8], new: &[u8]) -> bool
    requires { HaveEachKey opened.now old.now new.now }
    ensures { result ≡ is_full_for opened.now left old.now new.now }
{
    left < need_to_change(opened, old, new)
        || (opened.next_stamp() >= 1 << 63 && takes_stamp(opened, old, new))
}

/// The stamps of a record that takes the place of another.
pub(crate) fn changed_stamps(
    opened: &OpenFile,
    old: &[u8],
    stamps: &[u64],
    new: &[u8],
) -> ArrayVec<u8, 64>
    requires { HaveStamps opened.now old.now stamps.now new.now }
    ensures { AreStampsAfter opened.now old.now stamps.now new.now result.items }
{
    let mut changed = ArrayVec::new();
    for j in 0..opened.alternate_count() {
        if opened.part(number_of(j)).has_duplicates() {
            push_stamp(&mut changed, stamp_after(opened, j, old, stamps[j], new));
        }
    }
    changed
}

/// The stamp in a key of duplicates after a change: the next one, where the value changes.
fn stamp_after(opened: &OpenFile, j: usize, old: &[u8], stamp: u64, new: &[u8]) -> u64
    requires records { HaveEachKey opened.now old.now new.now }
    requires index { j < length (alternates_of opened.now) }
    ensures { result ≡ stamp_after (file_schema opened.now) (next_stamp_of opened.now) old.now stamp
        new.now j }
{
    if differs(opened, number_of(j), old, new) {
        opened.next_stamp()
    } else {
        stamp
    }
}

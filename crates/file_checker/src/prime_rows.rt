//! The rows that the prime index leads to.

ghost use Rattle.std.specs.Prelude.{◌≡◌, ◌≢◌, ◌<◌, ◌↔◌, ℕ, true, false, All, IfOk, IfErr, OnOk};
ghost use Rattle.std.specs.Prelude.{OnErr, IsTrue, length};
ghost use Rattle.pages.specs.Each.{Each};
ghost use Rattle.pages.specs.Marks.{marked_in};
ghost use Rattle.page_walks.specs.Spots.{spots_below, spots_in};
ghost use Rattle.record_heap.specs.Walk.{is_in_list};
ghost use Rattle.open_file.specs.Stands.{IsShaped};
ghost use Rattle.file_checker.specs.Rows.{EntriesRise, MayCompareRows};
ghost use Rattle.file_checker.specs.Leading.{LeadsToRow, OfEachEntry};
ghost use Rattle.file_checker.specs.RowsAhead.{LeadsAhead};
ghost use Rattle.file_checker.specs.RowFaults.{TellsOfLeading};
ghost use Rattle.file_checker.specs.Comparing.{pages_read, ComparesRows};
ghost use Rattle.pages.specs.Source.{KeepsItsPages, OfItsPages};

use crate::entry::{entry_copied, place_in};
use crate::heap_slots::check_slots;
use crate::index_damage::entry_of_no_row;
use crate::lent_pages::LentPages;
use crate::record::stored_at;
use crate::row::{is_row, value};
use open_file::OpenFile;
use page_walks::{Leaf, LeafSpot};
use pages::WalkFault;
use std::alloc::Global;

/// No marks, for so many pages.
fn no_marks(alloc: Global, count: usize) -> Result<Vec<bool>, WalkFault>
    ensures none { IfOk result (λ marks. (n : ℕ) → marked_in marks.items n ≡ false) }
    ensures many { IfOk result (λ marks. length marks.items ≡ count) }
    ensures memory { IfErr result (λ fault. fault ≡ WalkFault.Memory) }
{
    vec![in alloc; false; count].map_err(|_| WalkFault::Memory)
}

/// Marks a page, if it is one of the pages.
fn mark_one(marks: &mut [bool], n: u32)
    ensures one { n < length marks.old → marked_in marks.new n ≡ true }
    ensures others { (m : ℕ) → m ≢ n → marked_in marks.new m ≡ marked_in marks.old m }
    ensures long { length marks.new ≡ length marks.old }
{
    let i = n as usize;
    if i < marks.len() {
        marks[i] = true;
    }
}

/// Marks these pages.
fn mark_all(marks: &mut [bool], own: &[u32])
    requires { (n : ℕ) → marked_in marks.old n ≡ false }
    ensures only { (n : ℕ) → marked_in marks.new n ≡ true → is_in_list own.now n ≡ true }
    ensures all { (n : ℕ) → n < length marks.old → is_in_list own.now n ≡ true → marked_in marks.new n ≡ true }
{
    for &n in own {
        mark_one(marks, n);
    }
}

/// The page is marked.
fn is_marked(marks: &[bool], n: u32) -> bool
    ensures { IsTrue result ↔ marked_in marks.now n ≡ true }
{
    let i = n as usize;
    i < marks.len() && marks[i]
}

/// The entry of the prime index leads to a row that has its value, in one of the marked pages.
fn leads_to_row<P: LentPages>(
    pages: &mut P,
    file: &OpenFile,
    marks: &[bool],
    spot: LeafSpot,
) -> bool
    requires { IsShaped file.now }
    ensures leads { OfItsPages P.has pages.new
        (λ list. IsTrue result → LeadsToRow file.now list marks.now spot) }
    ensures refused { OfItsPages P.has pages.new
        (λ list. LeadsAhead file.now list marks.now spot → IsTrue result) }
    ensures before { KeepsItsPages P.has pages.old pages.new }
{
    let width = file.prime().width as usize;
    let Some(entry) = entry_copied(pages, file.prime().tree.shape(), spot) else {
        return false;
    };
    let place = place_in(&entry, width);
    let Some(stored) = stored_at(pages, file, place) else {
        return false;
    };
    is_marked(marks, place.page)
        && is_row(file, stored)
        && &entry[..width] == value(file, stored, 0)
}

/// Each entry of the leaf of the prime index leads to a row that has its value, in one of the marked pages.
fn check_leaf<P: LentPages>(
    pages: &mut P,
    file: &OpenFile,
    marks: &[bool],
    leaf: Leaf,
) -> Result<(), WalkFault>
    requires { IsShaped file.now }
    ensures lead { OfItsPages P.has pages.new
        (λ list. OnOk result (OfEachEntry (LeadsToRow file.now list marks.now) leaf)) }
    ensures refused { OfItsPages P.has pages.new
        (λ list. OnErr result (OfEachEntry (LeadsAhead file.now list marks.now) leaf → ⊥)) }
    ensures told { OfItsPages P.has pages.new
        (λ list. IfErr result
        (TellsOfLeading file.now list marks.now (spots_below leaf.page leaf.count))) }
    ensures before { KeepsItsPages P.has pages.old pages.new }
{
    for place in 0..leaf.count {
        let spot = LeafSpot {
            page: leaf.page,
            place,
        };
        if !leads_to_row(pages, file, marks, spot) {
            return Err(entry_of_no_row(spot));
        }
    }
    Ok(())
}

/// Each entry of these leaves of the prime index leads to a row that has its value, in one of the
/// marked pages.
fn check_leaves<P: LentPages>(
    pages: &mut P,
    file: &OpenFile,
    marks: &[bool],
    primes: &[Leaf],
) -> Result<(), WalkFault>
    requires { IsShaped file.now }
    ensures lead { OfItsPages P.has pages.new
        (λ list. OnOk result (All (OfEachEntry (LeadsToRow file.now list marks.now)) primes.now)) }
    ensures refused { OfItsPages P.has pages.new
        (λ list. OnErr result (Each (LeadsAhead file.now list marks.now) (spots_in primes.now) → ⊥)) }
    ensures told { OfItsPages P.has pages.new
        (λ list. IfErr result (TellsOfLeading file.now list marks.now (spots_in primes.now))) }
    ensures before { KeepsItsPages P.has pages.old pages.new }
{
    for &leaf in primes {
        check_leaf(pages, file, marks, leaf)?;
    }
    Ok(())
}

/// Compares the prime index with the records, by marks on the heap's own pages.
fn compare<P: LentPages>(
    pages: &mut P,
    file: &OpenFile,
    own: &[u32],
    primes: &[Leaf],
    marks: &mut [bool],
) -> Result<(), WalkFault>
    requires shaped { IsShaped file.now }
    requires none { (n : ℕ) → marked_in marks.old n ≡ false }
    requires may { OfItsPages P.has pages.old
        (λ list. MayCompareRows file.now list (spots_in primes.now) marks.old) }
    ensures compares { OfItsPages P.has pages.new
        (λ list. ComparesRows (pages_read file.now list primes.now) own.now result) }
    ensures before { KeepsItsPages P.has pages.old pages.new }
{
    mark_all(marks, own);
    check_leaves(pages, file, marks, primes)?;
    check_slots(pages, file, primes, own)?;
    Ok(())
}

/// Compares the prime index of a file with its records. `own` are the heap's own pages, and
/// `primes` the leaves of the index, in their order, in the pages of the file, of which there are
/// `count`.
///
/// Memory; Index, where they do not agree, at an entry that does not lead to a row that has its
/// value, or at a slot in use that has no entry.
pub fn check_rows<P: LentPages>(
    alloc: Global,
    pages: &mut P,
    count: usize,
    file: &OpenFile,
    own: &[u32],
    primes: &[Leaf],
) -> Result<(), WalkFault>
    requires shaped { IsShaped file.now }
    requires counted { OfItsPages P.has pages.old (λ list. count ≡ length list) }
    requires rises { OfItsPages P.has pages.old
        (λ list. EntriesRise file.now list (spots_in primes.now)) }
    ensures compares { OfItsPages P.has pages.new
        (λ list. ComparesRows (pages_read file.now list primes.now) own.now result) }
    ensures before { KeepsItsPages P.has pages.old pages.new }
{
    let mut marks = no_marks(alloc, count)?;
    compare(pages, file, own, primes, &mut marks)
}

//! The entries of an alternate key, and the rows.

ghost use Rattle.std.specs.Prelude.{◌≡◌, IsTrue, length};
ghost use Rattle.page_walks.specs.Spots.{spots_in};
ghost use Rattle.file_checker.specs.Alternate.{IsIndexFor, IsEntryFor, EntriesAscend};
ghost use Rattle.file_checker.specs.Leading.{HasRow, IsEntryOf};
ghost use Rattle.file_checker.specs.RowsAhead.{HasItsRow};
ghost use Rattle.file_checker.specs.Comparing.{pages_read, ChecksLeaf, ChecksLeaves, ComparesIndex, FindsLedRow};
ghost use Rattle.pages.specs.Source.{KeepsItsPages, OfItsPages};

use crate::entry::{entry_copied, entry_near, place_led_to};
use crate::index_damage::entry_of_no_row;
use crate::lent_pages::LentPages;
use crate::record::stored_at;
use crate::row::{stamp, value};
use byteorder::{BigEndian, ByteOrder};
use key_index::AltIndex;
use open_file::OpenFile;
use page_walks::{Leaf, LeafSpot};
use pages::WalkFault;

/// The bytes of a stamp.
const STAMP: usize = 8;

/// The entry is what the index has of the row that an entry of the prime index leads to.
fn is_of_row<P: LentPages>(
    pages: &mut P,
    file: &OpenFile,
    index: AltIndex,
    entry_bytes: &[u8],
    leader: LeafSpot,
) -> bool
    requires { IsEntryFor file.now index entry_bytes.now }
    ensures entry { OfItsPages P.has pages.new
        (λ list. IsTrue result → IsEntryOf file.now list index entry_bytes.now leader) }
    ensures refused { OfItsPages P.has pages.new (λ list. HasItsRow file.now list leader
        → IsEntryOf file.now list index entry_bytes.now leader → IsTrue result) }
    ensures before { KeepsItsPages P.has pages.old pages.new }
{
    let Some(place) = place_led_to(pages, file, leader) else {
        return false;
    };
    let Some(stored) = stored_at(pages, file, place) else {
        return false;
    };
    let width = index.width as usize;
    let k = index.tree.shape().key;
    &entry_bytes[..width] == value(file, stored, k)
        && BigEndian::read_u64(&entry_bytes[width..]) == stamp(file, stored, k)
        && &entry_bytes[width + STAMP..] == value(file, stored, 0)
}

/// The entry is what the index has of a row that the prime index leads to.
fn has_row<P: LentPages>(
    pages: &mut P,
    file: &OpenFile,
    primes: &[Leaf],
    index: AltIndex,
    spot: LeafSpot,
) -> bool
    requires { IsIndexFor file.now index }
    ensures row { OfItsPages P.has pages.new
        (λ list. IsTrue result → HasRow file.now list (spots_in primes.now) index spot) }
    ensures refused { OfItsPages P.has pages.new
        (λ list. FindsLedRow (pages_read file.now list primes.now) index spot result) }
    ensures before { KeepsItsPages P.has pages.old pages.new }
{
    let Some(entry) = entry_copied(pages, index.tree.shape(), spot) else {
        return false;
    };
    match entry_near(pages, file, primes, &entry[index.width as usize + STAMP..]) {
        Some(leader) => is_of_row(pages, file, index, &entry, leader),
        None => false,
    }
}

/// Each entry of the leaf is what the index has of a row that the prime index leads to.
fn check_leaf<P: LentPages>(
    pages: &mut P,
    file: &OpenFile,
    primes: &[Leaf],
    index: AltIndex,
    leaf: Leaf,
) -> Result<(), WalkFault>
    requires { IsIndexFor file.now index }
    ensures checks { OfItsPages P.has pages.new
        (λ list. ChecksLeaf (pages_read file.now list primes.now) index leaf result) }
    ensures before { KeepsItsPages P.has pages.old pages.new }
{
    for place in 0..leaf.count {
        let spot = LeafSpot {
            page: leaf.page,
            place,
        };
        if !has_row(pages, file, primes, index, spot) {
            return Err(entry_of_no_row(spot));
        }
    }
    Ok(())
}

/// Each entry of these leaves is what the index has of a row that the prime index leads to.
fn check_leaves<P: LentPages>(
    pages: &mut P,
    file: &OpenFile,
    primes: &[Leaf],
    index: AltIndex,
    leaves: &[Leaf],
) -> Result<(), WalkFault>
    requires { IsIndexFor file.now index }
    ensures checks { OfItsPages P.has pages.new
        (λ list. ChecksLeaves (pages_read file.now list primes.now) index leaves.now result) }
    ensures before { KeepsItsPages P.has pages.old pages.new }
{
    for &leaf in leaves {
        check_leaf(pages, file, primes, index, leaf)?;
    }
    Ok(())
}

/// Compares the index of an alternate key with the rows of a file. `primes` and `leaves` are the
/// leaves of the prime index and of this one, each in their order, in the pages of the file.
///
/// Index, where they do not agree, at an entry that is that of no row.
pub fn check_alternate<P: LentPages>(
    pages: &mut P,
    file: &OpenFile,
    primes: &[Leaf],
    index: AltIndex,
    leaves: &[Leaf],
) -> Result<(), WalkFault>
    requires index { IsIndexFor file.now index }
    requires many { OfItsPages P.has pages.old
        (λ list. length (spots_in leaves.now) ≡ length (spots_in primes.now)) }
    requires rises { OfItsPages P.has pages.old
        (λ list. EntriesAscend index list (spots_in leaves.now)) }
    ensures compares { OfItsPages P.has pages.new
        (λ list. ComparesIndex (pages_read file.now list primes.now) index leaves.now result) }
    ensures before { KeepsItsPages P.has pages.old pages.new }
{
    check_leaves(pages, file, primes, index, leaves)?;
    Ok(())
}

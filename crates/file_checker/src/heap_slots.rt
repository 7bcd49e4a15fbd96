//! The slots of the heap, each of which an entry of the prime index leads to, if it is in use.

ghost use Rattle.std.specs.Prelude.{◌≡◌, IsTrue};
ghost use Rattle.page_walks.specs.Spots.{spots_in};
ghost use Rattle.open_file.specs.Stands.{IsShaped};
ghost use Rattle.file_checker.specs.Rows.{place_at};
ghost use Rattle.file_checker.specs.Leading.{HasEntry};
ghost use Rattle.file_checker.specs.Search.{IsPrimeSpot};
ghost use Rattle.file_checker.specs.Comparing.{pages_read, ChecksPage, ChecksSlots, FindsItsEntry};
ghost use Rattle.pages.specs.Source.{KeepsItsPages, OfItsPages};

use crate::entry::{entry_near, place_led_to};
use crate::index_damage::slot_without_entry;
use crate::lent_pages::LentPages;
use crate::record::prime_value_at;
use open_file::OpenFile;
use page_walks::{Leaf, LeafSpot};
use pages::WalkFault;
use record_heap::Place;

/// The slot is not in use, or an entry of the prime index leads to it.
fn has_entry<P: LentPages>(pages: &mut P, file: &OpenFile, primes: &[Leaf], place: Place) -> bool
    requires { IsShaped file.now }
    ensures entry { OfItsPages P.has pages.new
        (λ list. IsTrue result → HasEntry file.now list (spots_in primes.now) place) }
    ensures refused { OfItsPages P.has pages.new
        (λ list. FindsItsEntry (pages_read file.now list primes.now) place result) }
    ensures before { KeepsItsPages P.has pages.old pages.new }
{
    let Some(value) = prime_value_at(pages, file, place) else {
        return true;
    };
    match entry_near(pages, file, primes, &value) {
        Some(spot) => leads_to(pages, file, spot, place),
        None => false,
    }
}

/// The entry of the prime index leads to this place.
fn leads_to<P: LentPages>(pages: &mut P, file: &OpenFile, spot: LeafSpot, place: Place) -> bool
    ensures leads { OfItsPages P.has pages.new
        (λ list. IsTrue result → place ≡ place_at file.now list spot) }
    ensures refused { OfItsPages P.has pages.new
        (λ list. IsPrimeSpot file.now list spot → place ≡ place_at file.now list spot → IsTrue result) }
    ensures before { KeepsItsPages P.has pages.old pages.new }
{
    match place_led_to(pages, file, spot) {
        Some(led_to) => led_to == place,
        None => false,
    }
}

/// Each slot of page n that is in use has its entry in the prime index.
fn check_page<P: LentPages>(
    pages: &mut P,
    file: &OpenFile,
    primes: &[Leaf],
    n: u32,
) -> Result<(), WalkFault>
    requires { IsShaped file.now }
    ensures checks { OfItsPages P.has pages.new
        (λ list. ChecksPage (pages_read file.now list primes.now) n result) }
    ensures before { KeepsItsPages P.has pages.old pages.new }
{
    for i in 0..file.heap().shape().room() {
        let place = Place {
            page: n,
            slot: i as u16,
        };
        if !has_entry(pages, file, primes, place) {
            return Err(slot_without_entry(place));
        }
    }
    Ok(())
}

/// Each slot of the heap's own pages that is in use has its entry in the prime index.
pub fn check_slots<P: LentPages>(
    pages: &mut P,
    file: &OpenFile,
    primes: &[Leaf],
    own: &[u32],
) -> Result<(), WalkFault>
    requires { IsShaped file.now }
    ensures checks { OfItsPages P.has pages.new
        (λ list. ChecksSlots (pages_read file.now list primes.now) own.now result) }
    ensures before { KeepsItsPages P.has pages.old pages.new }
{
    for &n in own {
        check_page(pages, file, primes, n)?;
    }
    Ok(())
}

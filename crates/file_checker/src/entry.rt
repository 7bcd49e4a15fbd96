//! An entry of an index, in the pages of a file.

ghost use Rattle.std.specs.Prelude.{◌≡◌, ◌+◌, ◌<◌, ◌≤◌, ◌↔◌, IfSome, IsSome, length, true, false, slice_index_or};
ghost use Rattle.std.specs.Prelude.{[]};
ghost use Rattle.tree_node.specs.Leaf.{IsLeaf, leaf_entries};
ghost use Rattle.pages.specs.Each.{Each};
ghost use Rattle.page_walks.specs.Spots.{IsSpotThere, entry_at_spot, spots_in};
ghost use Rattle.tree_node.specs.Order.{less};
ghost use Rattle.record_heap.specs.Chain.{IsOneOf};
ghost use Rattle.key_index.specs.Stored.{prime_entry_in};
ghost use Rattle.std.specs.Borrow.{sem};
ghost use Rattle.bplus_tree.specs.Fields.{tree_shape};
ghost use Rattle.open_file.specs.Fields.{prime_index_of};
ghost use Rattle.file_checker.specs.Lending.{LendsOfItsPages};
ghost use Rattle.file_checker.specs.Lent.{IsLentEntry};
ghost use Rattle.file_checker.specs.Rows.{place_at};
ghost use Rattle.file_checker.specs.Search.{EndsBefore, EndsFrom, FindsEntry, FindsKeyInLeaf, IsNear};
ghost use Rattle.pages.specs.Source.{KeepsItsPages, OfItsPages};

use crate::lent_pages::LentPages;
use byteorder::{BigEndian, ByteOrder};
use open_file::OpenFile;
use page_walks::{Leaf, LeafSpot};
use pages::PAGE_SIZE;
use record_heap::Place;
use tree_node::{Entry, LeafView, NodeShape, is_leaf};
use tree_search::fill;

/// Bytes are below 256. It does nothing.
pub fn bytes_fit(bytes: &[u8])
    ensures { Each (λ b. b < 256) bytes.now }
{}

/// Entry `place` of a page that is to be a leaf.
fn entry_on(page: &[u8; PAGE_SIZE], shape: NodeShape, place: u16) -> Option<&[u8]>
    ensures there { IsSome result ↔ (IsLeaf shape page.now × (place < length (leaf_entries shape page.now))) }
    ensures value { IfSome result (λ entry. entry.now ≡ slice_index_or (leaf_entries shape page.now) place []) }
{
    if !is_leaf(page, shape) {
        return None;
    }
    let leaf = LeafView { page, shape };
    let place = place as usize;
    if place >= leaf.count() {
        return None;
    }
    Some(leaf.entry(place))
}

/// The entry that stands there, in its page, which is lent.
pub fn entry<'a, P: LentPages>(
    pages: &'a mut P,
    shape: NodeShape,
    spot: LeafSpot,
) -> Option<&'a [u8]>
    ensures* lends { sem 𝓛 (LendsOfItsPages P.row P.has pages.entry (IsLentEntry shape spot result)) }
    ensures long { IfSome result (λ entry. length entry.now ≡ shape.entry) }
    ensures bytes { IfSome result (λ entry. Each (λ b. b < 256) entry.now) }
{
    let page = pages.lend(spot.page)?;
    let entry = entry_on(page, shape, spot.place)?;
    bytes_fit(entry);
    Some(entry)
}

/// The entry that stands there, copied: it outlives the loan of its page.
pub fn entry_copied<P: LentPages>(pages: &mut P, shape: NodeShape, spot: LeafSpot) -> Option<Entry>
    ensures value { OfItsPages P.has pages.new
        (λ list. IfSome result (λ entry. entry.items ≡ entry_at_spot shape list spot)) }
    ensures long { IfSome result (λ entry. length entry.items ≡ shape.entry) }
    ensures bytes { IfSome result (λ entry. Each (λ b. b < 256) entry.items) }
    ensures there { OfItsPages P.has pages.new
        (λ list. IsSpotThere shape list spot → IsSome result) }
    ensures before { KeepsItsPages P.has pages.old pages.new }
{
    let mut copied = Entry::new();
    fill(&mut copied, entry(pages, shape, spot)?);
    Some(copied)
}

/// The place in an entry of a prime index, behind a value of so many bytes.
pub fn place_in(entry: &[u8], width: usize) -> Place
    requires { length entry.now ≡ width + 6 }
    ensures { result ≡ (prime_entry_in width entry.now).place }
{
    Place {
        page: BigEndian::read_u32(&entry[width..]),
        slot: BigEndian::read_u16(&entry[width + 4..]),
    }
}

/// The place to which the entry of the prime index leads that stands there.
pub fn place_led_to<P: LentPages>(pages: &mut P, file: &OpenFile, spot: LeafSpot) -> Option<Place>
    ensures place { OfItsPages P.has pages.new
        (λ list. IfSome result (λ place. place ≡ place_at file.now list spot)) }
    ensures there { OfItsPages P.has pages.new
        (λ list. IsSpotThere (tree_shape (prime_index_of file.now).tree) list spot → IsSome result) }
    ensures before { KeepsItsPages P.has pages.old pages.new }
{
    let entry = entry(pages, file.prime().tree.shape(), spot)?;
    Some(place_in(entry, file.prime().width as usize))
}

/// The bytes `a` come before the bytes `b`.
fn is_below(a: &[u8], b: &[u8]) -> bool
    ensures { result ≡ less a.now b.now }
{
    a.cmp(b).is_lt()
}

/// The last entry of a leaf of the prime index has a value below this one.
fn ends_before<P: LentPages>(pages: &mut P, file: &OpenFile, leaf: Leaf, value: &[u8]) -> bool
    ensures ends { OfItsPages P.has pages.new
        (λ list. result ≡ true → EndsBefore file.now list value.now leaf) }
    ensures from { OfItsPages P.has pages.new
        (λ list. result ≡ false → EndsFrom file.now list value.now leaf) }
    ensures before { KeepsItsPages P.has pages.old pages.new }
{
    let last = LeafSpot {
        page: leaf.page,
        place: leaf.count.saturating_sub(1),
    };
    match entry(pages, file.prime().tree.shape(), last) {
        Some(entry) => is_below(&entry[..file.prime().width as usize], value),
        None => false,
    }
}

/// An entry of a leaf; where they are in order, the first whose tree key is not below this one.
fn entry_in<P: LentPages>(
    pages: &mut P,
    shape: NodeShape,
    leaf: Leaf,
    key: &[u8],
) -> Option<LeafSpot>
    ensures page { IfSome result (λ spot. spot.page ≡ leaf.page) }
    ensures place { IfSome result (λ spot. spot.place < leaf.count) }
    ensures found { OfItsPages P.has pages.new
        (λ list. FindsKeyInLeaf shape list leaf key.now result) }
    ensures before { KeepsItsPages P.has pages.old pages.new }
{
    let page = pages.lend(leaf.page)?;
    if !is_leaf(page, shape) {
        return None;
    }
    let place = LeafView { page, shape }.rank(key);
    if place >= leaf.count as usize {
        return None;
    }
    Some(LeafSpot {
        page: leaf.page,
        place: place as u16,
    })
}

/// How many leaves of the prime index end before this value, where they are in order.
fn leaves_before<P: LentPages>(
    pages: &mut P,
    file: &OpenFile,
    primes: &[Leaf],
    value: &[u8],
) -> usize
    ensures within { result ≤ length primes.now }
    ensures near { OfItsPages P.has pages.new
        (λ list. IsNear file.now list primes.now value.now result) }
    ensures before { KeepsItsPages P.has pages.old pages.new }
{
    let mut low = 0;
    let mut high = primes.len();
    'halve: while low < high {
        let middle = low + (high - low) / 2;
        if ends_before(pages, file, primes[middle], value) {
            low = middle + 1;
        } else {
            high = middle;
        }
    }
    low
}

/// An entry of the prime index; where they are in order, the first whose value is not below this one.
pub fn entry_near<P: LentPages>(
    pages: &mut P,
    file: &OpenFile,
    primes: &[Leaf],
    value: &[u8],
) -> Option<LeafSpot>
    ensures one { IfSome result (λ spot. IsOneOf (spots_in primes.now) spot) }
    ensures found { OfItsPages P.has pages.new
        (λ list. FindsEntry file.now list primes.now value.now result) }
    ensures before { KeepsItsPages P.has pages.old pages.new }
{
    let i = leaves_before(pages, file, primes, value);
    if i == primes.len() {
        return None;
    }
    entry_in(pages, file.prime().tree.shape(), primes[i], value)
}

//! What no clause says: the order of names that a person sees, the bytes of a leaf, and that each
//! call can succeed.

use crate::checks::{assert_equal, assert_that};
use crate::memory::{new_pages, page_of};
use io_state::Fault;
use key_index::{
    AltCursor, AltEntry, AltFirst, AltIndex, PrimeCursor, PrimeEntry, PrimeIndex, alt_laws,
    prime_laws,
};
use memory_shelf::MemoryPages;
use record_heap::Place;
use std::process::Abort;

const FIRST: Place = Place { page: 2, slot: 0 };

const SECOND: Place = Place { page: 2, slot: 1 };

// Adds a value, which has the width of the index, and is there already or not, as is said.
fn adds_place(
    rt: &impl Abort,
    index: &mut PrimeIndex,
    pages: &mut MemoryPages,
    value: &[u8],
    place: Place,
    is_new: bool,
) {
    assert!(rt; value.len() == usize::from(index.width));
    assert_equal(rt, index.add(pages, value, place), Ok(is_new));
}

// Adds an entry of a name, which is there already or not, as is said.
fn adds_name(
    rt: &impl Abort,
    index: &mut AltIndex,
    pages: &mut MemoryPages,
    name: &[u8],
    stamp: u64,
    prime: &[u8],
    is_new: bool,
) {
    assert!(rt; name.len() == usize::from(index.width));
    assert!(rt; prime.len() == usize::from(index.prime));
    assert_equal(rt, index.add(pages, name, stamp, prime), Ok(is_new));
}

// The entry of a name, with a stamp, of the record with a prime value.
fn is_entry(entry: AltEntry, name: &[u8], stamp: u64, prime: &[u8]) -> bool {
    entry.value.as_slice() == name && entry.stamp == stamp && entry.prime.as_slice() == prime
}

fn shows(
    rt: &impl Abort,
    found: Result<Option<AltEntry>, Fault>,
    name: &[u8],
    stamp: u64,
    prime: &[u8],
) {
    match found {
        Ok(Some(entry)) => assert_that(rt, is_entry(entry, name, stamp, prime)),
        _ => assert_that(rt, false),
    }
}

// The first entry of a name, and whether another follows.
fn begins(
    rt: &impl Abort,
    found: Result<Option<AltFirst>, Fault>,
    name: &[u8],
    stamp: u64,
    prime: &[u8],
    followed: bool,
) {
    match found {
        Ok(Some(first)) => {
            assert_equal(rt, first.followed, followed);
            assert_that(rt, is_entry(first.entry, name, stamp, prime));
        }
        _ => assert_that(rt, false),
    }
}

fn is_at(rt: &impl Abort, found: Result<Option<PrimeEntry>, Fault>, value: &[u8], place: Place) {
    match found {
        Ok(Some(entry)) => {
            assert_equal(rt, entry.value.as_slice(), value);
            assert_equal(rt, entry.place, place);
        }
        _ => assert_that(rt, false),
    }
}

// No entry is found.
fn shows_none<T: Drop>(rt: &impl Abort, found: Result<Option<T>, Fault>) {
    assert_that(rt, matches!(found, Ok(None)));
}

// The page of the prime index of a file with the one record 0001SMITH.
#[test]
fn a_leaf_is_written_byte_for_byte(rt: HostRuntime) {
    let mut pages = new_pages(&rt, rt.alloc(), 0, 1);
    let mut index = PrimeIndex::empty(&mut pages, 4).expect(&rt, "an index");
    adds_place(&rt, &mut index, &mut pages, b"0001", FIRST, true);
    assert_equal(&rt, index.tree.root(), 1);
    assert_equal(&rt, pages.pages.len(), 2);
    let page = page_of(&rt, &pages, 1);
    assert_equal(
        &rt,
        &page[..26],
        b"L\0\0\x01\0\0\0\0\0\0\0\0\0\0\0\00001\0\0\0\x02\0\0".as_slice(),
    );
}

// An index of two values.
fn two_values(rt: &impl Abort, pages: &mut MemoryPages) -> PrimeIndex {
    let empty = PrimeIndex::empty(pages, 4).expect(rt, "an index");
    let mut index = PrimeIndex::stored(4, empty.tree.root(), empty.height(), empty.count());
    adds_place(rt, &mut index, pages, b"0002", FIRST, true);
    adds_place(rt, &mut index, pages, b"0001", SECOND, true);
    index
}

fn is_read_by_its_values(rt: &impl Abort, index: &PrimeIndex, pages: &mut MemoryPages) {
    assert_equal(rt, index.count(), 2);
    is_at(rt, index.find(pages, b"0002"), b"0002", FIRST);
    assert_equal(rt, index.place_of(pages, b"0001"), Ok(Some(SECOND)));
    assert_equal(rt, index.has(pages, b"0002"), Ok(true));
}

fn is_read_in_order(rt: &impl Abort, index: &PrimeIndex, pages: &mut MemoryPages) {
    is_at(rt, index.first_from(pages, b"0"), b"0001", SECOND);
    is_at(rt, index.first_after(pages, b"0001"), b"0002", FIRST);
    is_at(rt, index.last(pages), b"0002", FIRST);
    shows_none(rt, index.first_past(pages, b"00"));
    is_at(rt, index.first_past(pages, b"0001"), b"0002", FIRST);
}

// A value is removed once, and is not there then.
fn is_removed_once(rt: &impl Abort, index: &mut PrimeIndex, pages: &mut MemoryPages) {
    assert_equal(rt, index.remove(pages, b"0002"), Ok(true));
    assert_equal(rt, index.remove(pages, b"0002"), Ok(false));
    shows_none(rt, index.find(pages, b"0002"));
    assert_equal(rt, index.place_of(pages, b"0002"), Ok(None));
    assert_equal(rt, index.has(pages, b"0002"), Ok(false));
}

#[test]
fn a_prime_value_stands_once(rt: HostRuntime) {
    prime_laws();
    let mut pages = new_pages(&rt, rt.alloc(), 0, 1);
    let mut index = two_values(&rt, &mut pages);
    adds_place(&rt, &mut index, &mut pages, b"0002", SECOND, false);
    is_read_by_its_values(&rt, &index, &mut pages);
    is_read_in_order(&rt, &index, &mut pages);
    is_removed_once(&rt, &mut index, &mut pages);
    assert_equal(&rt, (index.count(), index.height()), (1, 1));
}

// A name, its stamp and the prime value of its record.
const NAMES: [(&[u8; 5], u64, &[u8; 2]); 3] = [
    (b"SVEN ", 1, b"01"),
    (b"ADAMS", 2, b"02"),
    (b"SMITH", 3, b"03"),
];

// An index of three names.
fn three_names(rt: &impl Abort, pages: &mut MemoryPages) -> AltIndex {
    let empty = AltIndex::empty(pages, 1, 5, 2).expect(rt, "an index");
    let mut index = AltIndex::stored(1, 5, 2, empty.tree.root(), empty.height(), empty.count());
    for &(name, stamp, prime) in &NAMES {
        adds_name(rt, &mut index, pages, name, stamp, prime, true);
    }
    index
}

fn names_come_from_their_first_bytes(rt: &impl Abort, index: &AltIndex, pages: &mut MemoryPages) {
    shows(rt, index.first_from(pages, b"S"), b"SMITH", 3, b"03");
    shows(rt, index.first_from(pages, b"SMITHSON"), b"SVEN ", 1, b"01");
    shows(
        rt,
        index.first_after(pages, b"SMITH", 3),
        b"SVEN ",
        1,
        b"01",
    );
    shows(rt, index.first_after(pages, b"S", 9), b"SMITH", 3, b"03");
}

fn a_whole_name_is_looked_for(rt: &impl Abort, index: &AltIndex, pages: &mut MemoryPages) {
    begins(
        rt,
        first_found(index, pages, b"SMITH"),
        b"SMITH",
        3,
        b"03",
        false,
    );
    shows_none(rt, first_found(index, pages, b"SMIT"));
    shows_none(rt, first_found(index, pages, b"SMYTH"));
}

fn names_come_past_a_letter(rt: &impl Abort, index: &AltIndex, pages: &mut MemoryPages) {
    shows(rt, index.first_past(pages, b"A"), b"SMITH", 3, b"03");
    shows_none(rt, index.first_past(pages, b"S"));
    shows(rt, index.last(pages), b"SVEN ", 1, b"01");
}

#[test]
fn names_come_in_their_order_and_from_their_first_bytes(rt: HostRuntime) {
    alt_laws();
    let mut pages = new_pages(&rt, rt.alloc(), 0, 1);
    let index = three_names(&rt, &mut pages);
    names_come_from_their_first_bytes(&rt, &index, &mut pages);
    a_whole_name_is_looked_for(&rt, &index, &mut pages);
    names_come_past_a_letter(&rt, &index, &mut pages);
}

// The stamps and prime values of records of one name.
const DUPLICATES: [(u64, &[u8; 2]); 3] = [(256, b"03"), (2, b"01"), (255, b"02")];

// An index of one name of three records.
fn one_name(rt: &impl Abort, pages: &mut MemoryPages) -> AltIndex {
    let mut index = AltIndex::empty(pages, 1, 5, 2).expect(rt, "an index");
    for &(stamp, prime) in &DUPLICATES {
        adds_name(rt, &mut index, pages, b"SMITH", stamp, prime, true);
    }
    index
}

fn duplicates_are_in_order(rt: &impl Abort, index: &AltIndex, pages: &mut MemoryPages) {
    shows(rt, index.first_from(pages, b"SMITH"), b"SMITH", 2, b"01");
    shows(
        rt,
        index.first_after(pages, b"SMITH", 2),
        b"SMITH",
        255,
        b"02",
    );
    shows(
        rt,
        index.first_after(pages, b"SMITH", 255),
        b"SMITH",
        256,
        b"03",
    );
    shows_none(rt, index.first_after(pages, b"SMITH", 256));
}

fn a_duplicate_is_found(rt: &impl Abort, index: &AltIndex, pages: &mut MemoryPages) {
    begins(
        rt,
        first_found(index, pages, b"SMITH"),
        b"SMITH",
        2,
        b"01",
        true,
    );
    shows(
        rt,
        name_found(index, pages, b"SMITH", 255),
        b"SMITH",
        255,
        b"02",
    );
    shows_none(rt, name_found(index, pages, b"SMITH", 3));
}

fn a_duplicate_is_removed(rt: &impl Abort, index: &mut AltIndex, pages: &mut MemoryPages) {
    assert_equal(rt, index.remove(pages, b"SMITH", 3), Ok(false));
    assert_equal(rt, index.remove(pages, b"SMITH", 255), Ok(true));
    shows(
        rt,
        index.first_after(pages, b"SMITH", 2),
        b"SMITH",
        256,
        b"03",
    );
}

#[test]
fn duplicates_come_in_the_order_of_their_stamps(rt: HostRuntime) {
    let mut pages = new_pages(&rt, rt.alloc(), 0, 1);
    let mut index = one_name(&rt, &mut pages);
    adds_name(&rt, &mut index, &mut pages, b"SMITH", 255, b"09", false);
    duplicates_are_in_order(&rt, &index, &mut pages);
    a_duplicate_is_found(&rt, &index, &mut pages);
    a_duplicate_is_removed(&rt, &mut index, &mut pages);
    assert_equal(&rt, (index.count(), index.height()), (2, 1));
}

// Two values in an index of records of one prime value, of which the first is the greatest.
fn values_are_told_apart(
    rt: &impl Abort,
    index: &mut AltIndex,
    pages: &mut MemoryPages,
    greatest: &[u8],
    next: &[u8],
    prime: &[u8],
) {
    adds_name(rt, index, pages, greatest, u64::MAX, prime, true);
    adds_name(rt, index, pages, next, u64::MAX, prime, true);
    let found = index.first_from(pages, next);
    shows(rt, found, next, u64::MAX, prime);
    let found = index.first_past(pages, next);
    shows(rt, found, greatest, u64::MAX, prime);
    shows_none(rt, index.first_past(pages, greatest));
    shows(rt, index.last(pages), greatest, u64::MAX, prime);
}

#[test]
fn values_of_250_bytes_are_told_apart_by_the_last(rt: HostRuntime) {
    let mut pages = new_pages(&rt, rt.alloc(), 0, 1);
    let mut index = AltIndex::empty(&mut pages, 2, 250, 250).expect(&rt, "an index");
    let greatest = [255; 250];
    let mut next = [255; 250];
    next[249] = 254;
    values_are_told_apart(&rt, &mut index, &mut pages, &greatest, &next, &[b'7'; 250]);
}

// The entry of a name and a stamp, in place of another one.
fn name_found(
    index: &AltIndex,
    pages: &mut MemoryPages,
    name: &[u8],
    stamp: u64,
) -> Result<Option<AltEntry>, Fault> {
    let mut entry = AltEntry::blank();
    entry.set(b"AGNES", 7, b"00");
    let found = index.find(pages, name, stamp, &mut entry)?;
    Ok(if found { Some(entry) } else { None })
}

// The first entry of a name.
fn first_found(
    index: &AltIndex,
    pages: &mut MemoryPages,
    name: &[u8],
) -> Result<Option<AltFirst>, Fault> {
    let mut first = AltFirst::blank();
    let found = index.first_of(pages, name, &mut first)?;
    Ok(if found { Some(first) } else { None })
}

// The next name of a cursor.
fn next_name(
    cursor: &mut AltCursor,
    index: &AltIndex,
    pages: &mut MemoryPages,
) -> Result<Option<AltEntry>, Fault> {
    let mut entry = AltEntry::blank();
    let found = cursor.next(index, pages, &mut entry)?;
    Ok(if found { Some(entry) } else { None })
}

// The next number of a cursor.
fn next_number(
    cursor: &mut PrimeCursor,
    index: &PrimeIndex,
    pages: &mut MemoryPages,
) -> Result<Option<PrimeEntry>, Fault> {
    let mut entry = PrimeEntry::blank();
    let found = cursor.next(index, pages, &mut entry)?;
    Ok(if found { Some(entry) } else { None })
}

// The next name is this one, and another duplicate follows where the cursor stands, as is said.
fn goes_on(
    rt: &impl Abort,
    cursor: &mut AltCursor,
    index: &AltIndex,
    pages: &mut MemoryPages,
    followed: bool,
    name: &[u8],
    stamp: u64,
    prime: &[u8],
) {
    assert_equal(rt, cursor.is_followed(index, pages), Ok(followed));
    shows(rt, next_name(cursor, index, pages), name, stamp, prime);
}

// A cursor over one name of three records goes on behind the first to the end.
fn goes_to_the_end(
    rt: &impl Abort,
    cursor: &mut AltCursor,
    index: &AltIndex,
    pages: &mut MemoryPages,
) {
    goes_on(rt, cursor, index, pages, true, b"SMITH", 255, b"02");
    goes_on(rt, cursor, index, pages, true, b"SMITH", 256, b"03");
    assert_equal(rt, cursor.is_followed(index, pages), Ok(false));
    shows_none(rt, next_name(cursor, index, pages));
    assert_that(rt, cursor.is_after(b"SMITH", 256));
}

#[test]
fn a_cursor_gives_one_name_after_another(rt: HostRuntime) {
    let mut pages = new_pages(&rt, rt.alloc(), 0, 1);
    let mut names = one_name(&rt, &mut pages);
    assert!(rt; names.width == 5);
    let mut cursor = names.cursor(b"SMITH", 2);
    goes_to_the_end(&rt, &mut cursor, &names, &mut pages);
    adds_name(&rt, &mut names, &mut pages, b"SVEN ", 0, b"04", true);
    goes_on(
        &rt,
        &mut cursor,
        &names,
        &mut pages,
        false,
        b"SVEN ",
        0,
        b"04",
    );
}

#[test]
fn a_cursor_gives_one_number_after_another(rt: HostRuntime) {
    let mut pages = new_pages(&rt, rt.alloc(), 0, 1);
    let index = two_values(&rt, &mut pages);
    assert!(rt; index.width == 4);
    let mut cursor = index.cursor(b"0001");
    is_at(
        &rt,
        next_number(&mut cursor, &index, &mut pages),
        b"0002",
        FIRST,
    );
    assert_that(&rt, cursor.is_after(b"0002"));
}

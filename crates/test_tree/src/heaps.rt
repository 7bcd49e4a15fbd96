//! What no clause says: numbers and bytes that a person reads off the format, and that each call can
//! succeed.

use crate::checks::{assert_equal, assert_equal_for};
use crate::memory::{new_pages, page_of, put_byte};
use io_state::Fault;
use memory_shelf::MemoryPages;
use page_walks::walk_heap;
use pages::{Damage, FaultPlace, PageList, WalkFault};
use record_heap::{Heap, Place, SlotShape, heap_laws};
use std::alloc::Global;
use std::process::Abort;

const FIXED: SlotShape = SlotShape {
    stamps: 0,
    least: 16,
    greatest: 16,
};

const VARYING: SlotShape = SlotShape {
    stamps: 0,
    least: 10,
    greatest: 16,
};

const STAMPED: SlotShape = SlotShape {
    stamps: 8,
    least: 10,
    greatest: 16,
};

// Adds what begins with the stamps, and has the record behind them.
fn add(
    rt: &impl Abort,
    heap: &mut Heap,
    pages: &mut MemoryPages,
    bytes: &[u8],
) -> Result<Place, Fault> {
    let shape = heap.shape();
    assert!(rt; shape.stamps as usize <= bytes.len());
    let (stamps, record) = bytes.split_at(shape.stamps as usize);
    assert!(rt; shape.least as usize <= record.len() && record.len() <= shape.greatest as usize);
    heap.add(pages, stamps, record)
}

// Adds such bytes, for which there is room.
fn added(rt: &impl Abort, heap: &mut Heap, pages: &mut MemoryPages, bytes: &[u8]) -> Place {
    add(rt, heap, pages, bytes).expect(rt, "room for a record")
}

// Sets a place to such bytes.
fn set(rt: &impl Abort, heap: &Heap, pages: &mut MemoryPages, place: Place, bytes: &[u8]) {
    let shape = heap.shape();
    assert!(rt; shape.stamps as usize <= bytes.len());
    let (stamps, record) = bytes.split_at(shape.stamps as usize);
    assert!(rt; shape.least as usize <= record.len() && record.len() <= shape.greatest as usize);
    assert_equal(rt, heap.set(pages, place, stamps, record), Ok(()));
}

// Reads a place into an area of dots, and the record alone into another.
fn read(rt: &impl Abort, heap: &Heap, pages: &mut MemoryPages, place: Place) -> (usize, [u8; 16]) {
    let shape = heap.shape();
    let mut area = [b'.'; 16];
    assert!(rt; shape.stamps as usize + shape.greatest as usize <= area.len());
    let n = heap.get(pages, place, &mut area).expect(rt, "a record");
    let mut alone = [b'.'; 16];
    let m = heap
        .get_record(pages, place, &mut alone)
        .expect(rt, "a record");
    let stamps = shape.stamps as usize;
    assert!(rt; m <= 16 && stamps <= n && n <= 16);
    assert_equal(rt, &alone[..m], &area[stamps..n]);
    (n, area)
}

// No record stands at a place.
fn is_damage(rt: &impl Abort, heap: &Heap, pages: &mut MemoryPages, place: Place) {
    let found = heap.get(pages, place, &mut [b'.'; 4096]);
    assert_equal_for(rt, place, found, Err(Fault::Damage));
}

// A place is free then.
fn free(rt: &impl Abort, heap: &mut Heap, pages: &mut MemoryPages, place: Place) {
    assert_equal(rt, heap.free(pages, place), Ok(()));
}

// A record of 16 bytes that begins with a number.
fn numbered(i: usize) -> [u8; 16] {
    let mut record = [b' '; 16];
    record[..8].copy_from_slice(&(i as u64).to_be_bytes());
    record
}

// Adds records that begin with the numbers below a count.
fn add_numbered(
    rt: &impl Abort,
    alloc: Global,
    heap: &mut Heap,
    pages: &mut MemoryPages,
    count: usize,
) -> Vec<Place> {
    let mut places = Vec::new(alloc);
    for i in 0..count {
        let place = added(rt, heap, pages, &numbered(i));
        places.push(place).expect(rt, "memory");
    }
    places
}

const TEN: SlotShape = SlotShape {
    stamps: 0,
    least: 10,
    greatest: 10,
};

const ONE: SlotShape = SlotShape {
    stamps: 0,
    least: 1,
    greatest: 1,
};

const LARGEST: SlotShape = SlotShape {
    stamps: 64,
    least: 4000,
    greatest: 4000,
};

const LARGEST_VARYING: SlotShape = SlotShape {
    stamps: 64,
    least: 1,
    greatest: 4000,
};

// The bytes of a slot of each shape, and the slots of a page.
const SLOTS: [(SlotShape, usize, usize); 6] = [
    (FIXED, 17, 240),
    (VARYING, 19, 214),
    (TEN, 11, 370),
    (ONE, 7, 582),
    (LARGEST, 4065, 1),
    (LARGEST_VARYING, 4067, 1),
];

#[test]
fn slots_are_as_many_as_fit(rt: HostRuntime) {
    for &(shape, size, room) in &SLOTS {
        assert_equal_for(&rt, shape, (shape.size(), shape.room()), (size, room));
    }
}

#[test]
fn freed_slots_are_taken_before_a_page_is(rt: HostRuntime) {
    heap_laws();
    let mut pages = new_pages(&rt, rt.alloc(), 0, 3);
    let mut heap = Heap::new(FIXED);
    let places = add_numbered(&rt, rt.alloc(), &mut heap, &mut pages, 500);
    assert_equal(&rt, pages.pages.len(), 4);
    for (i, &place) in places.iter().enumerate() {
        let found = read(&rt, &heap, &mut pages, place);
        assert_equal_for(&rt, place, found, (16, numbered(i)));
    }
    for &place in places.iter() {
        free(&rt, &mut heap, &mut pages, place);
    }
    add_numbered(&rt, rt.alloc(), &mut heap, &mut pages, 500);
    assert_equal(&rt, pages.pages.len(), 4);
}

// A place holds so many bytes, and an area of dots is this one once they are read into it.
fn holds(
    rt: &impl Abort,
    heap: &Heap,
    pages: &mut MemoryPages,
    place: Place,
    length: usize,
    area: &[u8; 16],
) {
    assert_equal(rt, read(rt, heap, pages, place), (length, *area));
}

// A record that is not there, behind the last slot of its page, and behind the last page.
const NO_PLACES: [Place; 3] = [
    Place { page: 0, slot: 0 },
    Place { page: 1, slot: 214 },
    Place { page: 2, slot: 0 },
];

#[test]
fn a_shorter_record_leaves_the_rest_of_the_area(rt: HostRuntime) {
    let mut pages = new_pages(&rt, rt.alloc(), 0, 1);
    let mut heap = Heap::new(VARYING);
    let first = added(&rt, &mut heap, &mut pages, b"0002SVEN  ");
    let second = added(&rt, &mut heap, &mut pages, b"0001SMITH OSLO  ");
    holds(&rt, &heap, &mut pages, first, 10, b"0002SVEN  ......");
    set(&rt, &heap, &mut pages, first, b"0002SVEN  MOSS  ");
    set(&rt, &heap, &mut pages, second, b"0001SMITH ");
    holds(&rt, &heap, &mut pages, first, 16, b"0002SVEN  MOSS  ");
    holds(&rt, &heap, &mut pages, second, 10, b"0001SMITH ......");
    free(&rt, &mut heap, &mut pages, first);
    is_damage(&rt, &heap, &mut pages, first);
    for &place in &NO_PLACES {
        is_damage(&rt, &heap, &mut pages, place);
    }
    holds(&rt, &heap, &mut pages, second, 10, b"0001SMITH ......");
}

#[test]
fn a_heap_is_full_where_no_slot_and_no_page_is_left(rt: HostRuntime) {
    let place = Place { page: 1, slot: 7 };
    let mut pages = new_pages(&rt, rt.alloc(), 0, 1);
    let mut heap = Heap::new(FIXED);
    add_numbered(&rt, rt.alloc(), &mut heap, &mut pages, 240);
    let found = add(&rt, &mut heap, &mut pages, &numbered(240));
    assert_equal(&rt, found, Err(Fault::Full));
    free(&rt, &mut heap, &mut pages, place);
    let found = add(&rt, &mut heap, &mut pages, &numbered(240));
    assert_equal(&rt, found, Ok(place));
}

const TENS: &[(usize, &[u8])] = &[
    (0, b"H\0\0\0\0\0\0\0\0\0\0\0\0\0\0\0"),
    (16, b"\x010001SMITH "),
    (27, b"\0\0\0\0\x02\0\x02"),
    (4064, b"\0\0\0\0\x02\x01\x71"),
    (4075, b"\0\0\0\0\0\0\0"),
];

const VARYINGS: &[(usize, &[u8])] = &[
    (0, b"H\0\0\0\0\0\0\0\0\0\0\0\0\0\0\0"),
    (16, b"\x01\0\x0a0001SMITH "),
    (35, b"\0\0\0\0\x03\0\x02"),
    (4044, b"\0\0\0\0\x03\0\xd5"),
    (4063, b"\0\0\0\0\0\0\0"),
];

const STAMPEDS: &[(usize, &[u8])] = &[
    (0, b"H\0\0\0\0\0\0\0\0\0\0\0\0\0\0\0"),
    (16, b"\x01\0\x0a\0\0\0\0\0\0\x02\x050001SMITH "),
    (43, b"\0\0\0\0\x03\0\x02"),
    (4039, b"\0\0\0\0\x03\0\x96"),
    (4066, b"\0\0\0\0\0\0\0"),
];

// The shape of a heap, the pages before it, what is added to it, and the parts of its page then.
const FIRST_PAGES: [(SlotShape, usize, &[u8], &[(usize, &[u8])]); 3] = [
    (TEN, 1, b"0001SMITH ", TENS),
    (VARYING, 2, b"0001SMITH ", VARYINGS),
    (STAMPED, 2, b"\0\0\0\0\0\0\x02\x050001SMITH ", STAMPEDS),
];

// These parts stand in a page.
fn has_parts(rt: &impl Abort, page: &[u8; 4096], shape: SlotShape, parts: &[(usize, &[u8])]) {
    for &(at, bytes) in parts {
        let found = page.get(at..at.saturating_add(bytes.len()));
        assert_equal_for(rt, (shape, at), found, Some(bytes));
    }
}

// The page of the first record: of a file of records of 10 bytes with one key, and of records of 10
// to 16 bytes with two keys, and with a stamp.
#[test]
fn a_heap_page_is_written_byte_for_byte(rt: HostRuntime) {
    for &(shape, others, bytes, parts) in &FIRST_PAGES {
        let mut pages = new_pages(&rt, rt.alloc(), others, 1);
        let mut heap = Heap::new(shape);
        let place = added(&rt, &mut heap, &mut pages, bytes);
        assert_equal(&rt, place.page as usize, others + 1);
        let page = page_of(&rt, &pages, place.page);
        has_parts(&rt, page, shape, parts);
    }
}

// A byte of a page of the heap that is changed, the fault that is told then, and what is wrong.
const DAMAGES: [(usize, usize, u8, Damage, FaultPlace, &str); 9] = [
    (
        2,
        7,
        2,
        Damage::Shared,
        FaultPlace::Page(2),
        "a page that leads to itself",
    ),
    (
        2,
        0,
        b'L',
        Damage::Heap,
        FaultPlace::Page(2),
        "a page of another kind",
    ),
    (
        1,
        1,
        1,
        Damage::Heap,
        FaultPlace::Page(1),
        "a byte that should be zero",
    ),
    (
        1,
        7,
        9,
        Damage::Heap,
        FaultPlace::Page(1),
        "a page that is not there",
    ),
    (
        1,
        16,
        2,
        Damage::Heap,
        FaultPlace::Entry { page: 1, entry: 0 },
        "a mark that is none",
    ),
    (
        1,
        16,
        0,
        Damage::Heap,
        FaultPlace::Entry { page: 1, entry: 0 },
        "a free slot that nothing leads to",
    ),
    (
        1,
        50,
        0,
        Damage::Heap,
        FaultPlace::Entry { page: 1, entry: 2 },
        "another free slot that nothing leads to",
    ),
    (
        1,
        141,
        9,
        Damage::Heap,
        FaultPlace::Entry { page: 1, entry: 7 },
        "a link to a slot in use",
    ),
    (
        1,
        139,
        9,
        Damage::Heap,
        FaultPlace::Entry { page: 1, entry: 7 },
        "a link to a page that is not there",
    ),
];

// A heap of two pages, whose first page has a free slot.
fn two_pages(rt: &impl Abort, alloc: Global, pages: &mut MemoryPages) -> Heap {
    let mut heap = Heap::new(FIXED);
    add_numbered(rt, alloc, &mut heap, pages, 250);
    free(rt, &mut heap, pages, Place { page: 1, slot: 7 });
    heap
}

#[test]
fn a_walk_finds_the_pages_of_a_heap(rt: HostRuntime) {
    let mut pages = new_pages(&rt, rt.alloc(), 0, 2);
    let heap = two_pages(&rt, rt.alloc(), &mut pages);
    let mut reached = [false; 3];
    let mut list = PageList {
        pages: &pages.pages,
    };
    let own = walk_heap(rt.alloc(), &mut list, &heap, &mut reached).expect(&rt, "its pages");
    assert_equal(&rt, own.as_slice(), [2, 1].as_slice());
    assert_equal(&rt, reached, [false, true, true]);
    let again = walk_heap(rt.alloc(), &mut list, &heap, &mut reached).err();
    let fault = WalkFault::of_page(Damage::Shared, 2);
    assert_equal(&rt, again, Some(fault));
}

#[test]
fn a_walk_finds_what_is_lost(rt: HostRuntime) {
    let mut pages = new_pages(&rt, rt.alloc(), 0, 2);
    let heap = two_pages(&rt, rt.alloc(), &mut pages);
    for &(n, at, byte, fault, place, what) in &DAMAGES {
        let was = put_byte(&rt, &mut pages.pages, n, at, byte);
        let mut list = PageList {
            pages: &pages.pages,
        };
        let found = walk_heap(rt.alloc(), &mut list, &heap, &mut [false; 3]);
        assert_equal_for(&rt, what, found.err(), Some(WalkFault::At(fault, place)));
        put_byte(&rt, &mut pages.pages, n, at, was);
    }
}

// What the header tells of a heap of one page is told at page 0.
fn begins_wrongly(rt: &impl Abort, alloc: Global, pages: &MemoryPages, heap: Heap) {
    let mut list = PageList {
        pages: &pages.pages,
    };
    let found = walk_heap(alloc, &mut list, &heap, &mut [false; 2]).err();
    let fault = WalkFault::of_page(Damage::Heap, 0);
    assert_equal_for(rt, heap, found, Some(fault));
}

#[test]
fn a_heap_that_begins_wrongly_is_told_at_the_first_page(rt: HostRuntime) {
    let mut pages = new_pages(&rt, rt.alloc(), 0, 1);
    let mut heap = Heap::new(FIXED);
    added(&rt, &mut heap, &mut pages, &numbered(0));
    let away = Heap::stored(heap.shape(), 2, heap.first_free());
    begins_wrongly(&rt, rt.alloc(), &pages, away);
    let in_use = Heap::stored(FIXED, heap.first_page(), Place { page: 1, slot: 0 });
    begins_wrongly(&rt, rt.alloc(), &pages, in_use);
}

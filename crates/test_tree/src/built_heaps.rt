//! Heaps built from records in order: every record is read at its place, no page is taken but those
//! that are full and the last one, and the heap that comes out is one like any other.

use crate::checks::{assert_equal, assert_equal_for};
use crate::memory::new_pages;
use io_state::Fault;
use memory_shelf::MemoryPages;
use record_heap::{Heap, HeapBuilder, Place, SlotShape};
use std::alloc::Global;
use std::process::Abort;

// A page has 240 slots.
const FIXED: SlotShape = SlotShape {
    stamps: 0,
    least: 16,
    greatest: 16,
};

// A record that begins with a number.
fn record_of(number: usize) -> [u8; 16] {
    let mut record = [b' '; 16];
    record[..8].copy_from_slice(&(number as u64).to_be_bytes());
    record
}

// Pushes the record of a number.
fn push(
    rt: &impl Abort,
    builder: &mut HeapBuilder,
    pages: &mut MemoryPages,
    number: usize,
) -> Result<Place, Fault> {
    let shape = builder.shape();
    assert!(rt; shape.stamps == 0 && shape.least <= 16 && 16 <= shape.greatest);
    builder.push(pages, &[], &record_of(number))
}

// Pushes the records of the first numbers, and answers their places.
fn pushed(
    rt: &impl Abort,
    alloc: Global,
    builder: &mut HeapBuilder,
    pages: &mut MemoryPages,
    count: usize,
) -> Vec<Place> {
    let mut places = Vec::new(alloc);
    for number in 0..count {
        let place = push(rt, builder, pages, number).expect(rt, "a record");
        places.push(place).expect(rt, "memory");
    }
    places
}

// Each record is read at its place, which is the next slot of its page.
fn has_all(rt: &impl Abort, heap: &Heap, pages: &mut MemoryPages, places: &[Place]) {
    for (number, &place) in places.iter().enumerate() {
        let mut area = [b'.'; 16];
        let shape = heap.shape();
        assert!(rt; shape.greatest as usize <= area.len());
        let length = heap
            .get_record(pages, place, &mut area)
            .expect(rt, "a record");
        assert_equal_for(rt, number, (length, area), (16, record_of(number)));
        assert_equal_for(rt, number, place.slot as usize, number % 240);
    }
}

// So many records, and how many pages the heap has.
const BUILT: [(usize, usize); 6] = [(0, 0), (1, 1), (239, 1), (240, 1), (241, 2), (720, 3)];

#[test]
fn each_record_of_a_built_heap_is_at_its_place(rt: HostRuntime) {
    for &(count, taken) in &BUILT {
        let mut pages = new_pages(&rt, rt.alloc(), 0, 10);
        let mut builder = HeapBuilder::new(FIXED);
        let places = pushed(&rt, rt.alloc(), &mut builder, &mut pages, count);
        let mut heap = builder.finish(&mut pages).expect(&rt, "a heap");
        assert_equal_for(&rt, count, pages.taken(), taken);
        has_all(&rt, &heap, &mut pages, &places);
        adds_behind(&rt, &mut heap, &mut pages, count);
    }
}

// A record that is added comes into the slot behind the last one.
fn adds_behind(rt: &impl Abort, heap: &mut Heap, pages: &mut MemoryPages, count: usize) {
    let shape = heap.shape();
    assert!(rt; shape.stamps == 0 && shape.least <= 16 && 16 <= shape.greatest);
    let place = heap
        .add(pages, &[], &record_of(count))
        .expect(rt, "a record more");
    assert_equal_for(rt, count, place.slot as usize, count % 240);
    assert_equal_for(rt, count, pages.taken(), count / 240 + 1);
}

#[test]
fn a_built_heap_is_full_where_no_page_is_left(rt: HostRuntime) {
    let mut pages = new_pages(&rt, rt.alloc(), 0, 1);
    let mut builder = HeapBuilder::new(FIXED);
    pushed(&rt, rt.alloc(), &mut builder, &mut pages, 240);
    let found = push(&rt, &mut builder, &mut pages, 240);
    assert_equal(&rt, found, Err(Fault::Full));
}

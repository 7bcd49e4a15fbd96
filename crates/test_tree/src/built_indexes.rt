//! Indexes built from entries in order: every entry is found, in the place or with the prime value
//! that it came with, and none beside them.

use crate::checks::{assert_equal, assert_equal_for};
use crate::memory::new_pages;
use io_state::Fault;
use key_index::{AltEntry, AltIndex, PrimeIndex};
use memory_shelf::MemoryPages;
use record_heap::Place;
use std::alloc::Global;
use std::process::Abort;
use tree_building::{
    AltBuilder, PrimeBuilder, alt_builder_laws, entry_order_laws, heap_builder_laws,
    prime_builder_laws,
};

// A value of 4 bytes.
fn value_of(number: u32) -> [u8; 4] {
    number.to_be_bytes()
}

// The place of the record of a number.
fn place_of(number: u32) -> Place {
    Place {
        page: number / 7,
        slot: (number % 7) as u16,
    }
}

fn push_place(
    rt: &impl Abort,
    builder: &mut PrimeBuilder,
    pages: &mut MemoryPages,
    number: u32,
) -> Result<(), Fault> {
    let value = value_of(number);
    assert!(rt; usize::from(builder.width) == value.len());
    builder.push(pages, &value, place_of(number))
}

// The index of the even numbers below this one.
fn built_prime(rt: &impl Abort, alloc: Global, pages: &mut MemoryPages, below: u32) -> PrimeIndex {
    let mut builder = PrimeBuilder::new(alloc, 4);
    for number in 0..below {
        if number % 2 == 0 {
            push_place(rt, &mut builder, pages, number).expect(rt, "an entry");
        }
    }
    builder.finish(alloc, pages).expect(rt, "an index")
}

// Whether the place of a number is found.
fn has_place(rt: &impl Abort, index: &PrimeIndex, pages: &mut MemoryPages, number: u32) -> bool {
    let value = value_of(number);
    match index
        .place_of(pages, &value)
        .expect(rt, "the index is read")
    {
        Some(place) => place == place_of(number),
        None => false,
    }
}

// Numbers below which the even ones are built, how many levels the index has then, and how many pages.
const BUILT: [(u32, u8, usize); 5] = [(0, 1, 1), (1, 1, 1), (816, 1, 1), (818, 2, 3), (6000, 2, 9)];

#[test]
fn each_value_of_a_built_index_leads_to_its_place(rt: HostRuntime) {
    for &(below, height, taken) in &BUILT {
        let mut pages = new_pages(&rt, rt.alloc(), 0, 1000);
        let index = built_prime(&rt, rt.alloc(), &mut pages, below);
        assert_equal(&rt, (index.width, index.height()), (4, height));
        assert_equal_for(&rt, below, pages.taken(), taken);
        assert_equal(&rt, index.count(), below.div_ceil(2) as u64);
        for number in 0..below {
            let found = has_place(&rt, &index, &mut pages, number);
            assert_equal_for(&rt, number, found, number % 2 == 0);
        }
    }
}

// A value that ten entries have, and a prime value, both of a number.
fn alt_entry_of(number: u32) -> AltEntry {
    let mut entry = AltEntry::blank();
    entry.set(&value_of(number / 10), number as u64, &value_of(number));
    entry
}

fn push_name(
    rt: &impl Abort,
    builder: &mut AltBuilder,
    pages: &mut MemoryPages,
    number: u32,
) -> Result<(), Fault> {
    let entry = alt_entry_of(number);
    assert!(rt; entry.value.len() == usize::from(builder.width));
    assert!(rt; entry.prime.len() == usize::from(builder.prime));
    builder.push(pages, &entry)
}

// The index of the numbers below this one.
fn built_alt(rt: &impl Abort, alloc: Global, pages: &mut MemoryPages, below: u32) -> AltIndex {
    let mut builder = AltBuilder::new(alloc, 3, 4, 4);
    for number in 0..below {
        push_name(rt, &mut builder, pages, number).expect(rt, "an entry");
    }
    builder.finish(alloc, pages).expect(rt, "an index")
}

// Whether the entry of a number is found, with its prime value.
fn has_name(rt: &impl Abort, index: &AltIndex, pages: &mut MemoryPages, number: u32) -> bool {
    let mut entry = AltEntry::blank();
    let value = value_of(number / 10);
    let found = index
        .find(pages, &value, number as u64, &mut entry)
        .expect(rt, "the index is read");
    found && entry.prime.as_slice() == &value_of(number)[..]
}

#[test]
fn each_rank_of_a_built_index_leads_to_its_prime_value(rt: HostRuntime) {
    let mut pages = new_pages(&rt, rt.alloc(), 0, 1000);
    let index = built_alt(&rt, rt.alloc(), &mut pages, 3000);
    assert_equal(&rt, (index.width, index.prime, index.height()), (4, 4, 2));
    assert_equal(&rt, (index.count(), pages.taken()), (3000, 13));
    for number in 0..3001 {
        let found = has_name(&rt, &index, &mut pages, number);
        assert_equal_for(&rt, number, found, number < 3000);
    }
}

#[test]
fn a_built_index_is_full_where_no_page_is_left(rt: HostRuntime) {
    let mut pages = new_pages(&rt, rt.alloc(), 0, 0);
    let mut builder = PrimeBuilder::new(rt.alloc(), 4);
    for number in 0..816 {
        push_place(&rt, &mut builder, &mut pages, number).expect(&rt, "an entry in memory");
    }
    let full = push_place(&rt, &mut builder, &mut pages, 816);
    assert_equal(&rt, full, Err(Fault::Full));
    prime_builder_laws();
    alt_builder_laws();
    heap_builder_laws();
    entry_order_laws();
}

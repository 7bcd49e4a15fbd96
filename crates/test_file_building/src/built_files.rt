//! Files built from records, and records of which none is built.

use crate::checks::assert_equal;
use file_building::{Built, FileBuilder, Pushed};
use io_state::Fault;
use memory_shelf::MemoryPages;
use pages::Pages;
use record_layout::{KeyKind, KeyPart, Schema};
use std::alloc::Global;
use std::process::Abort;

/// A prime key, a key whose values are unique, and one that may have duplicates.
const KEYS: [KeyPart; 3] = [
    KeyPart {
        offset: 0,
        length: 2,
        kind: KeyKind::Prime,
    },
    KeyPart {
        offset: 2,
        length: 2,
        kind: KeyKind::Unique,
    },
    KeyPart {
        offset: 4,
        length: 1,
        kind: KeyKind::Duplicates,
    },
];

/// So many bytes suffice for the fronts of all records.
const MEMORY: usize = 1_000_000;

/// So many bytes suffice for the fronts of five records, and for two entries in a batch.
const FEW: usize = 300;

fn schema(rt: &impl Abort) -> Schema {
    Schema::from_parts(5, 5, &KEYS).expect(rt, "a schema")
}

/// Puts a record behind the others.
fn pushes(
    rt: &impl Abort,
    builder: &mut FileBuilder,
    pages: &mut MemoryPages,
    record: &[u8; 5],
) -> Pushed {
    let schema = builder.schema();
    assert!(rt; schema.least() == 5);
    assert!(rt; schema.greatest() == 5);
    builder.push(pages, record).expect(rt, "memory")
}

/// How many records the file has that is built from these; None where two of them clash.
fn built(rt: &impl Abort, alloc: Global, records: &[[u8; 5]]) -> Option<u64> {
    let mut pages = MemoryPages::new(alloc, 0, 1_000).expect(rt, "memory");
    built_in(rt, alloc, &mut pages, records, MEMORY)
}

/// The same, in these pages, where at most so many bytes are held of the records.
fn built_in(
    rt: &impl Abort,
    alloc: Global,
    pages: &mut MemoryPages,
    records: &[[u8; 5]],
    memory: usize,
) -> Option<u64> {
    let mut builder = FileBuilder::new(alloc, &schema(rt), memory);
    for record in records {
        let pushed = pushes(rt, &mut builder, pages, record);
        assert_equal(rt, pushed, Pushed::Done);
    }
    match builder.finish(alloc, pages).expect(rt, "memory") {
        Built::File(opened) => Some(opened.prime().count()),
        Built::Clash => None,
    }
}

#[test]
fn records_in_order_make_a_file(rt: HostRuntime) {
    let alloc = rt.alloc();
    assert_equal(&rt, built(&rt, alloc, &[]), Some(0));
    let records = [*b"01ZZx", *b"02AAx", *b"03MMx"];
    assert_equal(&rt, built(&rt, alloc, &records), Some(3));
}

#[test]
fn values_that_are_to_be_unique_clash(rt: HostRuntime) {
    let records = [*b"01ZZx", *b"02AAy", *b"03ZZz"];
    assert_equal(&rt, built(&rt, rt.alloc(), &records), None);
}

#[test]
fn a_record_out_of_order_is_told(rt: HostRuntime) {
    let alloc = rt.alloc();
    let mut pages = MemoryPages::new(alloc, 0, 1_000).expect(&rt, "memory");
    let mut builder = FileBuilder::new(alloc, &schema(&rt), MEMORY);
    let first = pushes(&rt, &mut builder, &mut pages, b"02AAx");
    assert_equal(&rt, first, Pushed::Done);
    let same = pushes(&rt, &mut builder, &mut pages, b"02BBx");
    assert_equal(&rt, same, Pushed::OutOfOrder);
    let less = pushes(&rt, &mut builder, &mut pages, b"01CCx");
    assert_equal(&rt, less, Pushed::OutOfOrder);
    let more = pushes(&rt, &mut builder, &mut pages, b"03CCx");
    assert_equal(&rt, more, Pushed::Done);
}

/// Twenty records, whose values of the unique key are in another order than their prime values.
fn twenty_records() -> [[u8; 5]; 20] {
    let mut records = [*b"AaAax"; 20];
    for i in 0..20 {
        records[i][1] = b'a' + i as u8;
        records[i][3] = b'a' + (i * 7 % 20) as u8;
        records[i][4] = b'x' + (i % 3) as u8;
    }
    records
}

#[test]
fn a_file_built_in_batches_has_the_same_pages(rt: HostRuntime) {
    let alloc = rt.alloc();
    let records = twenty_records();
    let mut whole = MemoryPages::new(alloc, 0, 1_000).expect(&rt, "memory");
    let mut batched = MemoryPages::new(alloc, 0, 1_000).expect(&rt, "memory");
    assert_equal(
        &rt,
        built_in(&rt, alloc, &mut whole, &records, MEMORY),
        Some(20),
    );
    assert_equal(
        &rt,
        built_in(&rt, alloc, &mut batched, &records, FEW),
        Some(20),
    );
    assert_equal(&rt, whole.count(), batched.count());
    for n in 1..whole.count() {
        let page = *whole.page(n).expect(&rt, "a page");
        assert!(rt; page == *batched.page(n).expect(&rt, "a page"), "page {n}");
    }
}

#[test]
fn values_of_two_batches_clash(rt: HostRuntime) {
    let alloc = rt.alloc();
    let mut records = twenty_records();
    records[19][3] = records[2][3];
    let mut pages = MemoryPages::new(alloc, 0, 1_000).expect(&rt, "memory");
    assert_equal(&rt, built_in(&rt, alloc, &mut pages, &records, FEW), None);
}

#[test]
fn memory_is_wanting_where_it_suffices_for_no_entry(rt: HostRuntime) {
    let alloc = rt.alloc();
    let mut pages = MemoryPages::new(alloc, 0, 1_000).expect(&rt, "memory");
    let mut builder = FileBuilder::new(alloc, &schema(&rt), 1);
    let pushed = pushes(&rt, &mut builder, &mut pages, b"01AAx");
    assert_equal(&rt, pushed, Pushed::Done);
    match builder.finish(alloc, &mut pages) {
        Err(fault) => assert_equal(&rt, fault, Fault::Memory),
        Ok(_) => panic!(rt; "a file was built"),
    }
}

//! The first pages of two files, byte for byte, and what one changed byte does.

use crate::checks::{assert_equal, assert_equal_for};
use open_file::{Header, TreeNumbers};
use pages::PAGE_SIZE;
use record_layout::{KeyKind, KeyPart, Schema};
use std::process::Abort;

// A file of three pages with one key, and one record of 10 bytes.
const ONE_KEY: [&[u8; 16]; 5] = [
    b"CCOBIXIF\x00\x01\x00\x0a\x00\x00\x00\x03",
    b"\x00\x00\x00\x00\x00\x00\x00\x00\x00\x00\x00\x02\x00\x00\x00\x02",
    b"\x00\x01\x01\x00\x00\x00\x00\x00\x00\x00\x00\x00\x00\x00\x00\x02",
    b"\x00\x00\x00\x00\x00\x00\x00\x01\x00\x00\x00\x00\x00\x00\x00\x00",
    b"\x00\x00\x00\x04\x00\x01\x00\x00\x00\x00\x00\x01\x00\x00\x00\x00",
];

// A file of four pages with two keys, and one record, of 10 to 16 bytes.
const TWO_KEYS: [&[u8; 16]; 6] = [
    b"CCOBIXIF\x00\x02\x00\x10\x00\x00\x00\x04",
    b"\x00\x00\x00\x00\x00\x00\x00\x00\x00\x00\x00\x03\x00\x00\x00\x03",
    b"\x00\x01\x02\x00\x00\x0a\x00\x00\x00\x00\x00\x00\x00\x00\x00\x02",
    b"\x00\x00\x00\x00\x00\x00\x00\x01\x00\x00\x00\x00\x00\x00\x00\x00",
    b"\x00\x00\x00\x04\x00\x01\x00\x00\x00\x00\x00\x01\x00\x00\x00\x00",
    b"\x00\x04\x00\x06\x01\x01\x00\x00\x00\x00\x00\x02\x00\x00\x00\x00",
];

fn first_page(rt: &impl Abort, rows: &[&[u8; 16]]) -> [u8; PAGE_SIZE] {
    let mut page = [0; PAGE_SIZE];
    for (k, row) in rows.iter().enumerate() {
        assert!(rt; k < 256);
        page[16 * k..16 * k + 16].copy_from_slice(*row);
    }
    page
}

fn accepted(rt: &impl Abort, page: &[u8; PAGE_SIZE]) -> Header {
    Header::read(page).expect(rt, "the page is accepted")
}

const PRIME: KeyPart = KeyPart {
    offset: 0,
    length: 4,
    kind: KeyKind::Prime,
};

const UNIQUE: KeyPart = KeyPart {
    offset: 4,
    length: 6,
    kind: KeyKind::Unique,
};

fn has_schema(rt: &impl Abort, schema: &Schema, least: u16, greatest: u16, keys: &[KeyPart]) {
    assert_equal(rt, (schema.least(), schema.greatest()), (least, greatest));
    assert_equal(rt, schema.keys(), keys);
}

// A tree that is one leaf.
const fn leaf(root: u32) -> TreeNumbers {
    TreeNumbers { height: 1, root }
}

#[test]
fn a_page_tells_what_the_format_says(rt: HostRuntime) {
    let header = accepted(&rt, &first_page(&rt, &ONE_KEY));
    let pages = (header.pages, header.first_free, header.free);
    assert_equal(&rt, pages, (3, 0, 0));
    let slots = (header.first_heap, header.free_slot_page, header.free_slot);
    assert_equal(&rt, slots, (2, 2, 1));
    assert_equal(&rt, (header.next_stamp, header.records), (2, 1));
    assert_equal(&rt, header.trees.as_slice(), [leaf(1)].as_slice());
    has_schema(&rt, &header.schema, 10, 10, &[PRIME]);
}

#[test]
fn version_2_tells_the_least_length(rt: HostRuntime) {
    let header = accepted(&rt, &first_page(&rt, &TWO_KEYS));
    assert_equal(&rt, header.trees.as_slice(), [leaf(1), leaf(2)].as_slice());
    has_schema(&rt, &header.schema, 10, 16, &[PRIME, UNIQUE]);
}

#[test]
fn a_page_is_written_as_it_was_read_with_its_gate_open(rt: HostRuntime) {
    for rows in [&ONE_KEY[..], &TWO_KEYS[..]] {
        let mut page = first_page(&rt, rows);
        let mut written = [1; PAGE_SIZE];
        accepted(&rt, &page).write(&mut written);
        page[0] = b'D';
        assert!(rt; written == page);
    }
}

// What may stand at a place of the first file's page, beside what stands there.
const fn is_allowed(at: usize, byte: u8) -> bool {
    match at {
        // The greatest length, the last byte of the page count, and that of the next stamp.
        11 | 15 | 47 => byte != 0,
        // The first heap page and the page of the first free slot may be none.
        27 | 31 => byte == 0,
        // The page count, a slot, the next stamp up to 2^63, and the number of records.
        12..=14 | 32 | 33 | 41..=55 => true,
        _ => false,
    }
}

#[test]
fn one_changed_byte_is_refused_where_the_format_says_so(rt: HostRuntime) {
    let first = first_page(&rt, &ONE_KEY);
    for at in 0..128 {
        for byte in [0, 255, !first[at]] {
            let mut page = first;
            page[at] = byte;
            let expected = byte == first[at] || is_allowed(at, byte);
            assert_equal_for(&rt, (at, byte), Header::read(&page).is_some(), expected);
        }
    }
}

#[test]
fn a_byte_behind_the_keys_is_zero(rt: HostRuntime) {
    let first = first_page(&rt, &ONE_KEY);
    for at in [80, 95, 96, 2048, 4095] {
        let mut page = first;
        page[at] = 1;
        assert!(rt; Header::read(&page).is_none(), "byte {at}");
    }
}

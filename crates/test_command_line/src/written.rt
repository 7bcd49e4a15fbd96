//! Files byte for byte.

use std::alloc::Global;
use std::process::Abort;
use std::test::Fail;

/// Puts another byte into a file, and answers the one that stood there.
pub fn put(rt: &impl Abort, bytes: &mut [u8], at: usize, byte: u8) -> u8 {
    assert!(rt; at < bytes.len());
    let was = bytes[at];
    bytes[at] = byte;
    was
}

/// Puts bytes into a file from one place on.
pub fn put_all(rt: &impl Abort, bytes: &mut [u8], at: usize, part: &[u8]) {
    assert!(rt; at < 1_000_000);
    for (i, &byte) in part.iter().enumerate() {
        assert!(rt; i < 4096);
        put(rt, bytes, at + i, byte);
    }
}

fn zeros(alloc: Global, pages: usize) -> Result<Vec<u8>, Fail> {
    let mut bytes = Vec::new(alloc);
    for _ in 0..pages {
        bytes.extend_from_slice(&[0; 4096])?;
    }
    Ok(bytes)
}

// Links the free slots of a page of the heap, of so many bytes each, from number `first` to the last, in
// rising order. They are free where byte 0 is zero, as it is.
fn link(rt: &impl Abort, bytes: &mut [u8], page: u8, size: usize, first: usize, room: usize) {
    assert!(rt; size < 4096 && room < 582);
    for i in first..room {
        let at = 4096 * page as usize + 16 + size * i;
        if i + 1 < room {
            let behind = (i + 1) as u16;
            put(rt, bytes, at + 4, page);
            put_all(rt, bytes, at + 5, &behind.to_be_bytes());
        }
    }
}

// Where the numbers of the first page end.
const PLACES: [usize; 11] = [9, 11, 15, 19, 23, 27, 31, 33, 34, 37, 47];

// The first bytes: version, greatest length, pages, free pages, first heap page, first free slot, keys, least
// length, next stamp and records.
fn put_numbers(rt: &impl Abort, bytes: &mut [u8], numbers: &[u8; 11]) {
    put_all(rt, bytes, 0, b"CCOBIXIF");
    for (&at, &number) in PLACES.iter().zip(numbers) {
        put(rt, bytes, at, number);
    }
}

// The row of key k: offset, length, kind, and the root of its tree, of one level.
fn put_key(rt: &impl Abort, bytes: &mut [u8], k: usize, row: [u8; 4]) {
    assert!(rt; k < 9);
    let [offset, length, kind, root] = row;
    let at = 64 + 16 * k;
    put(rt, bytes, at + 1, offset);
    put(rt, bytes, at + 3, length);
    put(rt, bytes, at + 4, kind);
    put(rt, bytes, at + 5, 1);
    put(rt, bytes, at + 11, root);
}

// A leaf of key k, with these entries.
fn put_leaf(rt: &impl Abort, bytes: &mut [u8], page: usize, k: u8, entries: &[&[u8]]) {
    assert!(rt; page < 100 && entries.len() < 100);
    put(rt, bytes, 4096 * page, b'L');
    put(rt, bytes, 4096 * page + 1, k);
    put(rt, bytes, 4096 * page + 3, entries.len() as u8);
    let mut at = 4096 * page + 16;
    for entry in entries {
        put_all(rt, bytes, at, entry);
        assert!(rt; at < 1_000_000 && entry.len() < 4096);
        at += entry.len();
    }
}

/// One record of 10 bytes with a prime key of 4: a header, a leaf, a page of 370 slots.
pub fn one_record(rt: &impl Abort, alloc: Global) -> Result<Vec<u8>, Fail> {
    let mut bytes = zeros(alloc, 3)?;
    put_numbers(rt, &mut bytes, &[1, 10, 3, 0, 0, 2, 2, 1, 1, 0, 1]);
    put(rt, &mut bytes, 55, 1);
    put_key(rt, &mut bytes, 0, [0, 4, 0, 1]);
    put_leaf(rt, &mut bytes, 1, 0, &[b"0001\0\0\0\x02\0\0".as_slice()]);
    put_all(rt, &mut bytes, 8192, b"H");
    put_all(rt, &mut bytes, 8208, b"\x010001SMITH ");
    link(rt, &mut bytes, 2, 11, 1, 370);
    Ok(bytes)
}

/// One record of 10 bytes, where 16 are the most, with a prime key of 4 and an alternate key of 6 from place
/// 4 on: a header, two leaves, a page of 214 slots.
pub fn varying(rt: &impl Abort, alloc: Global) -> Result<Vec<u8>, Fail> {
    let mut bytes = zeros(alloc, 4)?;
    put_numbers(rt, &mut bytes, &[2, 16, 4, 0, 0, 3, 3, 1, 2, 10, 1]);
    put(rt, &mut bytes, 55, 1);
    put_key(rt, &mut bytes, 0, [0, 4, 0, 1]);
    put_key(rt, &mut bytes, 1, [4, 6, 1, 2]);
    put_leaf(rt, &mut bytes, 1, 0, &[b"0001\0\0\0\x03\0\0".as_slice()]);
    put_leaf(
        rt,
        &mut bytes,
        2,
        1,
        &[b"SMITH \0\0\0\0\0\0\0\00001".as_slice()],
    );
    put_all(rt, &mut bytes, 12288, b"H");
    put_all(rt, &mut bytes, 12304, b"\x01\0\x0a0001SMITH ");
    link(rt, &mut bytes, 3, 19, 1, 214);
    Ok(bytes)
}

const PRIMES: [&[u8]; 3] = [
    b"0001\0\0\0\x04\0\0",
    b"0002\0\0\0\x04\0\x02",
    b"0003\0\0\0\x04\0\x01",
];

const CODES: [&[u8]; 3] = [
    b"AA\0\0\0\0\0\0\0\00001",
    b"BB\0\0\0\0\0\0\0\00003",
    b"CC\0\0\0\0\0\0\0\00002",
];

const CITIES: [&[u8]; 3] = [
    b"OSLO\0\0\0\0\0\0\0\x010001",
    b"OSLO\0\0\0\0\0\0\0\x030002",
    b"ROME\0\0\0\0\0\0\0\x020003",
];

/// Three records of 12 bytes with a prime key of 4, a unique alternate key of 2 and one of 4 that has
/// duplicates: a header, three leaves (pages 1 to 3), a page of 194 slots (page 4), and a free page (page 5).
pub fn three_keys(rt: &impl Abort, alloc: Global) -> Result<Vec<u8>, Fail> {
    let mut bytes = zeros(alloc, 6)?;
    put_numbers(rt, &mut bytes, &[1, 12, 6, 5, 1, 4, 4, 3, 3, 0, 4]);
    put(rt, &mut bytes, 55, 3);
    put_key(rt, &mut bytes, 0, [0, 4, 0, 1]);
    put_key(rt, &mut bytes, 1, [4, 2, 1, 2]);
    put_key(rt, &mut bytes, 2, [6, 4, 2, 3]);
    put_leaf(rt, &mut bytes, 1, 0, &PRIMES);
    put_leaf(rt, &mut bytes, 2, 1, &CODES);
    put_leaf(rt, &mut bytes, 3, 2, &CITIES);
    put_all(rt, &mut bytes, 16384, b"H");
    put_all(rt, &mut bytes, 16400, b"\x01\0\0\0\0\0\0\0\x010001AAOSLO..");
    put_all(rt, &mut bytes, 16421, b"\x01\0\0\0\0\0\0\0\x020003BBROME..");
    put_all(rt, &mut bytes, 16442, b"\x01\0\0\0\0\0\0\0\x030002CCOSLO..");
    link(rt, &mut bytes, 4, 21, 3, 194);
    put_all(rt, &mut bytes, 20480, b"F");
    Ok(bytes)
}

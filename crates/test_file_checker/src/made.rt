//! What is found of files that an open file has made.

use crate::checks::{assert_equal, assert_equal_for};
use crate::files::made;
use byteorder::{BigEndian, ByteOrder};
use file_checker::{CheckFault, Reason, Verdict, check_file};
use pages::{FaultPlace, PAGE_SIZE};
use std::alloc::Global;
use std::process::Abort;

fn check(alloc: Global, bytes: &[u8]) -> Result<Verdict, CheckFault> {
    let mut reader = bytes;
    check_file(alloc, &mut reader)
}

/// So many records, in all pages that the bytes have.
fn sound(records: u32, bytes: &[u8]) -> Verdict {
    Verdict::Sound {
        records: u64::from(records),
        pages: u32::try_from(bytes.len() / PAGE_SIZE).unwrap_or(u32::MAX),
    }
}

/// A file with so many records, of which some are removed, is sound, and has so many left.
fn is_sound(rt: &impl Abort, alloc: Global, count: u32, removed: u32, left: u32) {
    let bytes = made(rt, alloc, count, removed);
    let found = check(alloc, &bytes);
    assert_equal_for(rt, (count, removed), found, Ok(sound(left, &bytes)));
}

// A body that always finds a file unsound, or always wants memory, fails here.
#[test]
fn files_that_were_closed_are_sound(rt: HostRuntime) {
    let alloc = rt.alloc();
    for &count in &[0, 1, 2, 18, 19, 20, 400, 2000] {
        is_sound(&rt, alloc, count, 0, count);
    }
}

// Pages and slots are free then, and trees are lower.
#[test]
fn a_file_that_shrank_is_sound(rt: HostRuntime) {
    let alloc = rt.alloc();
    for &(removed, left) in &[(1, 399), (200, 200), (399, 1), (400, 0)] {
        is_sound(&rt, alloc, 400, removed, left);
    }
}

/// So many pages of a file are not all.
fn is_short(rt: &impl Abort, alloc: Global, bytes: &[u8], pages: usize) {
    let end = PAGE_SIZE.saturating_mul(pages).min(bytes.len());
    let found = check(alloc, &bytes[..end]);
    let short = Verdict::Unsound(Reason::Short, FaultPlace::File);
    assert_equal_for(rt, pages, found, Ok(short));
}

#[test]
fn each_part_of_a_file_is_short(rt: HostRuntime) {
    let alloc = rt.alloc();
    let bytes = made(&rt, alloc, 2000, 0);
    for page in 0..bytes.len() / PAGE_SIZE {
        is_short(&rt, alloc, bytes.as_slice(), page);
    }
}

/// The number in four bytes.
fn number(rt: &impl Abort, bytes: &[u8], at: usize) -> u32 {
    assert!(rt; at < bytes.len() && bytes.len() - at >= 4);
    BigEndian::read_u32(&bytes[at..])
}

/// The first leaf of the prime index.
fn first_leaf(rt: &impl Abort, bytes: &[u8]) -> usize {
    let mut page = number(rt, bytes, 72) as usize;
    for _ in 0..20 {
        let at = PAGE_SIZE.saturating_mul(page);
        assert!(rt; at < bytes.len());
        if bytes[at] == b'L' {
            return at;
        }
        page = number(rt, bytes, at.saturating_add(16)) as usize;
    }
    0
}

/// Exchanges two entries, of which the first begins there: each is a value of 60 bytes and a place of six.
fn exchanges(rt: &impl Abort, bytes: &mut [u8], first: usize) {
    for i in 0..66 {
        let left = first.saturating_add(i);
        let right = left.saturating_add(66);
        assert!(rt; right < bytes.len());
        bytes.swap(left, right);
    }
}

#[test]
fn entries_that_are_exchanged_are_out_of_order(rt: HostRuntime) {
    let alloc = rt.alloc();
    let mut bytes = made(&rt, alloc, 2000, 0);
    let first = first_leaf(&rt, &bytes).saturating_add(16);
    exchanges(&rt, bytes.as_mut_slice(), first);
    let page = u32::try_from(first / PAGE_SIZE).unwrap_or(0);
    let unsound = Verdict::Unsound(Reason::Order, FaultPlace::Entry { page, entry: 0 });
    assert_equal(&rt, check(alloc, &bytes), Ok(unsound));
}

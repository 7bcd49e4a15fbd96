//! Bytes that are held: the same is found of them as of a reader that has them.

use crate::checks::assert_equal_for;
use crate::files::made;
use file_checker::{Verdict, check_bytes, check_file};
use pages::PAGE_SIZE;
use std::alloc::Global;
use std::process::Abort;

/// What is found of a reader that has these bytes.
fn found_of_reader(alloc: Global, bytes: &[u8]) -> Option<Verdict> {
    let mut reader = bytes;
    check_file(alloc, &mut reader).ok()
}

/// The same is found of these bytes where they lie.
fn is_alike(rt: &impl Abort, alloc: Global, which: usize, bytes: &[u8]) {
    let found = found_of_reader(alloc, bytes);
    assert_equal_for(rt, which, check_bytes(alloc, bytes).ok(), found);
}

// A body that counts the whole pages wrong fails here.
#[test]
fn cut_bytes_are_found_as_those_of_a_reader(rt: HostRuntime) {
    let alloc = rt.alloc();
    let bytes = made(&rt, alloc, 400, 30);
    for n in 0..bytes.len() / PAGE_SIZE + 1 {
        let at = n.saturating_mul(PAGE_SIZE);
        for &end in &[at.saturating_sub(1), at, at.saturating_add(1)] {
            let front = bytes.get(..end).unwrap_or(bytes.as_slice());
            is_alike(&rt, alloc, end, front);
        }
    }
}

fn put(bytes: &mut [u8], at: usize, byte: u8) {
    if let Some(place) = bytes.get_mut(at) {
        *place = byte;
    }
}

// A body that tells another reason, or another place, fails here.
#[test]
fn changed_bytes_are_found_as_those_of_a_reader(rt: HostRuntime) {
    let alloc = rt.alloc();
    let mut bytes = made(&rt, alloc, 40, 0);
    for n in 0..bytes.len() / 509 {
        let at = n.saturating_mul(509);
        let was = bytes.get(at).copied().unwrap_or(0);
        put(bytes.as_mut_slice(), at, !was);
        is_alike(&rt, alloc, at, &bytes);
        put(bytes.as_mut_slice(), at, was);
    }
}

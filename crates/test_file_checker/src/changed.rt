//! Files of which one byte is changed: to 0, to 255 and to its complement.

use crate::checks::{assert_equal, assert_equal_for, assert_that};
use crate::files::made;
use crate::readers::records_of;
use arrayvec::ArrayVec;
use pages::PAGE_SIZE;
use std::alloc::Global;
use std::process::Abort;

/// What a byte is changed to, each once.
fn others(was: u8) -> ArrayVec<u8, 3> {
    let mut others = ArrayVec::new();
    for byte in [0, 255, !was] {
        if byte != was && !others.contains(&byte) {
            let _ = others.try_push(byte);
        }
    }
    others
}

fn put(bytes: &mut [u8], at: usize, byte: u8) {
    if let Some(place) = bytes.get_mut(at) {
        *place = byte;
    }
}

/// How many changed files stand, and how many do not.
#[derive(Clone, Copy)]
struct Counts {
    stand: u32,
    fall: u32,
}

impl Counts {
    fn note(&mut self, stands: bool) {
        if stands {
            self.stand = self.stand.saturating_add(1);
        } else {
            self.fall = self.fall.saturating_add(1);
        }
    }

    fn has_both(self, rt: &impl Abort) {
        assert_that(rt, self.stand > 0);
        assert_that(rt, self.fall > 0);
    }
}

/// Changes a byte of a file, and puts it back.
fn changes(rt: &impl Abort, alloc: Global, bytes: &mut [u8], at: usize, counts: &mut Counts) {
    let was = bytes.get(at).copied().unwrap_or(0);
    for byte in others(was) {
        put(bytes, at, byte);
        counts.note(records_of(rt, alloc, bytes).is_some());
    }
    put(bytes, at, was);
}

/// Changes each byte of a page of a file of three records. In each page there are bytes that have a meaning,
/// and others.
fn changes_page(rt: &impl Abort, alloc: Global, page: usize) {
    let mut bytes = made(rt, alloc, 3, 0);
    assert_equal(rt, bytes.len(), 5 * PAGE_SIZE);
    let mut counts = Counts { stand: 0, fall: 0 };
    let start = page.saturating_mul(PAGE_SIZE);
    for at in start..start.saturating_add(PAGE_SIZE) {
        changes(rt, alloc, bytes.as_mut_slice(), at, &mut counts);
    }
    counts.has_both(rt);
    assert_equal(rt, records_of(rt, alloc, bytes.as_slice()), Some(3));
}

#[test]
fn a_changed_byte_of_the_header(rt: HostRuntime) {
    changes_page(&rt, rt.alloc(), 0);
}

#[test]
fn a_changed_byte_of_the_prime_index(rt: HostRuntime) {
    changes_page(&rt, rt.alloc(), 1);
}

#[test]
fn a_changed_byte_of_the_index_of_groups(rt: HostRuntime) {
    changes_page(&rt, rt.alloc(), 2);
}

#[test]
fn a_changed_byte_of_the_index_of_codes(rt: HostRuntime) {
    changes_page(&rt, rt.alloc(), 3);
}

#[test]
fn a_changed_byte_of_the_heap(rt: HostRuntime) {
    changes_page(&rt, rt.alloc(), 4);
}

/// Whether a page begins with this byte.
fn has_page(bytes: &[u8], kind: u8) -> bool {
    for page in bytes.chunks(PAGE_SIZE) {
        if page.first() == Some(&kind) {
            return true;
        }
    }
    false
}

/// Changes the first bytes of each page, and every 61st byte behind them.
fn changes_some(rt: &impl Abort, alloc: Global, bytes: &mut [u8], counts: &mut Counts) {
    for at in 0..bytes.len() {
        if at % PAGE_SIZE < 24 || at % 61 == 0 {
            changes(rt, alloc, bytes, at, counts);
        }
    }
}

// Of a file with inner nodes, free pages and free slots the first bytes of each page are changed, and every
// 61st byte behind them.
#[test]
fn a_changed_byte_of_a_file_that_shrank(rt: HostRuntime) {
    let alloc = rt.alloc();
    let mut bytes = made(&rt, alloc, 70, 30);
    for &kind in b"LIHF" {
        assert_equal_for(&rt, kind, has_page(bytes.as_slice(), kind), true);
    }
    let mut counts = Counts { stand: 0, fall: 0 };
    changes_some(&rt, alloc, bytes.as_mut_slice(), &mut counts);
    counts.has_both(&rt);
    assert_equal(&rt, records_of(&rt, alloc, bytes.as_slice()), Some(40));
}

//! A second reader of files: whether bytes stand for records, by the tables of the format alone. It shares
//! nothing with the checker.
//!
//! What it finds in a file it knows by where it begins.

mod first_page;
mod heap;
mod numbers;
mod rows;
mod tree;

use first_page::{FirstPage, KeyRow, read_first_page};
use heap::Heap;
use numbers::{are_zero, number, page_start, take};
use rows::{Row, alternates_are, read_rows};
use std::alloc::Global;
use std::process::Abort;
use tree::{Tree, read_entries};

/// How many records and pages bytes stand for.
#[derive(Clone, Copy, Debug, PartialEq, Eq)]
pub struct Standing {
    pub records: u64,
    pub pages: u64,
}

/// How many records and pages the bytes stand for; none where they do not stand.
pub fn read(rt: &impl Abort, alloc: Global, bytes: &[u8]) -> Option<Standing> {
    let first = read_first_page(bytes);
    if !first.stands(bytes) {
        return None;
    }
    let mut taken = vec![in alloc; false; first.pages as usize].expect(rt, "memory");
    let stand = parts_stand(rt, alloc, bytes, &first, taken.as_mut_slice());
    if !stand || taken.as_slice().contains(&false) {
        return None;
    }
    Some(Standing {
        records: first.records,
        pages: first.pages,
    })
}

/// Each part of a file stands, and takes its pages.
fn parts_stand(
    rt: &impl Abort,
    alloc: Global,
    bytes: &[u8],
    first: &FirstPage,
    taken: &mut [bool],
) -> bool {
    let mut heap = Heap::new(rt, alloc, first, taken.len());
    let mut rows = Vec::new(alloc);
    take(taken, 0)
        && free_pages(bytes, first, taken)
        && heap.reads(bytes, first, taken)
        && prime_rows(rt, alloc, bytes, first, &heap, taken, &mut rows)
        && alternates_stand(rt, alloc, bytes, first, rows.as_slice(), taken)
}

/// The free pages are as many as are counted.
fn free_pages(bytes: &[u8], first: &FirstPage, taken: &mut [bool]) -> bool {
    let mut at = first.first_free;
    for _ in 0..first.free {
        if !take(taken, at) || !is_free_page(bytes, page_start(at)) {
            return false;
        }
        at = number(bytes, page_start(at).saturating_add(4), 4);
    }
    at == 0
}

/// Whether a page is a free one.
fn is_free_page(bytes: &[u8], page: usize) -> bool {
    number(bytes, page, 1) == u64::from(b'F') && are_zero(bytes, page.saturating_add(1), 3)
}

/// The tree of the prime key: its entries have a place of six bytes behind the value.
fn prime_tree(prime: KeyRow) -> Tree {
    Tree {
        key: 0,
        width: prime.length,
        entry: prime.length.saturating_add(6),
    }
}

/// The tree of key k: its entries have a stamp and the prime value behind the value.
fn alternate_tree(k: u64, key: KeyRow, prime: KeyRow) -> Tree {
    let width = key.length.saturating_add(8);
    Tree {
        key: k,
        width,
        entry: width.saturating_add(prime.length),
    }
}

/// The records that the prime index leads to.
fn prime_rows(
    rt: &impl Abort,
    alloc: Global,
    bytes: &[u8],
    first: &FirstPage,
    heap: &Heap,
    taken: &mut [bool],
    rows: &mut Vec<Row>,
) -> bool {
    let mut entries = Vec::new(alloc);
    let tree = prime_tree(first.prime);
    read_entries(rt, alloc, bytes, tree, first.prime, taken, &mut entries)
        && read_rows(rt, bytes, first, heap, entries.as_slice(), rows)
}

/// The index of each alternate key has an entry of each record.
fn alternates_stand(
    rt: &impl Abort,
    alloc: Global,
    bytes: &[u8],
    first: &FirstPage,
    rows: &[Row],
    taken: &mut [bool],
) -> bool {
    let mut k = 0u64;
    let mut stamp = 0usize;
    for key in first.keys.as_slice() {
        if k > 0 && !alternate_stands(rt, alloc, bytes, first, rows, taken, k, *key, stamp) {
            return false;
        }
        k = k.saturating_add(1);
        stamp = stamp.saturating_add(if key.has_duplicates() { 8 } else { 0 });
    }
    true
}

/// That of key k, whose stamps begin so many bytes behind the first one of a record.
fn alternate_stands(
    rt: &impl Abort,
    alloc: Global,
    bytes: &[u8],
    first: &FirstPage,
    rows: &[Row],
    taken: &mut [bool],
    k: u64,
    key: KeyRow,
    stamp: usize,
) -> bool {
    let mut entries = Vec::new(alloc);
    let tree = alternate_tree(k, key, first.prime);
    read_entries(rt, alloc, bytes, tree, key, taken, &mut entries)
        && alternates_are(bytes, rows, entries.as_slice(), key, first.prime, stamp)
}

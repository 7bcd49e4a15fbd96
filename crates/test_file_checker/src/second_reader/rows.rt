//! The entries of the indexes, and the records.

use super::first_page::{FirstPage, KeyRow, Place};
use super::heap::{Heap, Stored};
use super::numbers::{are_same, number};
use std::process::Abort;

/// A record that an entry of the prime index leads to, and where that entry begins.
#[derive(Clone, Copy)]
pub struct Row {
    entry: usize,
    stored: Stored,
}

/// Where the value of a key begins in a record.
fn value(stored: Stored, key: KeyRow) -> usize {
    stored.record.saturating_add(key.offset)
}

/// Whether a record has the prime value of an entry, and its stamps are from 1 to below the next one.
fn is_row(bytes: &[u8], stored: Stored, entry: usize, first: &FirstPage) -> bool {
    are_same(bytes, value(stored, first.prime), entry, first.prime.length)
        && are_stamps(bytes, stored, first.next_stamp)
}

/// The record that an entry of the prime index leads to.
fn read_row(bytes: &[u8], heap: &Heap, entry: usize, first: &FirstPage) -> Option<Row> {
    let at = entry.saturating_add(first.prime.length);
    let place = Place {
        page: number(bytes, at, 4),
        slot: number(bytes, at.saturating_add(4), 2) as usize,
    };
    match heap.stored(bytes, place) {
        Some(stored) if is_row(bytes, stored, entry, first) => Some(Row { entry, stored }),
        _ => None,
    }
}

/// Puts the records at the end that the entries of the prime index lead to, which are all.
pub fn read_rows(
    rt: &impl Abort,
    bytes: &[u8],
    first: &FirstPage,
    heap: &Heap,
    entries: &[usize],
    rows: &mut Vec<Row>,
) -> bool {
    let count = entries.len() as u64;
    if count != first.records || count != heap.used {
        return false;
    }
    for &entry in entries {
        match read_row(bytes, heap, entry, first) {
            Some(row) => rows.push(row).expect(rt, "memory"),
            None => return false,
        }
    }
    true
}

/// Whether each stamp is from 1 to below the next one.
fn are_stamps(bytes: &[u8], stored: Stored, next: u64) -> bool {
    let mut at = stored.stamps;
    for _ in 0..stored.count {
        let stamp = number(bytes, at, 8);
        if stamp < 1 || next <= stamp {
            return false;
        }
        at = at.saturating_add(8);
    }
    true
}

/// The entry of an alternate key is that of its record, whose stamp stands so many bytes behind its first
/// one; in a unique key it is 0.
fn is_alternate(bytes: &[u8], stored: Stored, entry: usize, key: KeyRow, stamp: usize) -> bool {
    let has = if key.has_duplicates() {
        number(bytes, stored.stamps.saturating_add(stamp), 8)
    } else {
        0
    };
    are_same(bytes, value(stored, key), entry, key.length)
        && number(bytes, entry.saturating_add(key.length), 8) == has
}

/// Each entry of an alternate key is that of a record, and there are as many.
pub fn alternates_are(
    bytes: &[u8],
    rows: &[Row],
    entries: &[usize],
    key: KeyRow,
    prime: KeyRow,
    stamp: usize,
) -> bool {
    if entries.len() != rows.len() {
        return false;
    }
    for &entry in entries {
        let value = entry.saturating_add(key.length).saturating_add(8);
        match find(bytes, rows, value, prime.length) {
            Some(stored) if is_alternate(bytes, stored, entry, key, stamp) => {}
            _ => return false,
        }
    }
    true
}

/// The record of a prime value of so many bytes.
fn find(bytes: &[u8], rows: &[Row], prime: usize, length: usize) -> Option<Stored> {
    for row in rows {
        if are_same(bytes, row.entry, prime, length) {
            return Some(row.stored);
        }
    }
    None
}

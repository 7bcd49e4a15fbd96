//! The first page.

use super::numbers::{PAGE, are_zero, has, number, page_start};
use arrayvec::ArrayVec;

/// The place of a slot.
#[derive(Clone, Copy)]
pub struct Place {
    pub page: u64,
    pub slot: usize,
}

/// A key, and its tree.
#[derive(Clone, Copy, Default)]
pub struct KeyRow {
    pub offset: usize,
    pub length: usize,
    kind: u64,
    pub height: u64,
    pub root: u64,
}

/// What the first page says.
#[derive(Drop)]
pub struct FirstPage {
    pub least: usize,
    pub greatest: usize,
    pub pages: u64,
    pub first_free: u64,
    pub free: u64,
    pub first_heap: u64,
    pub free_slot: Place,
    pub next_stamp: u64,
    pub records: u64,
    pub prime: KeyRow,
    pub keys: ArrayVec<KeyRow, 9>,
}

impl KeyRow {
    pub fn has_duplicates(self) -> bool {
        self.kind == 2
    }

    /// Whether it is within records of so many bytes, and its tree begins within so many pages.
    fn is_within(self, least: usize, pages: u64) -> bool {
        1 <= self.length
            && self.length <= 250
            && self.offset.saturating_add(self.length) <= least
            && 1 <= self.height
            && self.height <= 20
            && self.root < pages
    }

    /// Whether it begins where no key before it does, and the alternate ones rise by their offset.
    fn is_behind(self, before: &[KeyRow], k: usize) -> bool {
        for j in 0..k.min(before.len()) {
            let offset = before[j].offset;
            if offset == self.offset || j > 0 && self.offset < offset {
                return false;
            }
        }
        true
    }
}

impl FirstPage {
    /// Whether the pages that it names are within the file, and its counts too.
    fn is_within(&self) -> bool {
        self.first_free < self.pages
            && self.free < self.pages
            && self.first_heap < self.pages
            && self.free_slot.page < self.pages
            && (self.keys.len() as u64) < self.pages
    }

    /// Whether records have lengths, and the next stamp may be one.
    fn has_limits(&self) -> bool {
        1 <= self.least
            && self.greatest <= 4000
            && 1 <= self.next_stamp
            && self.next_stamp <= 1 << 63
    }

    /// Whether the row of each key is accepted.
    fn has_rows(&self, bytes: &[u8]) -> bool {
        let rows = self.keys.as_slice();
        for k in 0..rows.len() {
            let row = rows[k];
            if !is_row(bytes, k)
                || !row.is_within(self.least, self.pages)
                || !row.is_behind(rows, k)
            {
                return false;
            }
        }
        true
    }

    /// Whether it is accepted.
    pub fn stands(&self, bytes: &[u8]) -> bool {
        has(bytes, 0, PAGE)
            && has(bytes, 0, page_start(self.pages))
            && is_marked(bytes)
            && self.is_within()
            && self.has_limits()
            && has_count(bytes)
            && self.has_rows(bytes)
    }
}

/// What the first page of a file says, whether or not it is accepted.
pub fn read_first_page(bytes: &[u8]) -> FirstPage {
    let (least, greatest) = lengths(bytes);
    FirstPage {
        least,
        greatest,
        pages: number(bytes, 12, 4),
        first_free: number(bytes, 16, 4),
        free: number(bytes, 20, 4),
        first_heap: number(bytes, 24, 4),
        free_slot: Place {
            page: number(bytes, 28, 4),
            slot: number(bytes, 32, 2) as usize,
        },
        next_stamp: number(bytes, 40, 8),
        records: number(bytes, 48, 8),
        prime: key_row(bytes, row_start(0)),
        keys: key_rows(bytes),
    }
}

/// Whether a page has the mark of a first page, and zeros where it has no number.
fn is_marked(page: &[u8]) -> bool {
    number(page, 0, 8) == u64::from_be_bytes(*b"CCOBIXIF")
        && are_zero(page, 35, 1)
        && are_zero(page, 38, 2)
        && are_zero(page, 56, 8)
}

/// The least and the greatest length of a record; 0 where the page has none such.
fn lengths(page: &[u8]) -> (usize, usize) {
    let greatest = number(page, 10, 2) as usize;
    let least = number(page, 36, 2) as usize;
    match number(page, 8, 2) {
        1 if least == 0 => (greatest, greatest),
        2 if least < greatest => (least, greatest),
        _ => (0, 0),
    }
}

/// How many keys a page says that there are.
fn key_count(page: &[u8]) -> usize {
    number(page, 34, 1) as usize
}

/// Whether there are as many keys as a file can have, and zeros behind their rows.
fn has_count(page: &[u8]) -> bool {
    let count = key_count(page);
    let end = row_start(count);
    1 <= count && count <= 9 && are_zero(page, end, PAGE.saturating_sub(end))
}

/// The keys: the prime key first, then the others by rising offset.
fn key_rows(page: &[u8]) -> ArrayVec<KeyRow, 9> {
    let mut rows: ArrayVec<KeyRow, 9> = ArrayVec::new();
    for k in 0..key_count(page).min(9) {
        let _ = rows.try_push(key_row(page, row_start(k)));
    }
    rows
}

/// Where the row of key k begins.
fn row_start(k: usize) -> usize {
    k.saturating_mul(16).saturating_add(64)
}

/// Whether the row of key k is that of the prime key or of an alternate one, with zeros where it has no
/// number.
fn is_row(page: &[u8], k: usize) -> bool {
    let row = row_start(k);
    let kind = number(page, row.saturating_add(4), 1);
    kind <= 2
        && (kind == 0) == (k == 0)
        && are_zero(page, row.saturating_add(6), 2)
        && are_zero(page, row.saturating_add(12), 4)
}

/// The key of a row.
fn key_row(page: &[u8], row: usize) -> KeyRow {
    KeyRow {
        offset: number(page, row, 2) as usize,
        length: number(page, row.saturating_add(2), 2) as usize,
        kind: number(page, row.saturating_add(4), 1),
        height: number(page, row.saturating_add(5), 1),
        root: number(page, row.saturating_add(8), 4),
    }
}

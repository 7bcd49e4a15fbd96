//! The header of a file.

use crate::bounds::is_within;
use crate::key_rows::key_rows;
use crate::numbers::{END, GATE, first_bytes, numbers_in};
use arrayvec::ArrayVec;
use pages::PAGE_SIZE;
use record_layout::Schema;

/// The tree of a key: how many levels it has, and the page of its root.
#[derive(Clone, Copy, Debug, PartialEq, Eq, Default)]
pub struct TreeNumbers {
    pub height: u8,
    pub root: u32,
}

/// What the first page says of a file: the schema of its records, the page count (the header among
/// them), the first and the number of its free pages, its first heap page, its first free slot, the
/// next stamp, the number of records, and the tree of each key, in the order of the keys. Page 0 is
/// none.
#[derive(Drop)]
pub struct Header {
    pub schema: Schema,
    pub pages: u32,
    pub first_free: u32,
    pub free: u32,
    pub first_heap: u32,
    pub free_slot_page: u32,
    pub free_slot: u16,
    pub next_stamp: u64,
    pub records: u64,
    pub trees: ArrayVec<TreeNumbers, 9>,
}

impl Header {
    ghost use Rattle.std.specs.Prelude.{◌≡◌, ◌↔◌, ◌++◌, IsTrue, IfSome, IsNone, codes, drop};
    ghost use Rattle.open_file.specs.FirstPage.{header_bytes, IsFirstPage};
    ghost use Rattle.open_file.specs.FirstPageReading.{header_in};

    /// Writes the whole page. Its gate is open: the byte of the gate is the business of whoever
    /// closes the file.
    pub fn write(&self, page: &mut [u8; PAGE_SIZE])
        ensures { page.new ≡ header_bytes self.now }
    {
        let rows = key_rows(self.schema.keys(), &self.trees);
        let end = END + rows.len();
        page[..END].copy_from_slice(&first_bytes(self));
        page[END..end].copy_from_slice(&rows);
        page[end..].fill(0);
    }

    /// The header of a file, by its first page, where that page is accepted: its gate is closed,
    /// each byte is as a header writes it, and the numbers are within their bounds. That the file
    /// has as many pages as it counts is for the caller to look at.
    pub fn read(page: &[u8; PAGE_SIZE]) -> Option<Header>
        ensures header { result ≡ header_in page.now }
        ensures accepted { IfSome result (λ header. IsFirstPage header page.now) }
        ensures refused { IsNone result → (header : Header) → IsFirstPage header page.now → ⊥ }
    {
        let header = numbers_in(page)?;
        if is_within(&header) && header.is_closed_in(page) {
            Some(header)
        } else {
            None
        }
    }

    /// The page is the one that this header writes, with its gate closed.
    fn is_closed_in(&self, page: &[u8; PAGE_SIZE]) -> bool
        ensures { IsTrue result ↔ (page.now ≡ codes "C" ++ drop 1 (header_bytes self.now)) }
    {
        let mut closed = *page;
        self.write(&mut closed);
        closed[GATE] = b'C';
        *page == closed
    }
}

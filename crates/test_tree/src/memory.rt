//! Pages in memory, and their bytes.

use memory_shelf::MemoryPages;
use std::alloc::Global;
use std::process::Abort;

/// Page 0 and so many others, which are all taken, and room for so many more.
pub fn new_pages(rt: &impl Abort, alloc: Global, others: usize, left: u64) -> MemoryPages {
    MemoryPages::new(alloc, others, left).expect(rt, "memory")
}

/// The bytes of a page.
pub fn page_of<'a>(rt: &impl Abort, pages: &'a MemoryPages, n: u32) -> &'a [u8; 4096] {
    pages.pages.get(n as usize).expect(rt, "a page")
}

/// Puts another byte into a page, and answers the one that stood there.
pub fn put_byte(rt: &impl Abort, pages: &mut [[u8; 4096]], n: usize, at: usize, byte: u8) -> u8 {
    assert!(rt; n < pages.len() && at < 4096);
    let was = pages[n][at];
    pages[n][at] = byte;
    was
}

//! Shelves and pages for tests and measurements: files in memory, and calls that fail on purpose.
//!
//! `MemShelf` keeps files in memory, with every crash image: after a crash each file is what reads
//! give, what the last sync left, or either with another byte wherever a write was asked for.
//! `FuseShelf` stands over another shelf, of which it fails the calls that a test names. Both are
//! proved to be what a `Shelf` of `page_store` promises. `MemoryPages` are pages in memory, of which
//! nothing is claimed. No part of the program uses them.
#![tactic(auto)]

mod crash;
mod event;
mod fuse;
mod fuse_shelf;
mod memory_file;
mod memory_pages;
mod memory_shelf;

pub use crash::Image;
pub use fuse::Kind;
pub use fuse_shelf::FuseShelf;
pub use memory_pages::MemoryPages;
pub use memory_shelf::MemShelf;

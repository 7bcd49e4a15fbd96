//! The pages of one open file: which are in use, which are free, and the gate before their first change.
//!
//! `Pager` knows the free pages as a chain in the file; each page but the header is free or in use,
//! never both. `PagedFile` joins it to the cache of the file, and remembers whether the gate is
//! open. `FilePages` lends both, with the shelf, to the layers above as `pages::Pages`. What lies
//! in a page in use is not known here.
//!
//! Read `specs/Chain.antt`, then `Pager`, `PagedFile` and `FilePages`.
#![tactic(auto)]

mod file_pages;
mod free_page;
mod header;
mod paged_file;
mod pager;

pub use file_pages::FilePages;
pub use paged_file::PagedFile;
pub use pager::Pager;

//! Indexed files on a shelf: one that is open, and a library of them.
//!
//! `ShelfFile` joins an `OpenFile` to its pages. A call that only reads leaves the file and its
//! pages as they are; one that changes the file opens its gate before.
//!
//! `ShelfLibrary` keeps its files in pages, on any `Shelf`. It answers what `indexed_file::Library`
//! says. What it shows is read off the bytes of its shelf, and off the pages of the files that are
//! open; it is shown truly where these stand for a file.
//!
//! Read `specs/Standing.antt` and `shelf_file`; `specs/Units.antt` and `specs/Truth.antt`, then
//! `library`.
#![tactic(auto)]

mod changing;
mod held;
mod library;
mod look;
mod opening;
mod reading;
mod shelf_file;

pub use library::ShelfLibrary;
pub use look::{HeaderLook, look_at};
pub use shelf_file::ShelfFile;

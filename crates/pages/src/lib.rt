//! The pages of one open file, as trees, heap and indexes see them; lists in the bytes of a page;
//! and marks on the pages of a file that was read into a list.
//!
//! A page is 4,096 bytes. Page 0 is the header, which is asked otherwise. Each other page is in use
//! or free, never both; whoever takes a page has it until it gives it back. Where pages are kept,
//! what is held in memory, and which of them are free is not known here.
//!
//! Whoever checks a file walks its parts one after another, and each walk marks the pages that it
//! reaches, so that no page is reached twice.
//!
//! Read `specs/PagesState.antt`, then `pages`; `specs/Chunks.antt`; `specs/Marks.antt`.
#![tactic(auto)]

pub mod chunks;
mod copies;
mod damage;
mod fault_place;
mod law;
mod marks;
mod pages;
mod source;
mod walk_fault;

pub use copies::{copy, store};
pub use damage::Damage;
pub use fault_place::FaultPlace;
pub use law::marks_part_the_pages;
pub use marks::{all_marked, mark};
pub use pages::Pages;
pub use source::{PageList, PageSource};
pub use walk_fault::WalkFault;

/// The bytes of a page.
pub const PAGE_SIZE: usize = 4096;

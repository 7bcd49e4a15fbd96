//! Commands that look into a file and change none: the check of files, the list of records, those
//! that are left in a file, the schema, the count of pages, and the list of a deck and its program
//! in COBOL.
//!
//! Each is given the words that ask for it and a `System`, writes to the output, and answers the
//! `Outcome` or the `Fault`. Its clauses say what was written of which file: the one that the calls
//! read which it made of the system, all of them reads. A check, a count and a list read pages when
//! they are wanted; a list that was not checked reads the whole file where it meets damage, to tell
//! why. A file of records is read as long as no run changes it.
//!
//! A `ReadShelf` has one file, that of a path, and never writes it. It takes a system that was asked
//! other things before, and a brand knows what these were.
//!
//! What they read before they act is in `command_support`. Read `by_pages` and `verdict` first, then
//! `listing` and `checked`; of the shelf `specs/Since.antt`, then `reads` and `shelf`.
#![tactic(auto)]

mod asked_list;
mod by_index;
mod by_pages;
mod checked;
mod cobol;
mod comparing;
mod counting;
mod deck_list;
mod differing;
mod first_page;
mod listing;
mod reads;
mod salvaging;
mod shelf;
mod shown;
mod system_asked;
mod text;
mod verdict;
mod verdict_lines;

pub use asked_list::Listing;
pub use by_index::list_records;
pub use checked::list_checked;
pub use cobol::write_cobol;
pub use counting::count_path;
pub use deck_list::list_path;
pub use differing::{differences_at, path_in};
pub use first_page::schema;
pub use listing::Bounds;
pub use salvaging::{Salvaging, salvage_path};
pub use shelf::ReadShelf;
pub use system_asked::SystemAsked;
pub use verdict::{check_path, check_paths};

//! The check of a file, whoever wrote it: whether its bytes stand for an indexed file of so many records.
//!
//! A check asks for a page when it wants it. Walks find that each part of the file stands and that each
//! page belongs to one part. Then entries are compared with records, both ways: each entry leads to its
//! record, each record has its entry in each index, and together they are the rows of a file. Where the
//! answer is Sound, the file can be opened, and no call on it will find damage. `check_unit` looks at
//! a file on a shelf, of whose pages it keeps as many in frames as it is told; `check_file` reads all
//! counted pages of a reader into a list before, and `check_bytes` looks at bytes where they lie.
//!
//! `UnitPages` are the pages of a file on a shelf, as walks ask for them and comparisons borrow them. What
//! is told of them holds of the first pages of the file, where the shelf is honest and the device has not
//! failed; a brand knows what they leave of the shelf.
//!
//! Read `specs/Sound.antt`, then `check`, then `parts`; `specs/Rows.antt`, then `prime_rows`, then
//! `alternate`; `specs/Asked.antt`, then `unit_asked`, `frames`, `source` and `lent_pages`.
#![tactic(auto)]

mod alternate;
mod check;
mod entry;
mod first_look;
mod frames;
mod heap_slots;
mod held_bytes;
mod index_damage;
mod law;
mod lent_pages;
mod parts;
mod prime_rows;
mod reading;
mod record;
mod row;
mod row_law;
mod source;
mod stamps;
mod unit_asked;
mod unit_check;
mod verdict;

pub use alternate::check_alternate;
pub use check::check_file;
pub use held_bytes::check_bytes;
pub use law::sound_files_are_told;
pub use lent_pages::LentPages;
pub use prime_rows::check_rows;
pub use row_law::rows_make_a_file;
pub use source::UnitPages;
pub use unit_asked::UnitAsked;
pub use unit_check::check_unit;
pub use verdict::{CheckFault, Reason, Verdict};

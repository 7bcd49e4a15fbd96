//! An indexed file that is open: its first page, its indexes and its heap, and the calls that read
//! its records.
//!
//! The first page says what the file's records are, and where its trees, its heap and its free pages
//! begin. It is accepted exactly where it is the page that a header writes, with its gate closed, and
//! the header's numbers are within their bounds. Whether the file has as many pages as its header
//! counts is not looked at there.
//!
//! `OpenFile` stands for a list of records in pages that any `Pages` lends. Each call that reads
//! answers what the definitions say of that list, and changes no page; `create` takes the pages of
//! a new file. How a record is added, replaced or taken out, where pages are kept, and by what name
//! the file is known, is not known here; only what such a change may do to each part is.
//!
//! Read `numbers` and `key_rows` for the table of the first page, `bounds` for what is accepted, and
//! `Header::read`; then `specs/Stands.antt` and `open_file`.
#![tactic(auto)]

mod bounds;
mod changing;
mod creating;
mod first_page;
mod first_page_laws;
mod header;
mod key_rows;
mod laws;
mod looking;
mod next;
mod numbers;
mod open_file;
mod path;
mod reading;
mod seeking;

pub use first_page::{Header, TreeNumbers};
pub use first_page_laws::{read_is_written, written_is_read};
pub use header::header_laws;
pub use open_file::OpenFile;
pub use path::Path;

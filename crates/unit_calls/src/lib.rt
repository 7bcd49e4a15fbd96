//! Calls on a unit of a library of indexed files, for tests: a library over a shelf, a shelf that wants
//! memory, records whose values are numbers, also drawn ones, and programs of verbs on one file.
//!
//! Each call keeps the unit open or shut as its name says.
//!
//! Read `units`, then `records` and `drawn`, `narrow_shelf` and `programs`.
#![tactic(auto)]

mod bounds;
mod drawn;
mod libraries;
mod narrow_shelf;
pub mod programs;
mod records;
mod schemas;
mod units;

pub use bounds::{HasTrees, most_to_change, most_to_read, most_to_seek};
pub use drawn::{Draw, NARROW, WIDE, draws_record};
pub use libraries::{attaches, bytes_of, library_over, puts, two_names};
pub use narrow_shelf::NarrowShelf;
pub use records::{Record, key_of, put, record_of, value_of};
pub use schemas::{part, schema, two_long_keys};
pub use units::{
    Read, Told, adds, adds_numbers, asked, creates, finds, goes_on, looks, opens, removes,
    replaces, restarts, seeks, shuts, tops,
};

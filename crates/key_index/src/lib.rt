//! The indexes of a file: entries in the order of their ranks, in trees of their own.
//!
//! `PrimeIndex` leads from the value of the prime key to the place of the record. `AltIndex` leads
//! from a value of an alternate key, and the stamp that orders the records of one value, to the
//! record's prime value. An index stands for the list of its entries in the order of their ranks:
//! by value, as unsigned bytes, and then by stamp. Where records lie is not known here.
//!
//! Read `specs/Entries.antt`, then `prime_index`.
#![tactic(auto)]

mod alt_index;
mod cursor;
mod entry;
mod keys;
mod laws;
mod prime_index;

pub use alt_index::AltIndex;
pub use cursor::{AltCursor, PrimeCursor};
pub use entry::{AltEntry, AltFirst, PrimeEntry};
pub use laws::{alt_laws, prime_laws};
pub use prime_index::PrimeIndex;

//! The changes of an indexed file that is open: a record added, replaced or taken out.
//!
//! Each call looks first, then tests for room, then opens the gate, and only then changes pages;
//! the file stands for the rows that the definitions say afterwards. A fault leaves the file
//! broken, but for Full, which leaves it as it was. What reads a file, makes one or writes its
//! header is not here.
//!
//! Read `specs/Changes.antt` for what a change answers and leaves, `specs/Contents.antt` for the
//! parts of a file that it steps through, and then `adding`.
#![tactic(auto)]

mod adding;
mod changed;
mod key_number;
mod old_record;
mod removing;
mod replacing;
mod room;
mod stamps;

pub use adding::add;
pub use removing::remove;
pub use replacing::replace;

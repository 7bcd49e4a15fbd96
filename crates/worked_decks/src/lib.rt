//! Worked decks, for tests of their runs: each statement beside the line that it gives in the transcript, and
//! what the file reads as before and after.
//!
//! Read `decks` for what a worked deck is, then `plain_customers`, the least of them.
#![tactic(auto)]

mod customers;
mod decks;
mod one_city;
mod payroll;
mod plain_customers;
mod runs;
mod two_files;
mod wide;

pub use customers::{
    A_CLASH, A_NEW_TWIN, CUSTOMERS, READ_THAT_FAILS, REFUSED_BY_KEY, REPLACED,
    REPLACED_WHERE_REFUSED, WRITE_THAT_FAILS,
};
pub use decks::{Runs, Step, Worked};
pub use one_city::{A_DUPLICATE_REWRITTEN, DUPLICATES_IN_ORDER};
pub use payroll::PAYROLL;
pub use plain_customers::{ONE_IS_READ, REFUSED, REFUSED_IN_ORDER, WRITTEN_AND_READ_BACK};
pub use runs::{
    A_NEW_DUPLICATE, A_SHORTER_RECORD, AN_EMPTY_FILE, AN_OPTIONAL_FILE, BESIDE_STOCK,
    CHANGED_IN_SEQUENCE, CHANGED_LENGTHS, EXTENDED_IN_ORDER, IN_THE_WRONG_STATE,
    LOW_AND_HIGH_VALUES, ONE_LENGTH, ORDER_OF_WRITING, STARTED_BY_A_LETTER, STARTED_PAST_THE_END,
};
pub use two_files::SIDE_BY_SIDE;
pub use wide::{FILLED_UP, WIDE};

//! What each status of a verb, each code of a refused deck and each reason of the check means, in
//! words.
//!
//! Each table has the line that help shows and the rest of the explanation, so that what help, the
//! page FORMAT.md and `cobix explain` say cannot differ. The tables are macros, since a constant
//! text can be put together from nothing else. No line of an explanation is longer than 79
//! characters. `explanation_of` answers the text for two words, as `status 30`, or nothing where they
//! name nothing. Each status, code and reason is explained, which `all_are_explained` says.
//!
//! Read `statuses`, `faults`, `reasons`, and `handler` for the one status that is not of cobix; then
//! `specs/Explained.antt` and `tables`.
#![tactic(auto)]

mod faults;
mod handler;
mod lookup;
mod reasons;
mod statuses;
mod tables;

pub use lookup::{all_are_explained, explanation_of};
pub use tables::{
    FAULT_LINES, FAULT_NUMBERS, FAULTS, REASON_LINES, REASON_NUMBERS, REASONS, STATUS_NUMBERS,
    STATUSES,
};

//! What all commands share: what they read before they act, and how their outcome is told.
//!
//! A command reads the bytes of a file, of a deck or of a text, and of a list the form, the key, the
//! first and the last value, and the conditions that its words ask for. Each call says of which bytes its result
//! is, by the calls that it made of the system, all of them reads; or why there is none.
//!
//! An `Outcome` is what was done, and a `CommandFault` is why it was not. `report` writes the line of a
//! fault, or why a file has no schema or no list, as far as the writer takes it, and answers the
//! exit status: its clause says which. The texts are shown by runs of the program.
//!
//! Read `file_bytes` first, then `deck`, which finds a file in a deck, and `asked_form`;
//! `specs/Status.antt` for the exit statuses, then `fault`.
#![tactic(auto)]

mod asked_form;
mod bound;
mod condition_fault;
mod conditions;
mod cuts;
mod deck;
mod fault;
mod file_bytes;
mod form_fault;
mod forms;
mod key;
mod outcome;

pub use asked_form::{AskedForm, form_and_conditions};
pub use bound::{last_of, value_of};
pub use condition_fault::ConditionFault;
pub use deck::{deck_at, deck_of, file_in, file_named};
pub use fault::{CommandFault, RefusedDeck, UnknownKey};
pub use file_bytes::{fault_of, read_counted, read_deck_bytes, read_first_page, read_text};
pub use form_fault::FormFault;
pub use forms::{ListForm, form_of};
pub use outcome::{Outcome, WorstCheck, report};

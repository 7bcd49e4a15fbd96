//! The entries of a deck up to its procedure, as they are written: file control entries, file
//! descriptions with their items, and the items of the working storage.
//!
//! `read_divisions` answers exactly what the divisions before the procedure spell by the grammar.
//! Whether items are a layout and keys are items of a record is not known here.
//!
//! Read `specs/FileControlEntry.antt`, `specs/FileDescription.antt` and `specs/Divisions.antt` for
//! the grammar, and then `divisions`.
#![tactic(auto)]

mod clauses;
mod description_entry;
mod divisions;
mod entry;
mod item;
mod record_length;
mod select;
mod storage;
mod words;

pub use description_entry::{Described, Descriptions};
pub use divisions::{Divisions, Entries, read_divisions, read_file_control};
pub use entry::{AlternateKeys, FileControlEntry, Selected};
pub use item::Items;
pub use record_length::{RecordLength, VaryingLength};
pub use storage::{StorageItem, StorageItems};

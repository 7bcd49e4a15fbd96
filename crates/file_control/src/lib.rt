//! The files of a deck and its 77-level items, as its words up to PROCEDURE describe them.
//!
//! `words` gives the words of a deck. `read_description` answers exactly the description that the
//! words up to PROCEDURE spell: the files in the order of their SELECT entries, each with the
//! layout and the keys of its records, and the 77-level items. Or it answers a fault, and the words
//! spell none. No words spell two. `are_described` says what is true of every description.
//!
//! Read `specs/Description.antt` for the files, `specs/Whole.antt` for the whole description and
//! `specs/Described.antt` for what is true of it, and then `description`. The grammar of the
//! entries is in `deck_entries`, the words are in `deck_parser`.
#![tactic(auto)]

mod data_names;
mod described_files;
mod description;
mod field_places;
mod file;
mod files;
mod keys;
mod length_item;

pub use deck_parser::{DECK_LIMIT, DeckFault, Words, one_reading, words};
pub use description::{
    Description, are_described, describe, one_description, read_description, wanted_in_description,
};
pub use file::FileDesc;
pub use files::{DeckFiles, ItemList, LengthItem};

//! The list of a deck, or why it is refused, in words.
//!
//! `list_deck` answers exactly the list of the deck that the bytes are: files with items and keys,
//! verbs and paragraphs with their lines. `diagnose` tells of a refused deck at which words it goes
//! wrong, why, and what was expected: the fault that the reader tells first, and up to nineteen
//! further ones, by their lines. For those a copy of the deck is mended where a fault is, or loses its
//! entry or sentence, and is read again. What is said of a word, `deck_messages` and `later` find;
//! cases show it.
//!
//! Read `specs/Lines.antt`, `specs/Listing.antt` and `listing`; then `specs/Told.antt`,
//! `specs/Place.antt`, `specs/Text.antt` and `faults`; `later`, `mended`, `trials` and `follows`.
#![tactic(auto)]

mod blank;
mod diagnosis;
mod entry;
mod faults;
mod follows;
mod key_name;
mod later;
mod lines;
mod listing;
mod meant_words;
mod mended;
mod place;
mod procedure;
mod text;
mod trials;
mod verbs;

pub use diagnosis::Diagnosis;
pub use faults::{DeckFaults, diagnose};
pub use listing::list_deck;

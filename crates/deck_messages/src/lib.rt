//! What is told of a deck that is refused: of which word, why, and further lines.
//!
//! The reader of decks says where a deck is refused and why; here that is made a text. Where a
//! cause has the same text in each deck, that text is told. Of another text nothing is proved but
//! that making it is safe; cases show them.
//!
//! Read `specs/Texts.antt` and `told`, then `unexpected`, which has what is said of a word with
//! which no deck goes on.
#![tactic(auto)]

mod bad_word;
mod items;
mod keys;
mod lacking;
mod layout;
mod not_allowed;
mod texts;
mod told;
mod twice;
mod unexpected;
mod unknown;
mod wanted;

pub use lacking::without;
pub use layout::file_of;
pub use told::message_of;

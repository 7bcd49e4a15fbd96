//! A deck, read whole: from its bytes to its files, its length items and its statements.
//!
//! `procedure` answers exactly the statements that the words of the procedure division spell, with
//! the names of `Names`, and where they stand, or a fault. Each name is looked up, and each operand
//! tested, at the word where it stands. `read_deck` answers exactly the deck that the bytes are, or a
//! fault; `read_deck_told` all that is known of the fault. No bytes are two decks, and what a deck
//! says of its files, items and keys is what a run can rely on.
//!
//! Read statement for what a deck may say, specs/Names for what the names stand for, and
//! specs/Procedure and specs/StatementRules for the grammar; specs/Deck for what a deck is, and then
//! `deck`.
#![tactic(auto)]

mod closing;
mod deck;
mod division;
mod file_name;
mod moving;
mod names;
mod opening;
mod placed;
mod places;
mod reading;
mod refusal;
mod sentence;
mod starting;
mod statement;
mod statement_list;
mod writing;
mod written_verb;

pub use deck::{Deck, no_words_are_two_decks, one_deck, read_deck, read_deck_told};
pub use division::{
    each_has_its_line, one_procedure, only_allowed, procedure, read_procedure, wanted_in_procedure,
};
pub use names::Names;
pub use placed::PlacedStatements;
pub use places::{Paragraph, StatementPlaces};
pub use refusal::DeckRefusal;
pub use statement::Statement;
pub use statement_list::StatementList;
pub use written_verb::verb_text;

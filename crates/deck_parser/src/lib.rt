//! The words of a deck, their parser, and the rules by which the divisions are read.
//!
//! `words` answers exactly the words of the bytes, or the first fault with its line. No deck has
//! two readings. What can be wrong at a word, and what is wanted there, is said here, too.
//!
//! A rule of the grammar says which words spell a value, and how they are read with one word of
//! look-ahead; a step of the parser reads what its rule does. A step that does not fit refuses at the
//! next word, and says which class of words is wanted.
//!
//! Read `specs/Words.antt` for the rules of words, and then `scanner`; `specs/Rule.antt` and
//! `specs/Notation.antt` for the rules of a grammar, and then `parser`.
#![tactic(auto)]

mod byte_class;
mod fault;
mod literal;
mod name;
mod parser;
mod piece;
mod place;
mod remaining;
mod run;
mod scanner;
mod spelling;
mod text;
mod wanted;
mod word;

pub use fault::{
    DeckFault, Expected, FaultCause, FirstNamed, ItemPlace, LayoutCause, Limit, Named, NotAllowed,
    ParseRefusal, Twice, Unknown,
};
pub use literal::Quoted;
pub use parser::Parser;
pub use place::WordPlace;
pub use remaining::Words;
pub use scanner::{DECK_LIMIT, one_reading, scan, words};
pub use wanted::{NameOf, Note, WantedClass, WantedList, WantedWord};
pub use word::{Sign, Word, WordText};

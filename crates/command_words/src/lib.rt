//! What the words of a command line ask the program for: a run, checks, a session, a schema, an
//! explanation, the list of a deck, the records of a file, a program in COBOL, a load, a count, a
//! salvage, a copy, or help.
//!
//! The words are parsed by `clap`. What they ask for is a definition over its own of what an
//! option's value is, so `read_words` says in both outcomes which words ask for what. The texts of
//! help and usage are shown by tests.
//!
//! Read `specs/Asks.antt`, then `request`; `subcommands` has the words and options of each.
#![tactic(auto)]

mod arguments;
mod asked;
mod fault;
mod form_words;
mod help;
mod limits;
mod line_options;
mod request;
mod subcommands;

pub use fault::WordsFault;
pub use form_words::FormWords;
pub use limits::Limits;
pub use line_options::LineOptions;
pub use request::{Request, read_words};

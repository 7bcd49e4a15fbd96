//! Tests of the program: what a run of it over files cannot show.
//!
//! What a clause says is proved and not tested again, and what is written for which words, decks and files is
//! shown by runs of the program over the cases. Here it runs over writers that refuse a byte and readers that
//! give a file in parts, and files that are written byte by byte, as the format says, are found sound or have
//! the reason told. And what is told of how far a command is, which standard error shows where it is a
//! terminal.
//!
//! Read `writers` and `deck_files`, then `shown_progress`, `reasons`, and `written` for its files.
#![tactic(auto)]

#[cfg(test)]
mod checks;
#[cfg(test)]
mod deck_files;
#[cfg(test)]
mod reasons;
#[cfg(test)]
mod shown_progress;
#[cfg(test)]
mod slow;
#[cfg(test)]
mod writers;
#[cfg(test)]
mod written;

//! Tests of the loading of records from a text.
//!
//! What a clause says is proved and not tested again. Here texts are loaded into files on a shelf in memory,
//! and listed: that a load can succeed, what comes of a line that is refused, of one that is the line of no
//! record, and of a name that has a file; and what is told of each. And how far a load is: what is told of
//! that, and when a terminal shows it.
//!
//! Read `loading`, then `loads`, `sorting` and `load_progress`.
#![tactic(auto)]

#[cfg(test)]
mod checks;
#[cfg(test)]
mod load_progress;
#[cfg(test)]
mod loading;
#[cfg(test)]
mod loads;
#[cfg(test)]
mod sorting;

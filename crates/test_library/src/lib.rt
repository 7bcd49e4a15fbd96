//! Tests of the library of files in pages, over shelves in memory, and of the verbs over one.
//!
//! What a clause says is proved and not tested again, and worked decks are run elsewhere. Here the library is
//! given the same calls as one that keeps its records in lists: drawn ones, and those at the least and the
//! greatest lengths. And files of some two thousand records with keys of 120 bytes are filled, read and
//! changed, where the pages that are asked for are compared with bounds that are written down for themselves;
//! a few files are damaged, and held to the same bounds.
//!
//! Read `alike` for the calls on both libraries, then `drawn_alike` and `lengths`; for the pages `asked` and
//! `reads`, `asked_by_verbs`, and `damaged`.
#![tactic(auto)]

#[cfg(test)]
mod alike;
#[cfg(test)]
mod asked;
#[cfg(test)]
mod asked_by_verbs;
#[cfg(test)]
mod bounds;
#[cfg(test)]
mod checks;
#[cfg(test)]
mod damaged;
#[cfg(test)]
mod drawn_alike;
#[cfg(test)]
mod lengths;
#[cfg(test)]
mod looks;
#[cfg(test)]
mod opening;
#[cfg(test)]
mod performing;
#[cfg(test)]
mod reads;

//! Tests of the run of a deck over the files of a shelf, also of one that fails, or that a crash stops.
//!
//! That a transcript is the one of the definitions, and that a crash leaves no false file, is proved. Here
//! worked decks are run: their transcripts are those that stand beside their statements, and where a device
//! fails, what the file reads as is compared with what such a transcript allows.
//!
//! Read `transcripts`, then `answers` and `judged` for what a transcript may say behind a fault, and
//! `failing`.
#![tactic(auto)]

#[cfg(test)]
mod answers;
#[cfg(test)]
mod checks;
#[cfg(test)]
mod crashes;
#[cfg(test)]
mod decks;
#[cfg(test)]
mod each_call;
#[cfg(test)]
mod ends;
#[cfg(test)]
mod failing;
#[cfg(test)]
mod faults;
#[cfg(test)]
mod judged;
#[cfg(test)]
mod left;
#[cfg(test)]
mod lines;
#[cfg(test)]
mod refusals;
#[cfg(test)]
mod running;
#[cfg(test)]
mod transcripts;
#[cfg(test)]
mod two_thousand;
#[cfg(test)]
mod unchanged;
#[cfg(test)]
mod writers;

//! Tests of files that are built from records, opened by their parts and copied, over pages and shelves
//! in memory.
//!
//! What a clause says is proved and not tested again. Here each call is made once with success, and
//! what it tells of records that make no file is seen.
#![tactic(auto)]

#[cfg(test)]
mod built_files;
#[cfg(test)]
mod built_units;
#[cfg(test)]
mod checks;
#[cfg(test)]
mod copies;
#[cfg(test)]
mod parts;
#[cfg(test)]
mod records;

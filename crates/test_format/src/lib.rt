//! Tests of what stands in bytes: layouts of records and keys, headers, statuses, and nodes of a tree.
//!
//! What a clause says is proved and not tested again. Here descriptions, keys and moves of the
//! standard's rules are worked out by hand, and a file's first page, a leaf and an inner node are
//! read off the bytes that the format gives.
//!
//! Read `layouts` for items and their places, `schemas` for keys, `headers` for the bytes of a file's
//! first page, and `nodes` for those of a tree.
#![tactic(auto)]

#[cfg(test)]
mod checks;
#[cfg(test)]
mod entries;
#[cfg(test)]
mod headers;
#[cfg(test)]
mod layouts;
#[cfg(test)]
mod moves;
#[cfg(test)]
mod nodes;
#[cfg(test)]
mod pictures;
#[cfg(test)]
mod schemas;
#[cfg(test)]
mod statuses;

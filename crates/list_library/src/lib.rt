//! A library of indexed files in memory.
//!
//! `ListLibrary` keeps the rows of its files in lists, which every call scans: short, and slow on
//! large files. It answers what `indexed_file::Library` says. It is always honest, and what it
//! shows of every name is true.
//!
//! Read `library` for its units and names, `list_file` for a file as rows, and `scan` for how a row is found.
#![tactic(auto)]

mod library;
mod list_file;
mod list_row;
mod list_unit;
mod presence;
mod scan;
mod wanted;

pub use library::ListLibrary;

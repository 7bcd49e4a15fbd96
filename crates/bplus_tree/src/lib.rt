//! B+ trees over pages: an ordered map from tree keys to entries.
//!
//! An entry begins with its tree key. All entries stand in leaves of one depth, and a separator
//! stands between two children of an inner node. Each node but the root is at least half full, and
//! an inner root has a separator. Each call answers what std's own word says of the list of entries
//! in order, and changes no page of anything else. On any bytes each call is safe, and answers
//! Damage where a page is not what its place requires.
//!
//! What an entry says besides its key is not known here. Read `specs/Standing.antt`, then `tree`.
#![tactic(auto)]

mod collapse;
mod cursor;
mod empty_leaf;
mod grow;
mod grow_root;
mod insert;
mod law;
mod rebalance;
mod remove;
mod tree;
mod two_parts;

pub use cursor::Cursor;
pub use law::{have_many_entries, reads_its_entries};
pub use tree::Tree;

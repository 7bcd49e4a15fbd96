//! Searches of a B+ tree over pages, from the page of its root.
//!
//! All entries stand in leaves of one depth, and a separator stands between two children of an
//! inner node. A search is told the page of the root and how many levels are above the leaves. Each
//! answers what std's own word says of the list of entries in order, and changes no page. On any
//! bytes each is safe, and answers Damage where a page is not what its place requires.
//!
//! Read `specs/Tree.antt` and `specs/Stored.antt` for what a tree in pages is, then `search`.
#![tactic(auto)]

mod descent;
mod range;
mod search;
mod spot;
mod tail;

pub use descent::{LeafLook, StepDown, descend, has_key, seek};
pub use range::{First, first_within};
pub use search::{find_below, last_below, next_below};
pub use spot::{Spot, begins_with, copy_entry, entry_begins_with, fill};
pub use tail::{find_tail, has_below};

//! Walks over the pages of a file: of a tree, of the free pages, and of a heap; and counts over the pages
//! of a tree that a walk has found.
//!
//! A walk asks a `PageSource` for each page when it wants it: a list in memory, or whatever reads
//! them. It finds that a part of the file stands as its calls keep it, and marks the pages of the
//! part, or says why it does not stand, and where. Nothing is asked of what the pages hold. What an
//! entry says besides its key, and what the records are, is not known here. A count tells the pages and
//! entries of each level of a tree, and how many entries have one value at most.
//!
//! Read `specs/TreeWalk.antt` and `tree_walk`, then `free_walk`; `specs/Levels.antt`, then `levels`;
//! `heap_walk` for the heap, of which `record_heap` says what stands (`specs/Walk.antt` and
//! `specs/Faults.antt` there).
#![tactic(auto)]

mod bits;
mod free_walk;
mod heap_walk;
mod law;
mod leaf;
mod level;
mod levels;
mod node_page;
mod order;
mod runs;
mod slot_marks;
mod spot;
mod tree_walk;

pub use free_walk::walk_free;
pub use heap_walk::walk_heap;
pub use law::{trees_stay, walks_part_the_file};
pub use leaf::Leaf;
pub use level::{Level, TreeCounts};
pub use levels::{count_tree, level_laws};
pub use runs::{longest_run, run_laws};
pub use spot::LeafSpot;
pub use tree_walk::walk_tree;

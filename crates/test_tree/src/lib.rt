//! Tests of trees, indexes and the heap over pages in memory, and of the walks over the pages of a file.
//!
//! What a clause says is proved and not tested again. Here trees are filled, emptied and changed in
//! long series beside a list in order, pages are compared with the bytes that the format gives, and
//! each damage of a page is told by its fault.
//!
//! Read `memory` for the pages, then `trees`.
#![tactic(auto)]

#[cfg(test)]
mod built_heaps;
#[cfg(test)]
mod built_indexes;
#[cfg(test)]
mod built_trees;
#[cfg(test)]
mod checks;
#[cfg(test)]
mod heaps;
#[cfg(test)]
mod indexes;
#[cfg(test)]
mod marks;
#[cfg(test)]
mod memory;
#[cfg(test)]
mod trees;
#[cfg(test)]
mod walks;

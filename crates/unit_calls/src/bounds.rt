//! The most pages that a call may ask for, by the heights of the trees of its file.

use page_store::Shelf;
use shelf_library::ShelfLibrary;

/// A library that tells how high its trees are.
pub trait HasTrees {
    /// The height of the tree of key k of the first unit.
    fn tree_height(&self, k: u8) -> u8;
}

impl<S: Shelf + Drop> HasTrees for ShelfLibrary<S> {
    fn tree_height(&self, k: u8) -> u8 {
        self.height(0, k)
    }
}

/// The most pages that a call asks for which reads a record by key k.
pub fn most_to_read<L: HasTrees>(library: &L, k: u8) -> u64 {
    4 * u64::from(library.tree_height(k)) + u64::from(library.tree_height(0)) + 1
}

/// The most pages that a call asks for which looks for a value of key k.
pub fn most_to_seek<L: HasTrees>(library: &L, k: u8) -> u64 {
    2 * u64::from(library.tree_height(k))
}

/// The most pages that a call asks for which changes the file: thirty for each level of both trees, and for
/// one level more of each.
pub fn most_to_change<L: HasTrees>(library: &L) -> u64 {
    30 * (u64::from(library.tree_height(0)) + u64::from(library.tree_height(1)) + 2)
}

//! What is asked of a leaf.

use std::alloc::AllocError;

/// Entries of `ENTRY` bytes by rising tree key.
pub trait Leaf<const ENTRY: usize> {
    /// Takes every entry out.
    fn empty(&mut self);

    /// The place of the first entry whose tree key is not below this one.
    fn rank(&self, key: &[u8]) -> usize;

    /// Puts an entry in its place, which is answered. A full leaf is emptied first.
    fn insert(&mut self, entry: &[u8; ENTRY]) -> Result<usize, AllocError>;
}

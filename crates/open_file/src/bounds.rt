//! What the numbers of a header must be.
ghost use Rattle.std.specs.Prelude.{◌≡◌, ◌↔◌, IsTrue, All};
ghost use Rattle.open_file.specs.Bounds.{AreTreeNumbers, AreLinksWithin};

use crate::first_page::{Header, TreeNumbers};

/// The greatest stamp that can come next, which no record has.
const LAST_STAMP: u64 = 1 << 63;

/// The numbers are within their bounds. The schema is not looked at, but for the number of its keys.
pub fn is_within(header: &Header) -> bool
    ensures { IsTrue result ↔ AreLinksWithin header.now }
{
    let pages = header.pages;
    header.schema.key_count() < pages as usize
        && are_trees(&header.trees, pages)
        && header.first_free < pages
        && header.free < pages
        && header.first_heap < pages
        && header.free_slot_page < pages
        && 1 <= header.next_stamp
        && header.next_stamp <= LAST_STAMP
}

fn are_trees(trees: &[TreeNumbers], pages: u32) -> bool
    ensures { IsTrue result ↔ All (AreTreeNumbers pages) trees.now }
{
    trees.iter().all(|tree| is_tree(tree, pages))
}

/// The tree has 1 to 20 levels, and its root is a page behind the header.
fn is_tree(tree: &TreeNumbers, pages: u32) -> bool
    ensures { IsTrue result ↔ AreTreeNumbers pages tree.now }
{
    1 <= tree.height && tree.height <= 20 && 1 <= tree.root && tree.root < pages
}

//! Leaves, filled and written one behind the other.

ghost use Rattle.std.specs.Prelude.{◌≡◌, ◌+◌, ◌++◌, ◌∷◌, [], OnOk, OnErr, length};
ghost use Rattle.tree_node.specs.Leaf.{leaf_entries, LeafHas, HasEntryAt};
ghost use Rattle.bplus_tree.specs.Changes.{CanWrite, WhereSound};
ghost use Rattle.tree_building.specs.Level.{HaveWidth};
ghost use Rattle.tree_building.specs.Fresh.{TakesExactly, TakesNewPages};
ghost use Rattle.tree_building.specs.Leaves.{CanTakeEntry, AddsBuiltLeaf};

use crate::fresh_page::put_page;
use crate::nodes::push_node;
use io_state::Fault;
use pages::{PAGE_SIZE, Pages};
use tree_node::{LeafView, LeafViewMut, NodeShape, Separator};

/// Puts an entry behind those of a leaf.
pub fn push_entry(page: &mut [u8; PAGE_SIZE], shape: NodeShape, entry: &[u8])
    requires { CanTakeEntry shape entry.now page.old }
    ensures { LeafHas shape page.new (leaf_entries shape page.old ++ entry.now ∷ []) }
{
    let count = LeafView { page, shape }.count();
    LeafViewMut { page, shape }.insert_at(count, entry);
}

/// Writes a leaf to a page that was not in use, and adds it to those before it.
///
/// Full where no page is available, and Memory.
pub fn add_leaf<P: Pages>(
    pages: &mut P,
    shape: NodeShape,
    leaf: &[u8; PAGE_SIZE],
    before: &mut Vec<Separator>,
) -> Result<(), Fault>
    requires pages { CanWrite P.shown pages.old }
    requires leaf { HasEntryAt shape 0 leaf.now }
    ensures adds { WhereSound P.shown pages.old pages.new (AddsBuiltLeaf shape leaf.now before.old.items
        before.new.items result) }
    ensures one { OnOk result (length before.new.items ≡ length before.old.items + 1) }
    ensures width { OnOk result (HaveWidth shape before.old.items → HaveWidth shape before.new.items) }
    ensures err { OnErr result (before.new.items ≡ before.old.items) }
    ensures takes { TakesNewPages P.shown pages.old pages.new result }
    ensures taken { TakesExactly P.shown 1 pages.old pages.new result }
{
    let child = put_page(pages, leaf)?;
    let leaf = LeafView { page: leaf, shape };
    push_node(before, leaf.key(0), child)
}

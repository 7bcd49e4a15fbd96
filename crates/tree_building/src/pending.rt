//! The last two leaves of a tree that is being built, which are not written yet.

ghost use Rattle.std.specs.Prelude.{◌≡◌, ◌≤◌, ◌<◌, ◌++◌, ◌∷◌, [], length};
ghost use Rattle.tree_node.specs.Leaf.{leaf_entries, leaf_room};
ghost use Rattle.tree_node.specs.Balance.{CanTake, FillsRightLeaf};
ghost use Rattle.tree_building.specs.Pending.{ArePending, TakesEntryBehind, AreUneven, AreEven};

use crate::leaves::push_entry;
use pages::PAGE_SIZE;
use tree_node::{LeafView, LeafViewMut, NodeShape};

/// Puts an entry behind those of two leaves, the second of which has room for it.
pub fn push_pending(
    lower: &mut [u8; PAGE_SIZE],
    upper: &mut [u8; PAGE_SIZE],
    shape: NodeShape,
    entry: &[u8],
)
    requires pending { ArePending shape lower.old upper.old }
    requires room { length (leaf_entries shape upper.old) < leaf_room shape }
    requires size { length entry.now ≡ shape.entry }
    ensures { TakesEntryBehind shape entry.now lower.old upper.old lower.new upper.new }
{
    if (LeafView { page: lower, shape }).is_full() {
        push_entry(upper, shape, entry);
    } else {
        push_entry(lower, shape, entry);
    }
}

/// The last `moved` entries of a leaf go over to the one behind it.
fn move_back(
    lower: &mut [u8; PAGE_SIZE],
    upper: &mut [u8; PAGE_SIZE],
    shape: NodeShape,
    moved: usize,
)
    requires { CanTake shape moved upper.old lower.old }
    ensures { FillsRightLeaf shape moved lower.old upper.old lower.new upper.new }
{
    for _ in 0..moved {
        LeafViewMut { page: upper, shape }.borrow_from_left(lower);
    }
}

/// Shares the entries of a full leaf with the one behind it, so that it has as many, or one more.
pub fn even_out(lower: &mut [u8; PAGE_SIZE], upper: &mut [u8; PAGE_SIZE], shape: NodeShape)
    requires { AreUneven shape lower.old upper.old }
    ensures { AreEven shape lower.old upper.old lower.new upper.new }
{
    let first = LeafView { page: lower, shape }.count();
    let second = LeafView { page: upper, shape }.count();
    move_back(lower, upper, shape, (first - second) / 2);
}

//! One entry or separator more in the bytes of a node.

ghost use Rattle.std.specs.Prelude.{insert};
ghost use Rattle.tree_node.specs.Leaf.{leaf_entries, HasEntryAt, EntryCanStandAt};
ghost use Rattle.tree_node.specs.Inner.{CanStandAt};
ghost use Rattle.tree_node.specs.Table.{IsOfSize};
ghost use Rattle.tree_node.specs.Balance.{first_key};
ghost use Rattle.tree_node.specs.Put.{PutInLeaf, PutsSeparator};

use crate::inner::InnerView;
use crate::inner_mut::InnerViewMut;
use crate::leaf::LeafView;
use crate::leaf_mut::LeafViewMut;
use crate::separator::Separator;
use crate::shape::{NodeShape, TreeKey};
use pages::PAGE_SIZE;

/// Puts an entry before entry `place` of a leaf. Where the leaf is full, its upper half goes to
/// another page, and the first key there is answered.
pub fn put_in_leaf(
    page: &mut [u8; PAGE_SIZE],
    upper: &mut [u8; PAGE_SIZE],
    shape: NodeShape,
    place: usize,
    entry: &[u8],
) -> Option<TreeKey>
    requires { EntryCanStandAt shape place entry.now page.old }
    ensures { PutInLeaf shape page.new upper.new
        (insert (leaf_entries shape page.old) place entry.now) result }
{
    let full = LeafView { page, shape }.is_full();
    if !full {
        LeafViewMut { page, shape }.insert_at(place, entry);
        return None;
    }
    LeafViewMut { page, shape }.split_into(upper, place, entry);
    Some(first_key(upper, shape))
}

/// The first key of a leaf.
fn first_key(page: &[u8; PAGE_SIZE], shape: NodeShape) -> TreeKey
    requires { HasEntryAt shape 0 page.now }
    ensures { IsOfSize shape.width (first_key shape page.now) result.items }
{
    let mut key = TreeKey::new();
    let _ = key.try_extend_from_slice(LeafView { page, shape }.key(0));
    key
}

/// Puts a separator before separator `place` of an inner node, with the child to its right. Where
/// the node is full, its upper part goes to another page, and the separator between the two is
/// answered.
pub fn put_in_inner(
    page: &mut [u8; PAGE_SIZE],
    upper: &mut [u8; PAGE_SIZE],
    shape: NodeShape,
    place: usize,
    separator: &Separator,
) -> Option<TreeKey>
    requires { CanStandAt shape place separator.now.key.items page.old }
    ensures { PutsSeparator shape place separator.now page.old page.new upper.new result }
{
    let full = InnerView { page, shape }.is_full();
    if !full {
        InnerViewMut { page, shape }.insert_at(place, &separator.key, separator.child);
        return None;
    }
    Some(InnerViewMut { page, shape }.split_into(upper, place, &separator.key, separator.child))
}

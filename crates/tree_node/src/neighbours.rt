//! Two nodes side by side, of which one has too little.

ghost use Rattle.std.specs.Prelude.{[], slice_index_or};
ghost use Rattle.tree_node.specs.Leaf.{HasEntryAt, CanMergeLeaf};
ghost use Rattle.tree_node.specs.Inner.{separators, HasSeparatorAt, CanChangeKey, CanMergeInner};
ghost use Rattle.tree_node.specs.Inner.{CanBorrowChild};
ghost use Rattle.tree_node.specs.Table.{IsOfSize};
ghost use Rattle.tree_node.specs.Balance.{CanTake, LosesSeparator, ChangesSeparator, first_key};
ghost use Rattle.tree_node.specs.Balance.{LeavesJoined, FillsLeftLeaf, FillsRightLeaf, InnersJoined};
ghost use Rattle.tree_node.specs.Balance.{FillsLeftInner, FillsRightInner, Balances};

use crate::inner::{InnerView, is_inner};
use crate::inner_mut::InnerViewMut;
use crate::leaf::{LeafView, is_leaf};
use crate::leaf_mut::LeafViewMut;
use crate::shape::{NodeShape, TreeKey};
use pages::PAGE_SIZE;

/// Takes a separator out, and the child to its right.
fn lose(node: &mut [u8; PAGE_SIZE], shape: NodeShape, at: usize)
    requires { HasSeparatorAt shape at node.old }
    ensures { LosesSeparator shape at node.old node.new }
{
    InnerViewMut { page: node, shape }.remove_at(at);
}

/// Puts the first key of a leaf between that leaf and the one before it.
fn lead(node: &mut [u8; PAGE_SIZE], shape: NodeShape, at: usize, right: &[u8; PAGE_SIZE])
    requires place { HasSeparatorAt shape at node.old }
    requires first { HasEntryAt shape 0 right.now }
    ensures { ChangesSeparator shape at (first_key shape right.now) node.old node.new }
{
    let right = LeafView { page: right, shape };
    InnerViewMut { page: node, shape }.set_separator(at, right.key(0));
}

fn join_leaves(left: &mut [u8; PAGE_SIZE], right: &[u8; PAGE_SIZE], shape: NodeShape)
    requires { CanMergeLeaf shape left.old right.now }
    ensures { LeavesJoined shape left.old right.now left.new }
{
    LeafViewMut { page: left, shape }.merge_from(right);
}

/// The first `moved` entries of the leaf to the right go over to the left one.
#[tactic(auto, using(crate::proofs::BalanceLemmas::lengths))]
fn fill_left_leaf(
    left: &mut [u8; PAGE_SIZE],
    right: &mut [u8; PAGE_SIZE],
    shape: NodeShape,
    moved: usize,
)
    requires { CanTake shape moved left.old right.old }
    ensures { FillsLeftLeaf shape moved left.old right.old left.new right.new }
{
    for _ in 0..moved {
        LeafViewMut { page: left, shape }.borrow_from_right(right);
    }
}

/// The last `moved` entries of the leaf to the left go over to the right one.
fn fill_right_leaf(
    left: &mut [u8; PAGE_SIZE],
    right: &mut [u8; PAGE_SIZE],
    shape: NodeShape,
    moved: usize,
)
    requires { CanTake shape moved right.old left.old }
    ensures { FillsRightLeaf shape moved left.old right.old left.new right.new }
{
    for _ in 0..moved {
        LeafViewMut { page: right, shape }.borrow_from_left(left);
    }
}

/// Two leaves share their entries anew, or become one. The answer is whether they did.
fn balance_leaves(
    node: &mut [u8; PAGE_SIZE],
    left: &mut [u8; PAGE_SIZE],
    right: &mut [u8; PAGE_SIZE],
    shape: NodeShape,
    at: usize,
) -> Option<bool>
    requires { HasSeparatorAt shape at node.old }
    ensures { Balances shape 0 at node.old left.old right.old node.new left.new right.new result }
{
    if !is_leaf(left, shape) || !is_leaf(right, shape) {
        return None;
    }
    let half = shape.leaf_room() / 2;
    let lower = LeafView { page: left, shape }.count();
    let upper = LeafView { page: right, shape }.count();
    if lower + upper < 2 * half {
        join_leaves(left, right, shape);
        lose(node, shape, at);
        Some(true)
    } else if lower < upper {
        fill_left_leaf(left, right, shape, (upper - lower).div_ceil(2));
        lead(node, shape, at, right);
        Some(false)
    } else if upper < lower {
        fill_right_leaf(left, right, shape, (lower - upper).div_ceil(2));
        lead(node, shape, at, right);
        Some(false)
    } else {
        None
    }
}

/// A separator that outlives its page.
fn separator_at(node: &[u8; PAGE_SIZE], shape: NodeShape, at: usize) -> TreeKey
    requires { HasSeparatorAt shape at node.now }
    ensures { IsOfSize shape.width (slice_index_or (separators shape node.now) at []) result.items }
{
    let mut key = TreeKey::new();
    let _ = key.try_extend_from_slice(InnerView { page: node, shape }.separator(at));
    key
}

fn join_inners(
    between: &[u8],
    left: &mut [u8; PAGE_SIZE],
    right: &[u8; PAGE_SIZE],
    shape: NodeShape,
)
    requires { CanMergeInner shape between.now left.old right.now }
    ensures { InnersJoined shape between.now left.old right.now left.new }
{
    InnerViewMut { page: left, shape }.merge_from(between, right);
}

/// The first child of the node to the right goes over to the left one. Answers the separator that
/// stands between the two now.
fn fill_left_inner(
    between: &[u8],
    left: &mut [u8; PAGE_SIZE],
    right: &mut [u8; PAGE_SIZE],
    shape: NodeShape,
) -> TreeKey
    requires { CanBorrowChild shape between.now left.old right.old }
    ensures { FillsLeftInner shape between.now result.items left.old right.old left.new right.new }
{
    InnerViewMut { page: left, shape }.borrow_from_right(between, right)
}

/// The last child of the node to the left goes over to the right one. Answers the separator that
/// stands between the two now.
fn fill_right_inner(
    between: &[u8],
    left: &mut [u8; PAGE_SIZE],
    right: &mut [u8; PAGE_SIZE],
    shape: NodeShape,
) -> TreeKey
    requires { CanBorrowChild shape between.now right.old left.old }
    ensures { FillsRightInner shape between.now result.items left.old right.old left.new right.new }
{
    InnerViewMut { page: right, shape }.borrow_from_left(between, left)
}

/// Puts a separator in the place of another one.
fn set(node: &mut [u8; PAGE_SIZE], shape: NodeShape, at: usize, key: &[u8])
    requires { CanChangeKey shape at key.now node.old }
    ensures { ChangesSeparator shape at key.now node.old node.new }
{
    InnerViewMut { page: node, shape }.set_separator(at, key);
}

/// Two inner nodes share their children anew, or become one. The answer is whether they did.
fn balance_inners(
    node: &mut [u8; PAGE_SIZE],
    left: &mut [u8; PAGE_SIZE],
    right: &mut [u8; PAGE_SIZE],
    shape: NodeShape,
    at: usize,
) -> Option<bool>
    requires { HasSeparatorAt shape at node.old }
    ensures { Balances shape 1 at node.old left.old right.old node.new left.new right.new result }
{
    if !is_inner(left, shape) || !is_inner(right, shape) {
        return None;
    }
    let half = shape.inner_room() / 2;
    let lower = InnerView { page: left, shape }.count();
    let upper = InnerView { page: right, shape }.count();
    let between = separator_at(node, shape, at);
    if lower + upper < 2 * half {
        join_inners(between.as_slice(), left, right, shape);
        lose(node, shape, at);
        Some(true)
    } else if lower < upper {
        let key = fill_left_inner(between.as_slice(), left, right, shape);
        set(node, shape, at, key.as_slice());
        Some(false)
    } else if upper < lower {
        let key = fill_right_inner(between.as_slice(), left, right, shape);
        set(node, shape, at, key.as_slice());
        Some(false)
    } else {
        None
    }
}

/// Two children of a node, with this many levels below them, share what they have, or become one.
/// The answer is whether they did.
pub fn balance(
    levels: u8,
    node: &mut [u8; PAGE_SIZE],
    left: &mut [u8; PAGE_SIZE],
    right: &mut [u8; PAGE_SIZE],
    shape: NodeShape,
    at: usize,
) -> Option<bool>
    requires { HasSeparatorAt shape at node.old }
    ensures { Balances shape levels at node.old left.old right.old node.new left.new right.new result }
{
    if levels == 0 {
        balance_leaves(node, left, right, shape, at)
    } else {
        balance_inners(node, left, right, shape, at)
    }
}

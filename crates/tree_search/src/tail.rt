//! What the entry of a key has behind the key, and whether a key has an entry.

ghost use Rattle.std.specs.Prelude.{◌+◌};
ghost use Rattle.tree_search.specs.LookUps.{LooksUp, LooksBelow};
ghost use Rattle.tree_node.specs.Leaf.{IsLeaf};
ghost use Rattle.tree_search.specs.Stored.{WhereRising};
ghost use Rattle.tree_search.specs.Calls.{entry_of};
ghost use Rattle.tree_search.specs.Tail.{TellsPresence, TellsInLeaf, HasKeyBelow, TellsTail, TellsTailInLeaf};
ghost use Rattle.tree_search.specs.Tail.{TellsTailOfBytes, CanFillTail, CanFillFromLeaf};

use crate::descent::has_key;
use crate::search::leaf_below;
use io_state::Fault;
use pages::{PAGE_SIZE, Pages};
use tree_node::{LeafView, NodeShape, is_leaf};

/// The bytes behind the key of an entry go to `tail`, in a tree with `levels` levels above its
/// leaves. The answer is whether the key has an entry.
pub fn find_tail<P: Pages>(
    pages: &mut P,
    shape: NodeShape,
    page: u32,
    levels: u8,
    key: &[u8],
    tail: &mut [u8],
) -> Result<bool, Fault>
    requires { CanFillTail P.shown shape tail.old pages.old }
    ensures { LooksBelow P.shown levels (TellsTail shape levels page key.now tail.new) pages.old pages.new
        result }
{
    let leaf = leaf_below(pages, shape, page, levels, key)?;
    tail_in_leaf(pages, shape, leaf, key, tail)
}

/// The same in a leaf.
fn tail_in_leaf<P: Pages>(
    pages: &mut P,
    shape: NodeShape,
    page: u32,
    key: &[u8],
    tail: &mut [u8],
) -> Result<bool, Fault>
    requires { CanFillTail P.shown shape tail.old pages.old }
    ensures { LooksUp P.shown 1 (TellsTailInLeaf shape page key.now tail.new) pages.old pages.new result }
{
    let bytes = pages.page(page)?;
    if !is_leaf(bytes, shape) {
        return Err(Fault::Damage);
    }
    Ok(copy_tail(bytes, shape, key, tail))
}

/// The same in the bytes of a leaf.
fn copy_tail(bytes: &[u8; PAGE_SIZE], shape: NodeShape, key: &[u8], tail: &mut [u8]) -> bool
    requires { CanFillFromLeaf shape tail.old bytes.now }
    ensures { TellsTailOfBytes shape bytes.now key.now tail.new result }
{
    let leaf = LeafView { page: bytes, shape };
    let place = leaf.rank(key);
    if !has_key(bytes, shape, place, key) {
        return false;
    }
    let entry = leaf.entry(place);
    tail.copy_from_slice(&entry[usize::from(shape.width)..]);
    true
}

/// Whether a key has an entry in a tree with `levels` levels above its leaves.
pub fn has_below<P: Pages>(
    pages: &mut P,
    shape: NodeShape,
    page: u32,
    levels: u8,
    key: &[u8],
) -> Result<bool, Fault>
    requires ready { P.shown.IsReady pages.old }
    ensures { LooksBelow P.shown levels (HasKeyBelow shape levels page key.now) pages.old pages.new result }
{
    let leaf = leaf_below(pages, shape, page, levels, key)?;
    is_in_leaf(pages, shape, leaf, key)
}

/// The same in a leaf.
fn is_in_leaf<P: Pages>(
    pages: &mut P,
    shape: NodeShape,
    page: u32,
    key: &[u8],
) -> Result<bool, Fault>
    requires ready { P.shown.IsReady pages.old }
    ensures { LooksUp P.shown 1
        (λ live. TellsInLeaf TellsPresence shape live page key.now) pages.old pages.new result }
{
    let bytes = pages.page(page)?;
    if !is_leaf(bytes, shape) {
        return Err(Fault::Damage);
    }
    Ok(is_among(bytes, shape, key))
}

/// The same in the bytes of a leaf.
fn is_among(bytes: &[u8; PAGE_SIZE], shape: NodeShape, key: &[u8]) -> bool
    requires leaf { IsLeaf shape bytes.now }
    ensures { WhereRising shape bytes.now (λ entries.
        TellsPresence (entry_of shape.width key.now entries) result) }
{
    let leaf = LeafView { page: bytes, shape };
    has_key(bytes, shape, leaf.rank(key), key)
}

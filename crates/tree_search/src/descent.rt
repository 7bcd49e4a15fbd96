//! One step down a tree, and a look into a leaf.

ghost use Rattle.std.specs.Prelude.{◌≡◌, ◌+◌, ◌<◌, true, IsTrue, length};
ghost use Rattle.tree_search.specs.LookUps.{LooksUp};
ghost use Rattle.tree_search.specs.Descent.{Steps, IsDescentStep, Looks, IsLook, TellsKeyAt};
ghost use Rattle.tree_node.specs.Inner.{IsInner, separators, children};
ghost use Rattle.tree_node.specs.Leaf.{IsLeaf, leaf_entries};
ghost use Rattle.tree_search.specs.Stored.{WhereRising};

use crate::spot::entry_with;
use io_state::Fault;
use pages::{PAGE_SIZE, Pages};
use tree_node::{Entry, InnerView, LeafView, NodeShape, is_inner, is_leaf};

/// The child of an inner node below which a key belongs: its place, its page, the page of the next
/// one (or its own, where it is the last), and how many separators the node has.
#[derive(Clone, Copy)]
pub struct StepDown {
    pub place: usize,
    pub child: u32,
    pub next: u32,
    pub count: usize,
}

/// The place of a key in a leaf: how many entries have keys below it. And its entry, where it has one.
#[derive(Drop)]
pub struct LeafLook {
    pub place: usize,
    pub found: Option<Entry>,
}

/// One step down, to where a key belongs.
pub fn descend<P: Pages>(
    pages: &mut P,
    shape: NodeShape,
    page: u32,
    key: &[u8],
) -> Result<StepDown, Fault>
    requires ready { P.shown.IsReady pages.old }
    ensures { LooksUp P.shown 1 (λ live. Steps shape live page key.now) pages.old pages.new result }
{
    let bytes = pages.page(page)?;
    if !is_inner(bytes, shape) {
        return Err(Fault::Damage);
    }
    Ok(step_in(bytes, shape, key))
}

/// One step down from the bytes of an inner node.
pub fn step_in(page: &[u8; PAGE_SIZE], shape: NodeShape, key: &[u8]) -> StepDown
    requires inner { IsInner shape page.now }
    ensures { IsDescentStep shape.width key.now (separators shape page.now) (children shape page.now) result }
{
    let node = InnerView { page, shape };
    let place = node.rank(key);
    let count = node.count();
    StepDown {
        place,
        child: node.child(place),
        next: node.child((place + 1).min(count)),
        count,
    }
}

/// Looks for a key in a leaf.
pub fn seek<P: Pages>(
    pages: &mut P,
    shape: NodeShape,
    page: u32,
    key: &[u8],
) -> Result<LeafLook, Fault>
    requires ready { P.shown.IsReady pages.old }
    ensures { LooksUp P.shown 1 (λ live. Looks shape live page key.now) pages.old pages.new result }
{
    let bytes = pages.page(page)?;
    if !is_leaf(bytes, shape) {
        return Err(Fault::Damage);
    }
    Ok(find_in(bytes, shape, key))
}

/// Looks for a key in the bytes of a leaf.
fn find_in(page: &[u8; PAGE_SIZE], shape: NodeShape, key: &[u8]) -> LeafLook
    requires leaf { IsLeaf shape page.now }
    ensures { WhereRising shape page.now (λ entries. IsLook shape.width key.now entries result) }
{
    let leaf = LeafView { page, shape };
    let place = leaf.rank(key);
    if !has_key(page, shape, place, key) {
        return LeafLook { place, found: None };
    }
    let found = Some(entry_with(leaf.entry(place)));
    LeafLook { place, found }
}

/// An entry of the key stands at this place of a leaf, where the place is the key's.
pub fn has_key(page: &[u8; PAGE_SIZE], shape: NodeShape, place: usize, key: &[u8]) -> bool
    requires leaf { IsLeaf shape page.now }
    ensures within { result ≡ true → place < length (leaf_entries shape page.now) }
    ensures key { TellsKeyAt shape key.now place page.now result }
{
    let leaf = LeafView { page, shape };
    if place >= leaf.count() {
        return false;
    }
    leaf.key(place) == key
}

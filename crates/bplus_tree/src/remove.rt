//! Removals by descent. A node that has too little takes from a neighbour or becomes one with it.

ghost use Rattle.std.specs.Prelude.{◌≡◌, ◌+◌, ◌*◌, ◌<◌, ◌≤◌, ◌↔◌, false, IsTrue, length, remove};
ghost use Rattle.tree_node.specs.Leaf.{IsLeaf, leaf_entries};
ghost use Rattle.tree_node.specs.Fill.{least_entries};
ghost use Rattle.bplus_tree.specs.Changes.{CanWrite, WhereSound, Alters, EditsPages, EditsDown, GivesPages};
ghost use Rattle.bplus_tree.specs.Remove.{Removes, HasPlace, OutOfLeaf, TakesBelow, TakesInPlace};
ghost use Rattle.bplus_tree.specs.Remove.{TakesFromLeaf};
ghost use Rattle.bplus_tree.specs.Edits.{IsLeafOf};
ghost use Rattle.bplus_tree.specs.Subtree.{at_page};

use crate::rebalance::rebalance;
use io_state::Fault;
use pages::{PAGE_SIZE, Pages};
use tree_node::{Entry, LeafView, LeafViewMut, NodeShape, is_leaf};
use tree_search::{LeafLook, descend, fill, has_key, seek};

/// What is left below a page.
#[derive(Drop)]
pub enum Shrunk {
    /// The key is not there.
    Absent,
    /// This entry was taken out, and whether the page has too little now.
    Taken { entry: Entry, short: bool },
}

/// Takes the entry of a key out of a tree with `levels` levels above its leaves.
pub fn remove_below<P: Pages>(
    pages: &mut P,
    shape: NodeShape,
    page: u32,
    levels: u8,
    key: &[u8],
) -> Result<Shrunk, Fault>
    requires { CanWrite P.shown pages.old }
    ensures removed { WhereSound P.shown pages.old pages.new (Removes (at_page shape levels page)
        key.now result) }
    ensures writes { GivesPages P.shown (7 * (levels + 1)) pages.old pages.new result }
{
    if levels == 0 {
        return remove_from_leaf(pages, shape, page, key);
    }
    let down = descend(pages, shape, page, key)?;
    match remove_below(pages, shape, down.child, levels - 1, key)? {
        Shrunk::Absent => Ok(Shrunk::Absent),
        Shrunk::Taken { entry, short } => {
            if short {
                let short = rebalance(pages, shape, page, levels - 1, down.place)?;
                Ok(Shrunk::Taken { entry, short })
            } else {
                let short = is_few(down.count, shape);
                Ok(Shrunk::Taken { entry, short })
            }
        }
    }
}

/// Takes the entry of a key, which goes to `to`, out of a leaf that keeps enough without it. The
/// answer is whether it did; where it did not, nothing is changed.
pub fn take_below<P: Pages>(
    pages: &mut P,
    shape: NodeShape,
    page: u32,
    levels: u8,
    key: &[u8],
    to: &mut Entry,
) -> Result<bool, Fault>
    requires { CanWrite P.shown pages.old }
    ensures { EditsDown P.shown levels (TakesBelow (at_page shape levels page) key.now to.new) pages.old
        pages.new result }
{
    if levels == 0 {
        return take_in_place(pages, shape, page, key, to);
    }
    let down = descend(pages, shape, page, key)?;
    take_below(pages, shape, down.child, levels - 1, key, to)
}

/// Takes the entry of a key out of a leaf that keeps enough without it.
fn take_in_place<P: Pages>(
    pages: &mut P,
    shape: NodeShape,
    page: u32,
    key: &[u8],
    to: &mut Entry,
) -> Result<bool, Fault>
    requires { CanWrite P.shown pages.old }
    ensures { Alters P.shown EditsPages 1 (TakesInPlace shape page key.now to.new) pages.old pages.new
        result }
{
    let bytes = pages.page_mut(page)?;
    if !is_leaf(bytes, shape) {
        return Err(Fault::Damage);
    }
    Ok(take_spare(bytes, shape, key, to))
}

/// The same in the bytes of a leaf.
fn take_spare(page: &mut [u8; PAGE_SIZE], shape: NodeShape, key: &[u8], to: &mut Entry) -> bool
    requires leaf { IsLeaf shape page.old }
    ensures { TakesFromLeaf shape key.now page.old page.new to.new result }
{
    let leaf = LeafView { page, shape };
    let place = leaf.rank(key);
    if leaf.count() <= shape.leaf_room() / 2 || !has_key(page, shape, place, key) {
        return false;
    }
    fill(to, (LeafView { page, shape }).entry(place));
    let _short = cut_out(page, shape, place);
    true
}

/// Takes the entry of a key out of a leaf.
fn remove_from_leaf<P: Pages>(
    pages: &mut P,
    shape: NodeShape,
    page: u32,
    key: &[u8],
) -> Result<Shrunk, Fault>
    requires { CanWrite P.shown pages.old }
    ensures removed { WhereSound P.shown pages.old pages.new (Removes (at_page shape 0 page)
        key.now result) }
    ensures writes { GivesPages P.shown 2 pages.old pages.new result }
{
    let LeafLook { place, found } = seek(pages, shape, page, key)?;
    match found {
        None => Ok(Shrunk::Absent),
        Some(entry) => {
            let short = take_out(pages, shape, page, place)?;
            Ok(Shrunk::Taken { entry, short })
        }
    }
}

/// Takes entry `place` out of a leaf. The answer is whether the leaf has too little now.
fn take_out<P: Pages>(
    pages: &mut P,
    shape: NodeShape,
    page: u32,
    place: usize,
) -> Result<bool, Fault>
    requires { CanWrite P.shown pages.old }
    ensures taken { WhereSound P.shown pages.old pages.new (OutOfLeaf shape page place result) }
    ensures writes { GivesPages P.shown 1 pages.old pages.new result }
{
    let bytes = pages.page_mut(page)?;
    if !is_leaf(bytes, shape) {
        return Err(Fault::Damage);
    }
    if place >= (LeafView { page: bytes, shape }).count() {
        return Err(Fault::Damage);
    }
    Ok(cut_out(bytes, shape, place))
}

/// Takes entry `place` out of the bytes of a leaf. The answer is whether the leaf has too little now.
fn cut_out(page: &mut [u8; PAGE_SIZE], shape: NodeShape, place: usize) -> bool
    requires { HasPlace shape place page.old }
    ensures removed { IsLeafOf shape (remove (leaf_entries shape page.old) place) page.new }
    ensures short { IsTrue result ↔ (length (leaf_entries shape page.new) < least_entries shape 0) }
{
    LeafViewMut { page, shape }.remove_at(place);
    is_short(page, shape)
}

/// A leaf has too little for one below another node.
fn is_short(page: &[u8; PAGE_SIZE], shape: NodeShape) -> bool
    requires leaf { IsLeaf shape page.now }
    ensures { IsTrue result ↔ (length (leaf_entries shape page.now) < least_entries shape 0) }
{
    LeafView { page, shape }.count() < shape.leaf_room() / 2
}

/// So many separators are too few for an inner node below another one.
fn is_few(count: usize, shape: NodeShape) -> bool
    ensures { IsTrue result ↔ (count < least_entries shape 1) }
{
    count < shape.inner_room() / 2
}

//! LeafLook-ups by descent.

ghost use Rattle.std.specs.Prelude.{◌≡◌, ◌+◌, ◌<◌, ◌≤◌, IsTrue, length};
ghost use Rattle.tree_node.specs.Leaf.{IsLeaf, leaf_entries};
ghost use Rattle.tree_search.specs.Stored.{WhereRising};
ghost use Rattle.pages.specs.PageCalls.{ReadsPages};
ghost use Rattle.tree_search.specs.LookUps.{WhenHonest, LooksUp, LooksBelow, AsksFewForNone};
ghost use Rattle.tree_search.specs.Calls.{last_of};
ghost use Rattle.tree_search.specs.Spot.{IsInLeafIf, Spots, SpotsInLeaf, SpotsFirst, SpotsFirstInLeaf};
ghost use Rattle.tree_search.specs.Search.{FindsKey, FindsNextEntry, FindsNextInLeaf, FindsFirstEntry};
ghost use Rattle.tree_search.specs.Search.{FirstOfLeaf};
ghost use Rattle.tree_search.specs.Search.{FirstChild, FindsLast, LastOfLeaf, LastChild, IsFound, IsPlace};
ghost use Rattle.tree_search.specs.Search.{LeadsToLeaf, FillsKey, FillsFromBytes, first_of};

use crate::descent::{descend, has_key};
use crate::spot::{Spot, entry_at, entry_in_leaf, entry_with, fill};
use io_state::Fault;
use pages::{PAGE_SIZE, Pages};
use tree_node::{Entry, InnerView, LeafView, NodeShape, is_inner, is_leaf};

/// The entry of a key in a tree with `levels` levels above its leaves.
pub fn find_below<P: Pages>(
    pages: &mut P,
    shape: NodeShape,
    page: u32,
    levels: u8,
    key: &[u8],
) -> Result<Option<Entry>, Fault>
    requires ready { P.shown.IsReady pages.old }
    ensures { LooksBelow P.shown levels (FindsKey shape levels page key.now) pages.old pages.new result }
{
    let leaf = leaf_below(pages, shape, page, levels, key)?;
    let mut entry = Entry::new();
    if find_in_leaf(pages, shape, leaf, key, &mut entry)? {
        return Ok(Some(entry));
    }
    Ok(None)
}

/// The leaf in which the entry of a key stands, where a tree with `levels` levels above its leaves has one.
pub fn leaf_below<P: Pages>(
    pages: &mut P,
    shape: NodeShape,
    page: u32,
    levels: u8,
    key: &[u8],
) -> Result<u32, Fault>
    requires ready { P.shown.IsReady pages.old }
    ensures leaf { WhenHonest P.shown pages.old pages.new
        (λ live. LeadsToLeaf shape live levels page key.now result) }
    ensures reads { ReadsPages P.shown levels pages.old pages.new result }
{
    if levels == 0 {
        return Ok(page);
    }
    let down = descend(pages, shape, page, key)?;
    leaf_below(pages, shape, down.child, levels - 1, key)
}

/// The entry of a key in a leaf goes to `to`. The answer is whether there is one.
fn find_in_leaf<P: Pages>(
    pages: &mut P,
    shape: NodeShape,
    page: u32,
    key: &[u8],
    to: &mut Entry,
) -> Result<bool, Fault>
    requires ready { P.shown.IsReady pages.old }
    ensures { LooksUp P.shown 1 (FillsKey shape page key.now to.new) pages.old pages.new result }
{
    let bytes = pages.page(page)?;
    if !is_leaf(bytes, shape) {
        return Err(Fault::Damage);
    }
    Ok(find_entry(bytes, shape, key, to))
}

/// The same in the bytes of a leaf.
fn find_entry(bytes: &[u8; PAGE_SIZE], shape: NodeShape, key: &[u8], to: &mut Entry) -> bool
    requires leaf { IsLeaf shape bytes.now }
    ensures { FillsFromBytes shape bytes.now key.now to.new result }
{
    let leaf = LeafView { page: bytes, shape };
    let place = leaf.rank(key);
    if !has_key(bytes, shape, place, key) {
        return false;
    }
    fill(to, leaf.entry(place));
    true
}

/// The first entry at a key or behind it, and where `past`, behind it. Where one is found, `spot`
/// is where it stands.
pub fn next_below<P: Pages>(
    pages: &mut P,
    shape: NodeShape,
    page: u32,
    levels: u8,
    key: &[u8],
    past: bool,
    spot: &mut Spot,
) -> Result<Option<Entry>, Fault>
    requires ready { P.shown.IsReady pages.old }
    ensures found { WhenHonest P.shown pages.old pages.new
        (λ live. FindsNextEntry past shape levels page key.now live result) }
    ensures spot { WhenHonest P.shown pages.old pages.new
        (λ live. Spots shape live levels page spot.new result) }
    ensures asks { AsksFewForNone P.shown levels pages.old pages.new result }
{
    if levels == 0 {
        return next_in_leaf(pages, shape, page, key, past, spot);
    }
    let down = descend(pages, shape, page, key)?;
    if let Some(found) = next_below(pages, shape, down.child, levels - 1, key, past, spot)? {
        return Ok(Some(found));
    }
    if down.place >= down.count {
        return Ok(None);
    }
    let first = first_below(pages, shape, down.next, levels - 1, spot)?;
    Ok(Some(first))
}

fn next_in_leaf<P: Pages>(
    pages: &mut P,
    shape: NodeShape,
    page: u32,
    key: &[u8],
    past: bool,
    spot: &mut Spot,
) -> Result<Option<Entry>, Fault>
    requires ready { P.shown.IsReady pages.old }
    ensures looks { LooksUp P.shown 1 (FindsNextInLeaf past shape page key.now) pages.old pages.new result }
    ensures spot { WhenHonest P.shown pages.old pages.new
        (λ live. SpotsInLeaf shape live page spot.new result) }
{
    let bytes = pages.page(page)?;
    if !is_leaf(bytes, shape) {
        return Err(Fault::Damage);
    }
    Ok(next_in(bytes, shape, page, key, past, spot))
}

/// The first entry of leaf `page` at a key or behind it, and where `past`, behind it.
fn next_in(
    bytes: &[u8; PAGE_SIZE],
    shape: NodeShape,
    page: u32,
    key: &[u8],
    past: bool,
    spot: &mut Spot,
) -> Option<Entry>
    requires leaf { IsLeaf shape bytes.now }
    ensures found { WhereRising shape bytes.now
        (λ entries. IsFound (first_of past shape.width key.now) entries result) }
    ensures spot { IsInLeafIf page (leaf_entries shape bytes.now) spot.new result }
{
    let place = place_in(bytes, shape, key, past);
    entry_at(bytes, shape, page, place, spot)
}

/// How many entries of a leaf come before those at a key or behind it, and where `past`, before
/// those behind it.
fn place_in(bytes: &[u8; PAGE_SIZE], shape: NodeShape, key: &[u8], past: bool) -> usize
    requires leaf { IsLeaf shape bytes.now }
    ensures { WhereRising shape bytes.now (λ entries. IsPlace past shape.width key.now entries result) }
{
    let leaf = LeafView { page: bytes, shape };
    if past {
        leaf.rank_after(key)
    } else {
        leaf.rank(key)
    }
}

/// The first entry of a tree that has one; `spot` is then where it stands.
pub fn first_below<P: Pages>(
    pages: &mut P,
    shape: NodeShape,
    page: u32,
    levels: u8,
    spot: &mut Spot,
) -> Result<Entry, Fault>
    requires ready { P.shown.IsReady pages.old }
    ensures first { WhenHonest P.shown pages.old pages.new
        (λ live. FindsFirstEntry shape live levels page result) }
    ensures spot { WhenHonest P.shown pages.old pages.new
        (λ live. SpotsFirst shape live levels page spot.new result) }
    ensures reads { ReadsPages P.shown (levels + 1) pages.old pages.new result }
{
    if levels == 0 {
        return first_of_leaf(pages, shape, page, spot);
    }
    let child = first_child(pages, shape, page)?;
    first_below(pages, shape, child, levels - 1, spot)
}

fn first_of_leaf<P: Pages>(
    pages: &mut P,
    shape: NodeShape,
    page: u32,
    spot: &mut Spot,
) -> Result<Entry, Fault>
    requires ready { P.shown.IsReady pages.old }
    ensures looks { LooksUp P.shown 1 (λ live. FirstOfLeaf shape live page) pages.old pages.new result }
    ensures spot { WhenHonest P.shown pages.old pages.new
        (λ live. SpotsFirstInLeaf shape live page spot.new result) }
{
    match entry_in_leaf(pages, shape, page, 0, spot)? {
        Some(entry) => Ok(entry),
        None => Err(Fault::Damage),
    }
}

pub fn first_child<P: Pages>(pages: &mut P, shape: NodeShape, page: u32) -> Result<u32, Fault>
    requires ready { P.shown.IsReady pages.old }
    ensures { LooksUp P.shown 1 (λ live. FirstChild shape live page) pages.old pages.new result }
{
    let bytes = pages.page(page)?;
    if !is_inner(bytes, shape) {
        return Err(Fault::Damage);
    }
    Ok(InnerView { page: bytes, shape }.child(0))
}

/// The last entry of a tree.
pub fn last_below<P: Pages>(
    pages: &mut P,
    shape: NodeShape,
    page: u32,
    levels: u8,
) -> Result<Option<Entry>, Fault>
    requires ready { P.shown.IsReady pages.old }
    ensures { LooksBelow P.shown levels (λ live. FindsLast shape live levels page) pages.old pages.new
        result }
{
    if levels == 0 {
        return last_of_leaf(pages, shape, page);
    }
    let child = last_child(pages, shape, page)?;
    last_below(pages, shape, child, levels - 1)
}

fn last_of_leaf<P: Pages>(
    pages: &mut P,
    shape: NodeShape,
    page: u32,
) -> Result<Option<Entry>, Fault>
    requires ready { P.shown.IsReady pages.old }
    ensures { LooksUp P.shown 1 (λ live. LastOfLeaf shape live page) pages.old pages.new result }
{
    let bytes = pages.page(page)?;
    if !is_leaf(bytes, shape) {
        return Err(Fault::Damage);
    }
    Ok(last_in(bytes, shape))
}

fn last_in(page: &[u8; PAGE_SIZE], shape: NodeShape) -> Option<Entry>
    requires leaf { IsLeaf shape page.now }
    ensures { IsFound last_of (leaf_entries shape page.now) result }
{
    let leaf = LeafView { page, shape };
    let count = leaf.count();
    if count == 0 {
        return None;
    }
    Some(entry_with(leaf.entry(count - 1)))
}

fn last_child<P: Pages>(pages: &mut P, shape: NodeShape, page: u32) -> Result<u32, Fault>
    requires ready { P.shown.IsReady pages.old }
    ensures { LooksUp P.shown 1 (λ live. LastChild shape live page) pages.old pages.new result }
{
    let bytes = pages.page(page)?;
    if !is_inner(bytes, shape) {
        return Err(Fault::Damage);
    }
    let node = InnerView { page: bytes, shape };
    Ok(node.child(node.count()))
}

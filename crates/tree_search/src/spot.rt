//! Where an entry stands.

ghost use Rattle.std.specs.Prelude.{◌≡◌, ◌<◌, ◌≤◌, IsTrue, length};
ghost use Rattle.tree_node.specs.Leaf.{IsLeaf, leaf_entries};
ghost use Rattle.tree_search.specs.LookUps.{LooksUp};

use io_state::Fault;
use pages::{PAGE_SIZE, Pages};
use tree_node::{Entry, LeafView, NodeShape, is_leaf};

/// The leaf of an entry, its place there, and how many entries the leaf has. Nowhere, where it has none.
#[derive(Clone, Copy)]
pub struct Spot {
    pub leaf: u32,
    pub place: u16,
    pub count: u16,
}

impl Spot {
    /// The spot of no entry.
    pub fn nowhere() -> Spot
        ensures { result.count ≡ 0 }
    {
        Spot {
            leaf: 0,
            place: 0,
            count: 0,
        }
    }
}

ghost use Rattle.tree_search.specs.Spot.{IsEntryAt, EntryAt, CopiesEntry, TellsStart, begins_with};

/// Entry `place` of the leaf on a page, where it has so many; `spot` is then where that is.
pub fn entry_in_leaf<P: Pages>(
    pages: &mut P,
    shape: NodeShape,
    page: u32,
    place: usize,
    spot: &mut Spot,
) -> Result<Option<Entry>, Fault>
    requires ready { P.shown.IsReady pages.old }
    ensures { LooksUp P.shown 1 (λ live. EntryAt shape live page place spot.new) pages.old pages.new result }
{
    let bytes = pages.page(page)?;
    if !is_leaf(bytes, shape) {
        return Err(Fault::Damage);
    }
    Ok(entry_at(bytes, shape, page, place, spot))
}

/// Entry `place` of a leaf, where it has so many; `spot` is then where that is.
pub fn entry_at(
    bytes: &[u8; PAGE_SIZE],
    shape: NodeShape,
    leaf: u32,
    place: usize,
    spot: &mut Spot,
) -> Option<Entry>
    requires leaf { IsLeaf shape bytes.now }
    ensures { IsEntryAt leaf place (leaf_entries shape bytes.now) spot.new result }
{
    let view = LeafView { page: bytes, shape };
    let count = view.count();
    if place >= count {
        return None;
    }
    *spot = Spot {
        leaf,
        place: place as u16,
        count: count as u16,
    };
    Some(entry_with(view.entry(place)))
}

/// Entry `place` of the leaf on a page goes to `to`. The answer is whether the leaf has so many.
pub fn copy_entry<P: Pages>(
    pages: &mut P,
    shape: NodeShape,
    page: u32,
    place: usize,
    to: &mut Entry,
) -> Result<bool, Fault>
    requires ready { P.shown.IsReady pages.old }
    ensures { LooksUp P.shown 1
        (λ live. CopiesEntry shape live page place to.new.items) pages.old pages.new result }
{
    let bytes = pages.page(page)?;
    if !is_leaf(bytes, shape) {
        return Err(Fault::Damage);
    }
    let leaf = LeafView { page: bytes, shape };
    if place >= leaf.count() {
        return Ok(false);
    }
    fill(to, leaf.entry(place));
    Ok(true)
}

/// Whether entry `place` of the leaf on a page begins with these bytes. Damage where the leaf has
/// no such entry.
pub fn entry_begins_with<P: Pages>(
    pages: &mut P,
    shape: NodeShape,
    page: u32,
    place: usize,
    start: &[u8],
) -> Result<bool, Fault>
    requires ready { P.shown.IsReady pages.old }
    ensures { LooksUp P.shown 1
        (λ live. TellsStart shape live page place start.now) pages.old pages.new result }
{
    let bytes = pages.page(page)?;
    if !is_leaf(bytes, shape) {
        return Err(Fault::Damage);
    }
    let leaf = LeafView { page: bytes, shape };
    if place >= leaf.count() {
        return Err(Fault::Damage);
    }
    Ok(begins_with(leaf.entry(place), start))
}

/// The bytes of an entry begin with these.
pub fn begins_with(entry: &[u8], start: &[u8]) -> bool
    ensures { result ≡ begins_with start.now entry.now }
{
    entry.starts_with(start)
}

/// An entry with these bytes.
pub fn entry_with(bytes: &[u8]) -> Entry
    requires { length bytes.now ≤ 508 }
    ensures { result.items ≡ bytes.now }
{
    let mut entry = Entry::new();
    fill(&mut entry, bytes);
    entry
}

/// Makes these bytes the entry.
pub fn fill(entry: &mut Entry, bytes: &[u8])
    requires { length bytes.now ≤ 508 }
    ensures { entry.new.items ≡ bytes.now }
{
    entry.clear();
    let _ = entry.try_extend_from_slice(bytes);
}

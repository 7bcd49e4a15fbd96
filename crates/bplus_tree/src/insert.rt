//! Inserts by descent. A page without room is split, and a separator goes up.

ghost use Rattle.std.specs.Prelude.{◌+◌, ◌*◌, IfOk, insert};
ghost use Rattle.tree_node.specs.Leaf.{leaf_entries};
ghost use Rattle.bplus_tree.specs.Changes.{CanInsert, WhereSound, Alters, EditsPages, EditsDown};
ghost use Rattle.bplus_tree.specs.Changes.{TakesOne, TakesUpTo};
ghost use Rattle.bplus_tree.specs.Insert.{Inserts, HasWholeKey, PutsBelow, PutsInPlace, CanPut, CanPutAt};
ghost use Rattle.bplus_tree.specs.Insert.{PutsInLeaf};
ghost use Rattle.bplus_tree.specs.Edits.{IsLeafOf};
ghost use Rattle.bplus_tree.specs.Subtree.{at_page};

use crate::grow::{add_to_inner, add_to_leaf};
use io_state::Fault;
use pages::{PAGE_SIZE, Pages};
use tree_node::{Entry, LeafView, LeafViewMut, NodeShape, Separator, is_leaf};
use tree_search::{LeafLook, descend, has_key, seek};

/// What an insert found, or did, below a page.
#[derive(Drop)]
pub enum Grown {
    /// The key is there, with this entry.
    Present(Entry),
    /// The entry is put in. Where the page was split, the separator leads to its upper part.
    Added(Option<Separator>),
}

/// Puts an entry into a tree with `levels` levels above its leaves, where its key is not there.
pub fn insert_below<P: Pages>(
    pages: &mut P,
    shape: NodeShape,
    page: u32,
    levels: u8,
    entry: &[u8],
) -> Result<Grown, Fault>
    requires { CanInsert P.shown shape entry.now pages.old }
    ensures inserted { WhereSound P.shown pages.old pages.new (Inserts (at_page shape levels page)
        entry.now result) }
    ensures width { IfOk result (HasWholeKey shape) }
    ensures writes { TakesUpTo P.shown (levels + 1) (6 * (levels + 1)) pages.old pages.new result }
{
    if levels == 0 {
        return insert_in_leaf(pages, shape, page, entry);
    }
    let down = descend(pages, shape, page, &entry[..shape.width as usize])?;
    match insert_below(pages, shape, down.child, levels - 1, entry)? {
        Grown::Present(found) => Ok(Grown::Present(found)),
        Grown::Added(None) => Ok(Grown::Added(None)),
        Grown::Added(Some(separator)) => {
            let up = add_to_inner(pages, shape, page, down.place, &separator)?;
            Ok(Grown::Added(up))
        }
    }
}

/// Puts an entry into the leaf below which its key belongs, where that has room and not the key.
/// The answer is whether it did; where it did not, nothing is changed.
pub fn put_below<P: Pages>(
    pages: &mut P,
    shape: NodeShape,
    page: u32,
    levels: u8,
    entry: &[u8],
) -> Result<bool, Fault>
    requires { CanInsert P.shown shape entry.now pages.old }
    ensures { EditsDown P.shown levels (PutsBelow (at_page shape levels page) entry.now) pages.old
        pages.new result }
{
    if levels == 0 {
        return put_in_place(pages, shape, page, entry);
    }
    let down = descend(pages, shape, page, &entry[..shape.width as usize])?;
    put_below(pages, shape, down.child, levels - 1, entry)
}

/// Puts an entry into a leaf, where that has room and not its key.
fn put_in_place<P: Pages>(
    pages: &mut P,
    shape: NodeShape,
    page: u32,
    entry: &[u8],
) -> Result<bool, Fault>
    requires { CanInsert P.shown shape entry.now pages.old }
    ensures { Alters P.shown EditsPages 1 (PutsInPlace shape page entry.now) pages.old pages.new result }
{
    let bytes = pages.page_mut(page)?;
    if !is_leaf(bytes, shape) {
        return Err(Fault::Damage);
    }
    Ok(put_new(bytes, shape, entry))
}

/// The same in the bytes of a leaf.
fn put_new(page: &mut [u8; PAGE_SIZE], shape: NodeShape, entry: &[u8]) -> bool
    requires { CanPut shape entry.now page.old }
    ensures { PutsInLeaf shape entry.now page.old page.new result }
{
    let key = &entry[..shape.width as usize];
    let place = LeafView { page, shape }.rank(key);
    if has_key(page, shape, place, key) || (LeafView { page, shape }).is_full() {
        return false;
    }
    put_at(page, shape, place, entry);
    true
}

/// Puts an entry before entry `place` of the bytes of a leaf.
fn put_at(page: &mut [u8; PAGE_SIZE], shape: NodeShape, place: usize, entry: &[u8])
    requires { CanPutAt shape place entry.now page.old }
    ensures { IsLeafOf shape (insert (leaf_entries shape page.old) place entry.now) page.new }
{
    LeafViewMut { page, shape }.insert_at(place, entry);
}

/// Puts an entry into a leaf, where its key is not there.
fn insert_in_leaf<P: Pages>(
    pages: &mut P,
    shape: NodeShape,
    page: u32,
    entry: &[u8],
) -> Result<Grown, Fault>
    requires { CanInsert P.shown shape entry.now pages.old }
    ensures inserted { WhereSound P.shown pages.old pages.new (Inserts (at_page shape 0 page)
        entry.now result) }
    ensures width { IfOk result (HasWholeKey shape) }
    ensures writes { TakesOne P.shown 6 pages.old pages.new result }
{
    let LeafLook { place, found } = seek(pages, shape, page, &entry[..shape.width as usize])?;
    match found {
        Some(found) => Ok(Grown::Present(found)),
        None => {
            let up = add_to_leaf(pages, shape, page, place, entry)?;
            Ok(Grown::Added(up))
        }
    }
}

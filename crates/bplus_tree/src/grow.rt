//! One entry more in a leaf, one separator more in an inner node, one level more above a root.

ghost use Rattle.std.specs.Prelude.{◌≡◌, ◌≢◌, ◌+◌, ◌<◌, ◌≤◌, ◌↔◌, IsTrue, IfOk, length, insert, ◌∷◌, []};
ghost use Rattle.tree_node.specs.Leaf.{IsLeaf, leaf_entries, leaf_room};
ghost use Rattle.tree_node.specs.Inner.{IsInner, separators};
ghost use Rattle.bplus_tree.specs.Changes.{CanInsert, WhereSound, Alters, TakesOne};
ghost use Rattle.bplus_tree.specs.Split.{HasWidth};
ghost use Rattle.bplus_tree.specs.Grow.{CanLead, AddsToLeaf, AddsToInner, IsRootOver, AddsRoot};

use crate::two_parts::write_parts;
use io_state::Fault;
use pages::{PAGE_SIZE, Pages, copy, store};
use tree_node::{
    InnerView, InnerViewMut, LeafView, NodeShape, Separator, is_inner, is_leaf, put_in_inner,
    put_in_leaf, write_inner,
};

/// Puts an entry before entry `place` of a leaf. Where the leaf is full, its upper half goes to a
/// new page, to which the separator leads that is answered.
///
/// Full where no page is available.
pub fn add_to_leaf<P: Pages>(
    pages: &mut P,
    shape: NodeShape,
    page: u32,
    place: usize,
    entry: &[u8],
) -> Result<Option<Separator>, Fault>
    requires { CanInsert P.shown shape entry.now pages.old }
    ensures alters { Alters P.shown TakesOne 4 (AddsToLeaf shape page place entry.now) pages.old
        pages.new result }
    ensures width { IfOk result (HasWidth shape.width) }
{
    let mut lower = [0; PAGE_SIZE];
    copy(pages, page, &mut lower)?;
    if !is_leaf(&lower, shape) || !has_entry_place(&lower, shape, place) {
        return Err(Fault::Damage);
    }
    let mut upper = [0; PAGE_SIZE];
    let key = put_in_leaf(&mut lower, &mut upper, shape, place, entry);
    write_parts(pages, page, &lower, &upper, key)
}

/// A leaf has at least so many entries.
fn has_entry_place(page: &[u8; PAGE_SIZE], shape: NodeShape, place: usize) -> bool
    requires leaf { IsLeaf shape page.now }
    ensures { IsTrue result ↔ (place ≤ length (leaf_entries shape page.now)) }
{
    place <= LeafView { page, shape }.count()
}

/// Puts a separator before separator `place` of an inner node, with the child to its right. Where
/// the node is full, its upper part goes to a new page, to which the separator leads that is
/// answered.
///
/// Full where no page is available.
pub fn add_to_inner<P: Pages>(
    pages: &mut P,
    shape: NodeShape,
    page: u32,
    place: usize,
    separator: &Separator,
) -> Result<Option<Separator>, Fault>
    requires { CanLead P.shown shape separator.now pages.old }
    ensures alters { Alters P.shown TakesOne 4 (AddsToInner shape page place separator.now) pages.old
        pages.new result }
    ensures width { IfOk result (HasWidth shape.width) }
{
    let mut lower = [0; PAGE_SIZE];
    copy(pages, page, &mut lower)?;
    if !is_inner(&lower, shape) || !has_separator_place(&lower, shape, place) {
        return Err(Fault::Damage);
    }
    let mut upper = [0; PAGE_SIZE];
    let key = put_in_inner(&mut lower, &mut upper, shape, place, separator);
    write_parts(pages, page, &lower, &upper, key)
}

/// An inner node has at least so many separators.
fn has_separator_place(page: &[u8; PAGE_SIZE], shape: NodeShape, place: usize) -> bool
    requires inner { IsInner shape page.now }
    ensures { IsTrue result ↔ (place ≤ length (separators shape page.now)) }
{
    place <= InnerView { page, shape }.count()
}

/// Writes an inner node above two nodes to a page that was free, which is answered.
///
/// Full where no page is available.
pub fn add_root<P: Pages>(
    pages: &mut P,
    shape: NodeShape,
    left: u32,
    separator: &Separator,
) -> Result<u32, Fault>
    requires { CanLead P.shown shape separator.now pages.old }
    ensures added { WhereSound P.shown pages.old pages.new (AddsRoot shape left separator.now result) }
    ensures writes { TakesOne P.shown 2 pages.old pages.new result }
{
    let root = pages.take()?;
    let mut bytes = [0; PAGE_SIZE];
    write_over(&mut bytes, shape, left, separator);
    store(pages, root, &bytes)?;
    Ok(root)
}

/// Makes the page an inner node of one separator, between this child and the one to which the
/// separator leads.
fn write_over(page: &mut [u8; PAGE_SIZE], shape: NodeShape, left: u32, separator: &Separator)
    requires width { length separator.now.key.items ≡ shape.width }
    ensures { IsRootOver shape page.new left separator.now }
{
    write_inner(page, shape, left);
    InnerViewMut { page, shape }.insert_at(0, &separator.key, separator.child);
}

//! A tree over the pages of a file.

ghost use Rattle.std.specs.Prelude.{◌≡◌, min, IfErr, IfOk, OnOk};
ghost use Rattle.pages.specs.Each.{Each};
ghost use Rattle.bplus_tree.specs.Fields.{tree_shape};
ghost use Rattle.tree_node.specs.Leaf.{IsLeaf, leaf_room};
ghost use Rattle.tree_node.specs.Fill.{least_entries};
ghost use Rattle.pages.specs.Refused.{RefusesRightly};
ghost use Rattle.page_walks.specs.Spots.{IsLeafThere};
ghost use Rattle.pages.specs.Told.{TellsOfFault};
ghost use Rattle.page_walks.specs.TreeAhead.{AwaitsBelow, TreeUnmarked};
ghost use Rattle.page_walks.specs.TreeFaults.{IsNodeFault, IsTreeFault, MarksBelow, TellsFaultBelow};
ghost use Rattle.page_walks.specs.TreeFaults.{node_place, root_place};
ghost use Rattle.page_walks.specs.TreeWalk.{IsInnerWithin, IsLeafWithin, AddsLeaf, StayThere, WalksBelow};
ghost use Rattle.page_walks.specs.TreeWalk.{WalksTree, WherePageIs};
ghost use Rattle.pages.specs.Source.{KeepsItsPages, OfItsPages};

use crate::leaf::{Leaf, have_entries, push};
use crate::order::{check_keys, check_separators};
use bplus_tree::Tree;
use pages::{Damage, PAGE_SIZE, PageSource, WalkFault, mark};
use std::alloc::Global;
use tree_node::{InnerView, LeafView, NodeShape, is_inner, is_leaf};

/// What the place of a node requires: how many entries or separators it has at least, and between
/// which keys its own lie; and the page that leads there.
#[derive(Clone, Copy)]
struct Limits<'a> {
    parent: u32,
    least: usize,
    low: Option<&'a [u8]>,
    high: Option<&'a [u8]>,
}

/// Page n is a leaf within the limits, whose keys rise.
fn check_leaf(
    page: &[u8; PAGE_SIZE],
    n: u32,
    shape: NodeShape,
    limits: Limits,
) -> Result<(), WalkFault>
    ensures fits { OnOk result (IsLeafWithin shape page.now limits.entry) }
    ensures refused { IfErr result (RefusesRightly (IsLeafWithin shape page.now limits.entry)) }
    ensures told { IfErr result
        (TellsOfFault (IsNodeFault shape page.now (node_place 0 n limits.entry))) }
{
    if !is_leaf(page, shape) {
        return Err(WalkFault::of_page(Damage::Node, n));
    }
    let entries = LeafView { page, shape }.count();
    if entries < limits.least {
        return Err(WalkFault::of_page(Damage::Node, n));
    }
    match check_keys(page, shape, limits.low, limits.high) {
        Ok(()) => Ok(()),
        Err(entry) => Err(WalkFault::of_entry(Damage::Order, n, entry)),
    }
}

/// Page n is an inner node within the limits, whose separators rise.
fn check_inner(
    page: &[u8; PAGE_SIZE],
    n: u32,
    shape: NodeShape,
    limits: Limits,
) -> Result<(), WalkFault>
    ensures fits { OnOk result (IsInnerWithin shape page.now limits.entry) }
    ensures refused { IfErr result (RefusesRightly (IsInnerWithin shape page.now limits.entry)) }
    ensures told { IfErr result
        (TellsOfFault (IsNodeFault shape page.now (node_place 1 n limits.entry))) }
{
    if !is_inner(page, shape) {
        return Err(WalkFault::of_page(Damage::Node, n));
    }
    let separators = InnerView { page, shape }.count();
    if separators < limits.least {
        return Err(WalkFault::of_page(Damage::Node, n));
    }
    match check_separators(page, shape, limits.low, limits.high) {
        Ok(()) => Ok(()),
        Err(separator) => Err(WalkFault::of_entry(Damage::Order, n, separator)),
    }
}

/// How many entries or separators a node must have that is not the root, with so many levels below it.
fn least_in(shape: NodeShape, levels: u8) -> usize
    ensures { result ≡ least_entries shape levels }
{
    if levels == 0 {
        shape.leaf_room() / 2
    } else {
        shape.inner_room() / 2
    }
}

/// How many the root must have, with so many levels below it.
fn least_in_root(levels: u8) -> usize
    ensures { result ≡ min levels 1 }
{
    levels.min(1) as usize
}

/// Adds the leaf of a page that has these bytes, where it has entries.
fn push_leaf(
    bytes: &[u8; PAGE_SIZE],
    shape: NodeShape,
    page: u32,
    leaves: &mut Vec<Leaf>,
) -> Result<(), WalkFault>
    requires leaf { IsLeaf shape bytes.now }
    ensures adds { WherePageIs page bytes.now
        (λ list. OnOk result (AddsLeaf shape list page leaves.old.items leaves.new.items)) }
    ensures there { WherePageIs page bytes.now
        (λ list. OnOk result (StayThere shape list leaves.old.items leaves.new.items)) }
    ensures memory { IfErr result (λ fault. fault ≡ WalkFault.Memory) }
{
    let count = LeafView { page: bytes, shape }.count() as u16;
    if count == 0 {
        return Ok(());
    }
    push(leaves, Leaf { page, count })
}

/// Walks what is below a page, with so many levels: marks its pages, and adds its leaves.
fn walk_below<P: PageSource>(
    pages: &mut P,
    shape: NodeShape,
    page: u32,
    levels: u8,
    limits: Limits,
    reached: &mut [bool],
    leaves: &mut Vec<Leaf>,
) -> Result<(), WalkFault>
    ensures walked { OfItsPages P.has pages.new (WalksBelow shape levels page limits.entry
        (reached.old, leaves.old.items) (reached.new, leaves.new.items) result) }
    ensures there { OfItsPages P.has pages.new
        (λ list. OnOk result (StayThere shape list leaves.old.items leaves.new.items)) }
    ensures marks { OfItsPages P.has pages.new
        (λ list. OnOk result (MarksBelow shape list (node_place levels page limits.entry)
        reached.old reached.new)) }
    ensures refused { OfItsPages P.has pages.new (λ list. IfErr result
        (RefusesRightly (AwaitsBelow shape list levels page limits.entry reached.old))) }
    ensures told { OfItsPages P.has pages.new (λ list. IfErr result
        (TellsFaultBelow shape list (node_place levels page limits.entry) reached.old)) }
    ensures before { KeepsItsPages P.has pages.old pages.new }
{
    let Some(bytes) = pages.page(page) else {
        return Err(WalkFault::of_page(Damage::Node, limits.parent));
    };
    mark(reached, page)?;
    if levels == 0 {
        check_leaf(&bytes, page, shape, limits)?;
        return push_leaf(&bytes, shape, page, leaves);
    }
    check_inner(&bytes, page, shape, limits)?;
    let node = InnerView {
        page: &bytes,
        shape,
    };
    let count = node.count();
    let least = least_in(shape, levels - 1);
    let mut low = limits.low;
    let mut i = 0;
    'children: while i < count {
        let high = Some(node.separator(i));
        let child = Limits {
            parent: page,
            least,
            low,
            high,
        };
        walk_below(
            pages,
            shape,
            node.child(i),
            levels - 1,
            child,
            reached,
            leaves,
        )?;
        low = high;
        i += 1;
    }
    let last = Limits {
        parent: page,
        least,
        low,
        high: limits.high,
    };
    walk_below(
        pages,
        shape,
        node.child(count),
        levels - 1,
        last,
        reached,
        leaves,
    )
}

/// Walks a tree over the pages of a file. Answers its leaves that have entries, in order, and marks
/// its pages as reached. Each level of the tree keeps one page while it is walked.
///
/// Memory; Shared where a page of the tree was reached before; Node, Order or Index where the pages
/// are no such tree. A root that is not there is told at page 0, a child at its parent, and the
/// count at the root. At a fault some of its pages may be marked.
pub fn walk_tree<P: PageSource>(
    alloc: Global,
    pages: &mut P,
    tree: &Tree,
    reached: &mut [bool],
) -> Result<Vec<Leaf>, WalkFault>
    ensures walked { OfItsPages P.has pages.new (λ list. IfOk result
        (λ leaves. WalksTree tree.now list reached.old reached.new leaves.items)) }
    ensures there { OfItsPages P.has pages.new (λ list. IfOk result
        (λ leaves. Each (IsLeafThere (tree_shape tree.now) list) leaves.items)) }
    ensures marks { OfItsPages P.has pages.new
        (λ list. OnOk result (MarksBelow (tree_shape tree.now) list (root_place tree.now) reached.old reached.new)) }
    ensures refused { OfItsPages P.has pages.new
        (λ list. IfErr result (RefusesRightly (TreeUnmarked tree.now list reached.old))) }
    ensures told { OfItsPages P.has pages.new
        (λ list. IfErr result (TellsOfFault (IsTreeFault tree.now list reached.old))) }
    ensures before { KeepsItsPages P.has pages.old pages.new }
{
    let mut leaves = Vec::new(alloc);
    let limits = Limits {
        parent: 0,
        least: least_in_root(tree.levels()),
        low: None,
        high: None,
    };
    walk_below(
        pages,
        tree.shape(),
        tree.root(),
        tree.levels(),
        limits,
        reached,
        &mut leaves,
    )?;
    if !have_entries(&leaves, tree.count()) {
        return Err(WalkFault::of_page(Damage::Index, tree.root()));
    }
    Ok(leaves)
}

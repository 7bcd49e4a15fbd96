//! The levels of a tree, from its root down.

ghost use Rattle.std.specs.Prelude.{◌≡◌, ◌<◌, ◌^◌, ◌++◌, [], ◌∷◌, IfErr, IfOk, OnOk, length, List, ℕ};
ghost use Rattle.pages.specs.Each.{Each};
ghost use Rattle.pages.specs.Refused.{RefusesRightly};
ghost use Rattle.pages.specs.Source.{KeepsItsPages, OfItsPages};
ghost use Rattle.tree_node.specs.Inner.{IsInner, children};
ghost use Rattle.page_walks.specs.Levels.{HasTreeBelow, CountsTree, LevelsHaveAllPages};
ghost use Rattle.page_walks.specs.Rows.{AddsRows, IsInnerIn, IsLeafIn, children_in};
ghost use Rattle.page_walks.specs.Rows.{AreFew, CountsEntries, leaf_level, inner_level};

use crate::level::{Level, TreeCounts};
use crate::node_page::{inner_page, leaf_page};
use pages::{PAGE_SIZE, PageSource, WalkFault};
use std::alloc::Global;
use tree_node::{InnerView, LeafView, NodeShape};

/// Adds a page.
fn push_page(row: &mut Vec<u32>, n: u32) -> Result<(), WalkFault>
    ensures added { OnOk result (row.new.items ≡ row.old.items ++ n ∷ []) }
    ensures memory { IfErr result (λ fault. fault ≡ WalkFault.Memory) }
{
    row.push(n).map_err(|_| WalkFault::Memory)
}

/// Adds the children of an inner node.
fn add_children(
    page: &[u8; PAGE_SIZE],
    shape: NodeShape,
    below: &mut Vec<u32>,
) -> Result<(), WalkFault>
    requires { IsInner shape page.now }
    ensures added { OnOk result (below.new.items ≡ below.old.items ++ children shape page.now) }
    ensures memory { IfErr result (λ fault. fault ≡ WalkFault.Memory) }
{
    let node = InnerView { page, shape };
    for i in 0..node.count() + 1 {
        push_page(below, node.child(i))?;
    }
    Ok(())
}

/// The children of inner nodes, in their order. Node: one of them is none.
fn children_of<P: PageSource>(
    alloc: Global,
    pages: &mut P,
    shape: NodeShape,
    row: &[u32],
) -> Result<Vec<u32>, WalkFault>
    ensures children { OfItsPages P.has pages.new
        (λ list. IfOk result (λ below. below.items ≡ children_in shape list row.now)) }
    ensures refused { OfItsPages P.has pages.new
        (λ list. IfErr result (RefusesRightly (Each (IsInnerIn shape list) row.now))) }
    ensures before { KeepsItsPages P.has pages.old pages.new }
{
    let mut below = Vec::new(alloc);
    for &n in row {
        let page = inner_page(pages, shape, n)?;
        add_children(&page, shape, &mut below)?;
    }
    Ok(below)
}

/// How many entries leaves have, as far as 64 bits can count. Node: one of them is none.
fn count_entries<P: PageSource>(
    pages: &mut P,
    shape: NodeShape,
    leaves: &[u32],
) -> Result<u64, WalkFault>
    ensures counted { OfItsPages P.has pages.new (CountsEntries shape leaves.now result) }
    ensures refused { OfItsPages P.has pages.new
        (λ list. IfErr result (RefusesRightly (Each (IsLeafIn shape list) leaves.now))) }
    ensures before { KeepsItsPages P.has pages.old pages.new }
{
    let mut entries: u64 = 0;
    for &n in leaves {
        let page = leaf_page(pages, shape, n)?;
        let leaf = LeafView { page: &page, shape };
        entries = entries.saturating_add(leaf.count() as u64);
    }
    Ok(entries)
}

/// What a row of inner nodes has, whose children these are: a node has one child more than separators.
fn inner_counts(shape: NodeShape, row: &[u32], below: &[u32]) -> Level
    ensures { (list : List (List ℕ)) → below.now ≡ children_in shape list row.now
        → result ≡ inner_level shape list row.now }
{
    Level {
        pages: row.len() as u64,
        entries: below.len().saturating_sub(row.len()) as u64,
        room: shape.inner_room() as u64,
    }
}

/// What a row of leaves has. Node: one of them is none.
fn leaf_counts<P: PageSource>(
    pages: &mut P,
    shape: NodeShape,
    row: &[u32],
) -> Result<Level, WalkFault>
    ensures counted { OfItsPages P.has pages.new (λ list. AreFew shape list row.now
        → IfOk result (λ level. level ≡ leaf_level shape list row.now)) }
    ensures refused { OfItsPages P.has pages.new
        (λ list. IfErr result (RefusesRightly (Each (IsLeafIn shape list) row.now))) }
    ensures before { KeepsItsPages P.has pages.old pages.new }
{
    Ok(Level {
        pages: row.len() as u64,
        entries: count_entries(pages, shape, row)?,
        room: shape.leaf_room() as u64,
    })
}

/// Adds a level.
fn push_level(levels: &mut Vec<Level>, level: Level) -> Result<(), WalkFault>
    ensures added { OnOk result (levels.new.items ≡ levels.old.items ++ level ∷ []) }
    ensures memory { IfErr result (λ fault. fault ≡ WalkFault.Memory) }
{
    levels.push(level).map_err(|_| WalkFault::Memory)
}

/// Adds what each row has from this one down, which has so many levels below it, and answers the leaves.
fn add_rows<P: PageSource>(
    alloc: Global,
    pages: &mut P,
    shape: NodeShape,
    height: u8,
    row: Vec<u32>,
    levels: &mut Vec<Level>,
) -> Result<Vec<u32>, WalkFault>
    ensures added { OfItsPages P.has pages.new
        (λ list. AddsRows shape list height row.items levels.old.items levels.new.items result) }
    ensures before { KeepsItsPages P.has pages.old pages.new }
{
    if height == 0 {
        let level = leaf_counts(pages, shape, &row)?;
        push_level(levels, level)?;
        return Ok(row);
    }
    let below = children_of(alloc, pages, shape, &row)?;
    push_level(levels, inner_counts(shape, &row, &below))?;
    add_rows(alloc, pages, shape, height - 1, below, levels)
}

/// Adds what each row has from that of the root down.
fn add_tree<P: PageSource>(
    alloc: Global,
    pages: &mut P,
    shape: NodeShape,
    height: u8,
    root: u32,
    levels: &mut Vec<Level>,
) -> Result<Vec<u32>, WalkFault>
    ensures added { OfItsPages P.has pages.new
        (λ list. AddsRows shape list height (root ∷ []) levels.old.items levels.new.items result) }
    ensures before { KeepsItsPages P.has pages.old pages.new }
{
    let mut row = Vec::new(alloc);
    push_page(&mut row, root)?;
    add_rows(alloc, pages, shape, height, row, levels)
}

/// Counts the levels of a tree that stands below the page `root`, with so many levels above its
/// leaves, over the pages of a file.
///
/// Each page of the tree is asked for once. Memory: four bytes are wanted for each page of two levels.
/// Node: no such tree stands there.
pub fn count_tree<P: PageSource>(
    alloc: Global,
    pages: &mut P,
    shape: NodeShape,
    height: u8,
    root: u32,
) -> Result<TreeCounts, WalkFault>
    ensures counted { OfItsPages P.has pages.new (λ list. CountsTree shape list height root result) }
    ensures refused { OfItsPages P.has pages.new
        (λ list. IfErr result (RefusesRightly (HasTreeBelow shape list height root))) }
    ensures before { KeepsItsPages P.has pages.old pages.new }
{
    let mut levels = Vec::new(alloc);
    let leaves = add_tree(alloc, pages, shape, height, root, &mut levels)?;
    Ok(TreeCounts { levels, leaves })
}

/// The law of levels: they have all pages of the tree. It does nothing.
pub fn level_laws()
    ensures { LevelsHaveAllPages }
{}

//! The end of a tree that is being built: its last leaves, and the levels above.

ghost use Rattle.std.specs.Prelude.{◌≡◌, ◌≤◌, ◌+◌, [], IfOk, OnOk, length};
ghost use Rattle.tree_node.specs.Leaf.{IsLeaf};
ghost use Rattle.bplus_tree.specs.Changes.{CanWrite, WhereSound};
ghost use Rattle.bplus_tree.specs.Fields.{tree_shape};
ghost use Rattle.tree_building.specs.Level.{HaveWidth};
ghost use Rattle.tree_building.specs.Fresh.{TakesExactly, TakesNewPages, WhereCounted};
ghost use Rattle.tree_building.specs.Pending.{AreUneven};
ghost use Rattle.tree_building.specs.Building.{IsLargeLeaf, StandsOver, StandsOverLeaf};
ghost use Rattle.tree_building.specs.Building.{StandsOverTwo, WritesLeaf, WritesTwo, two_leaves};

use crate::fresh_page::put_page;
use crate::leaves::add_leaf;
use crate::pending::even_out;
use crate::rising::add_root;
use bplus_tree::Tree;
use io_state::Fault;
use pages::{PAGE_SIZE, Pages};
use std::alloc::Global;
use tree_node::{NodeShape, Separator};

/// Writes a leaf behind those before.
pub fn write_one<P: Pages>(
    pages: &mut P,
    shape: NodeShape,
    leaves: &mut Vec<Separator>,
    leaf: &[u8; PAGE_SIZE],
) -> Result<(), Fault>
    requires pages { CanWrite P.shown pages.old }
    requires leaf { IsLargeLeaf shape leaf.now }
    ensures writes { WhereSound P.shown pages.old pages.new (WritesLeaf shape leaves.old.items
        leaves.new.items leaf.now result) }
    ensures one { OnOk result (length leaves.new.items ≡ length leaves.old.items + 1) }
    ensures width { OnOk result (HaveWidth shape leaves.old.items → HaveWidth shape leaves.new.items) }
    ensures takes { TakesNewPages P.shown pages.old pages.new result }
    ensures taken { TakesExactly P.shown 1 pages.old pages.new result }
{
    add_leaf(pages, shape, leaf, leaves)
}

/// Writes the last two leaves, which share what they have.
pub fn write_two<P: Pages>(
    pages: &mut P,
    shape: NodeShape,
    leaves: &mut Vec<Separator>,
    lower: &mut [u8; PAGE_SIZE],
    upper: &mut [u8; PAGE_SIZE],
) -> Result<(), Fault>
    requires pages { CanWrite P.shown pages.old }
    requires leaves { AreUneven shape lower.old upper.old }
    ensures writes { WhereSound P.shown pages.old pages.new (WritesTwo shape leaves.old
        leaves.new (two_leaves lower.old upper.old lower.new upper.new) result) }
    ensures two { OnOk result (length leaves.new.items ≡ length leaves.old.items + 2) }
    ensures width { OnOk result (HaveWidth shape leaves.old.items → HaveWidth shape leaves.new.items) }
    ensures takes { TakesNewPages P.shown pages.old pages.new result }
    ensures taken { TakesExactly P.shown 2 pages.old pages.new result }
{
    even_out(lower, upper, shape);
    write_one(pages, shape, leaves, lower)?;
    write_one(pages, shape, leaves, upper)
}

/// Writes the levels above the leaves. The tree has so many entries.
pub fn stand_over<P: Pages>(
    alloc: Global,
    pages: &mut P,
    shape: NodeShape,
    leaves: &[Separator],
    count: u64,
) -> Result<Tree, Fault>
    requires pages { CanWrite P.shown pages.old }
    requires several { 2 ≤ length leaves.now }
    requires width { HaveWidth shape leaves.now }
    ensures stands { WhereCounted P.shown pages.old pages.new (StandsOver shape leaves.now [] []
        count result) }
    ensures shape { IfOk result (λ tree. tree_shape tree ≡ shape) }
    ensures takes { TakesNewPages P.shown pages.old pages.new result }
{
    let base = add_root(alloc, pages, shape, 0, leaves)?;
    Ok(Tree::stored(shape, base.root, base.levels, count))
}

/// Writes a leaf that is the whole tree, which has so many entries.
pub fn stand_alone<P: Pages>(
    pages: &mut P,
    shape: NodeShape,
    leaf: &[u8; PAGE_SIZE],
    count: u64,
) -> Result<Tree, Fault>
    requires pages { CanWrite P.shown pages.old }
    requires leaf { IsLeaf shape leaf.now }
    ensures stands { WhereCounted P.shown pages.old pages.new (StandsOverLeaf shape [] leaf.now
        count result) }
    ensures shape { IfOk result (λ tree. tree_shape tree ≡ shape) }
    ensures takes { TakesNewPages P.shown pages.old pages.new result }
{
    let root = put_page(pages, leaf)?;
    Ok(Tree::stored(shape, root, 0, count))
}

/// Writes the last two leaves, and the levels above all leaves. The tree has so many entries.
pub fn end_with_two<P: Pages>(
    alloc: Global,
    pages: &mut P,
    shape: NodeShape,
    leaves: &mut Vec<Separator>,
    lower: &mut [u8; PAGE_SIZE],
    upper: &mut [u8; PAGE_SIZE],
    count: u64,
) -> Result<Tree, Fault>
    requires pages { CanWrite P.shown pages.old }
    requires leaves { AreUneven shape lower.old upper.old }
    requires width { HaveWidth shape leaves.old.items }
    ensures stands { WhereCounted P.shown pages.old pages.new (StandsOverTwo shape leaves.old
        (two_leaves lower.old upper.old lower.new upper.new) count result) }
    ensures shape { IfOk result (λ tree. tree_shape tree ≡ shape) }
    ensures takes { TakesNewPages P.shown pages.old pages.new result }
{
    write_two(pages, shape, leaves, lower, upper)?;
    stand_over(alloc, pages, shape, leaves, count)
}

/// Writes the last leaf, which has others before it, and the levels above all leaves. The tree has
/// so many entries.
pub fn end_with_one<P: Pages>(
    alloc: Global,
    pages: &mut P,
    shape: NodeShape,
    leaves: &mut Vec<Separator>,
    leaf: &[u8; PAGE_SIZE],
    count: u64,
) -> Result<Tree, Fault>
    requires pages { CanWrite P.shown pages.old }
    requires leaf { IsLargeLeaf shape leaf.now }
    requires several { 1 ≤ length leaves.old.items }
    requires width { HaveWidth shape leaves.old.items }
    ensures stands { WhereCounted P.shown pages.old pages.new (StandsOverLeaf shape leaves.old.items
        leaf.now count result) }
    ensures shape { IfOk result (λ tree. tree_shape tree ≡ shape) }
    ensures takes { TakesNewPages P.shown pages.old pages.new result }
{
    write_one(pages, shape, leaves, leaf)?;
    stand_over(alloc, pages, shape, leaves, count)
}

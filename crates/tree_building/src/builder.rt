//! A tree that is built from entries whose keys rise.

ghost use Rattle.std.specs.Prelude.{◌≡◌, ◌≤◌, ◌<◌, ◌+◌, [], IfOk, OnOk, length};
ghost use Rattle.tree_node.specs.Leaf.{leaf_entries, leaf_room};
ghost use Rattle.pages.specs.PageMap.{PageMap};
ghost use Rattle.bplus_tree.specs.Changes.{CanWrite, CanInsert, WhereSound};
ghost use Rattle.bplus_tree.specs.Fields.{tree_shape};
ghost use Rattle.tree_building.specs.Level.{AreWide};
ghost use Rattle.tree_building.specs.Fresh.{TakesNewPages, TakesForEntry, TakesForLeaves, WhereCounted};
ghost use Rattle.tree_building.specs.Pending.{ArePending};

use crate::ending::{end_with_one, end_with_two, stand_alone};
use crate::leaves::add_leaf;
use crate::pending::push_pending;
use bplus_tree::Tree;
use io_state::Fault;
use pages::{PAGE_SIZE, Pages};
use std::alloc::Global;
use tree_node::{LeafView, NodeShape, Separator, write_leaf};

/// A tree that is being built: its leaves so far, by their first keys and their pages, but for the
/// last two, which are not written yet.
#[derive(Drop)]
pub struct TreeBuilder {
    pub(crate) shape: NodeShape,
    pub(crate) leaves: Vec<Separator>,
    pub(crate) lower: [u8; PAGE_SIZE],
    pub(crate) upper: [u8; PAGE_SIZE],
    pub(crate) count: u64,
    ghost pending: { ArePending shape lower upper },
    ghost wide: { AreWide shape leaves.items },
    ghost behind: { 1 ≤ length leaves.items → leaf_room shape ≤ length (leaf_entries shape lower) },
}

impl TreeBuilder {
    ghost use Rattle.tree_building.specs.Building.{IsBuilding, MakesLeafRoom, Pushes, FinishesTree};
    ghost use Rattle.tree_building.specs.Building.{builder_shape, entry_count, leaves_written};

    /// A tree without entries, of which no page is taken yet.
    pub fn new(alloc: Global, shape: NodeShape) -> TreeBuilder
        ensures shape { builder_shape result ≡ shape }
        ensures begun { (pages : PageMap) → IsBuilding result pages [] [] }
    {
        let mut lower = [0; PAGE_SIZE];
        write_leaf(&mut lower, shape);
        TreeBuilder {
            shape,
            leaves: Vec::new(alloc),
            lower,
            upper: lower,
            count: 0,
        }
    }

    /// Puts an entry behind all others. After a fault nothing is known of the tree.
    ///
    /// Full where no page is available. Memory also where there are 2^64 - 1 entries.
    pub fn push<P: Pages>(&mut self, pages: &mut P, entry: &[u8]) -> Result<(), Fault>
        requires { CanInsert P.shown (builder_shape self.old) entry.now pages.old }
        ensures pushes { WhereSound P.shown pages.old pages.new (Pushes self.old self.new entry.now result) }
        ensures shape { builder_shape self.new ≡ builder_shape self.old }
        ensures takes { TakesForEntry P.shown (entry_count self.old) pages.old pages.new result }
        ensures taken { TakesForLeaves P.shown (leaves_written self.old) (leaves_written self.new)
            pages.old pages.new result }
    {
        let Some(count) = self.count.checked_add(1) else {
            return Err(Fault::Memory);
        };
        self.make_room(pages)?;
        push_pending(&mut self.lower, &mut self.upper, self.shape, entry);
        self.count = count;
        Ok(())
    }

    /// Writes what is not written yet, and the levels above the leaves. A fault may leave pages taken.
    ///
    /// Full where no page is available, and Memory.
    pub fn finish<P: Pages>(self, alloc: Global, pages: &mut P) -> Result<Tree, Fault>
        requires { CanWrite P.shown pages.old }
        ensures finishes { WhereCounted P.shown pages.old pages.new (FinishesTree self result) }
        ensures shape { IfOk result (λ tree. tree_shape tree ≡ builder_shape self) }
        ensures takes { TakesNewPages P.shown pages.old pages.new result }
    {
        let TreeBuilder {
            shape,
            mut leaves,
            mut lower,
            mut upper,
            count,
        } = self;
        if (LeafView {
            page: &upper,
            shape,
        })
        .count()
            > 0
        {
            end_with_two(
                alloc,
                pages,
                shape,
                &mut leaves,
                &mut lower,
                &mut upper,
                count,
            )
        } else if leaves.len() > 0 {
            end_with_one(alloc, pages, shape, &mut leaves, &lower, count)
        } else {
            stand_alone(pages, shape, &lower, count)
        }
    }

    /// Writes the first of the leaves that are not written yet, where both are full.
    fn make_room<P: Pages>(&mut self, pages: &mut P) -> Result<(), Fault>
        requires { CanWrite P.shown pages.old }
        ensures makes { WhereSound P.shown pages.old pages.new (MakesLeafRoom self.old self.new result) }
        ensures room { OnOk result (length (leaf_entries self.new.shape self.new.upper)
            < leaf_room self.new.shape) }
        ensures same { (self.new.shape ≡ self.old.shape) × (self.new.count ≡ self.old.count) }
        ensures takes { TakesNewPages P.shown pages.old pages.new result }
        ensures taken { TakesForLeaves P.shown (leaves_written self.old) (leaves_written self.new)
            pages.old pages.new result }
    {
        let upper = LeafView {
            page: &self.upper,
            shape: self.shape,
        };
        if upper.is_full() {
            return self.write_lower(pages);
        }
        Ok(())
    }

    /// Writes the first of two full leaves.
    fn write_lower<P: Pages>(&mut self, pages: &mut P) -> Result<(), Fault>
        requires pages { CanWrite P.shown pages.old }
        requires full { leaf_room self.old.shape ≤ length (leaf_entries self.old.shape self.old.upper) }
        ensures makes { WhereSound P.shown pages.old pages.new (MakesLeafRoom self.old self.new result) }
        ensures room { OnOk result (length (leaf_entries self.new.shape self.new.upper)
            < leaf_room self.new.shape) }
        ensures same { (self.new.shape ≡ self.old.shape) × (self.new.count ≡ self.old.count) }
        ensures takes { TakesNewPages P.shown pages.old pages.new result }
        ensures taken { TakesForLeaves P.shown (leaves_written self.old) (leaves_written self.new)
            pages.old pages.new result }
    {
        add_leaf(pages, self.shape, &self.lower, &mut self.leaves)?;
        self.lower = self.upper;
        write_leaf(&mut self.upper, self.shape);
        Ok(())
    }
}

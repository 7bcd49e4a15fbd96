//! An index of the prime key that is built from entries whose values rise.

ghost use Rattle.std.specs.Prelude.{◌≡◌, ◌+◌, ◌≤◌};
ghost use Rattle.tree_building.specs.Building.{builder_shape};

use crate::builder::TreeBuilder;
use io_state::Fault;
use key_index::{PrimeEntry, PrimeIndex};
use pages::Pages;
use record_heap::Place;
use std::alloc::Global;
use tree_node::NodeShape;

/// An index of the prime key that is being built.
#[derive(Drop)]
pub struct PrimeBuilder {
    /// The length of a value, in bytes.
    pub width: u16,
    pub(crate) tree: TreeBuilder,
    ghost narrow: { width ≤ 250 },
    ghost keys: { (builder_shape tree).width ≡ width },
    ghost entries: { (builder_shape tree).entry ≡ width + 6 },
    ghost number: { (builder_shape tree).key ≡ 0 },
}

impl PrimeBuilder {
    ghost use Rattle.std.specs.Prelude.{[], IfOk};
    ghost use Rattle.pages.specs.PageMap.{PageMap};
    ghost use Rattle.bplus_tree.specs.Changes.{CanWrite, WhereSound};
    ghost use Rattle.key_index.specs.Stored.{IsWidth, entry_at};
    ghost use Rattle.tree_building.specs.Fresh.{TakesNewPages, TakesForEntry, TakesForLeaves};
    ghost use Rattle.tree_building.specs.Fresh.{WhereCounted};
    ghost use Rattle.tree_building.specs.IndexBuilding.{IsBuildingPrime, CanPushPrime, PushesPrime};
    ghost use Rattle.tree_building.specs.IndexBuilding.{FinishesPrime, prime_builder_count};
    ghost use Rattle.tree_building.specs.IndexBuilding.{prime_leaves_written};

    /// An index without entries for values of `width` bytes, of which no page is taken yet.
    pub fn new(alloc: Global, width: u16) -> PrimeBuilder
        requires { IsWidth width }
        ensures width { result.width ≡ width }
        ensures begun { (pages : PageMap) → IsBuildingPrime result pages [] [] }
    {
        let shape = NodeShape {
            key: 0,
            width,
            entry: width + 6,
        };
        PrimeBuilder {
            width,
            tree: TreeBuilder::new(alloc, shape),
        }
    }

    /// Puts the entry of a value behind all others. After a fault nothing is known of the index.
    ///
    /// Device; Full where no page is available; Memory, also where there are 2^64 - 1 entries.
    pub fn push<P: Pages>(&mut self, pages: &mut P, value: &[u8], place: Place) -> Result<(), Fault>
        requires { CanPushPrime P.shown self.old value.now pages.old }
        ensures pushes { WhereSound P.shown pages.old pages.new (PushesPrime self.old self.new
            (entry_at value.now place) result) }
        ensures width { self.new.width ≡ self.old.width }
        ensures takes { TakesForEntry P.shown (prime_builder_count self.old) pages.old pages.new
            result }
        ensures taken { TakesForLeaves P.shown (prime_leaves_written self.old)
            (prime_leaves_written self.new) pages.old pages.new result }
    {
        let entry = PrimeEntry::bytes(value, place);
        self.tree.push(pages, entry.as_slice())
    }

    /// Writes what is not written yet, and answers the index. A fault may leave pages taken.
    ///
    /// Device; Full where no page is available; Memory.
    pub fn finish<P: Pages>(self, alloc: Global, pages: &mut P) -> Result<PrimeIndex, Fault>
        requires { CanWrite P.shown pages.old }
        ensures finishes { WhereCounted P.shown pages.old pages.new (FinishesPrime self result) }
        ensures width { IfOk result (λ index. index.width ≡ self.width) }
        ensures takes { TakesNewPages P.shown pages.old pages.new result }
    {
        let PrimeBuilder { width, tree } = self;
        let tree = tree.finish(alloc, pages)?;
        Ok(PrimeIndex { width, tree })
    }
}

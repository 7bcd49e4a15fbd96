//! An index of an alternate key that is built from entries whose ranks rise.

ghost use Rattle.std.specs.Prelude.{◌≡◌, ◌+◌, ◌≤◌};
ghost use Rattle.tree_building.specs.Building.{builder_shape};

use crate::builder::TreeBuilder;
use io_state::Fault;
use key_index::{AltEntry, AltIndex};
use pages::Pages;
use std::alloc::Global;
use tree_node::NodeShape;

/// An index of an alternate key that is being built.
#[derive(Drop)]
pub struct AltBuilder {
    /// The length of a value, and that of a prime value, in bytes.
    pub width: u16,
    pub prime: u16,
    pub(crate) tree: TreeBuilder,
    ghost some: { 1 ≤ width },
    ghost wide: { width ≤ 250 },
    ghost narrow: { prime ≤ 250 },
    ghost keys: { (builder_shape tree).width ≡ width + 8 },
    ghost entries: { (builder_shape tree).entry ≡ width + 8 + prime },
}

impl AltBuilder {
    ghost use Rattle.std.specs.Prelude.{[], IfOk};
    ghost use Rattle.pages.specs.PageMap.{PageMap};
    ghost use Rattle.key_index.specs.Stored.{entry_to};
    ghost use Rattle.bplus_tree.specs.Changes.{CanWrite, WhereSound};
    ghost use Rattle.tree_building.specs.Fresh.{TakesNewPages, TakesForEntry, TakesForLeaves, WhereCounted};
    ghost use Rattle.tree_building.specs.IndexBuilding.{CanBuildAlt, IsAltBuilderOf, IsBuiltFrom, KeepsAlt};
    ghost use Rattle.tree_building.specs.IndexBuilding.{IsBuildingAlt, CanPushAlt, PushesAlt, FinishesAlt};
    ghost use Rattle.tree_building.specs.IndexBuilding.{alt_builder_count, alt_leaves_written};

    /// An index without entries for values of `width` bytes and prime values of `prime` bytes, of
    /// which no page is taken yet. `key` is the number of the key.
    pub fn new(alloc: Global, key: u8, width: u16, prime: u16) -> AltBuilder
        requires { CanBuildAlt width prime }
        ensures of { IsAltBuilderOf key width prime result }
        ensures begun { (pages : PageMap) → IsBuildingAlt result pages [] [] }
    {
        let shape = NodeShape {
            key,
            width: width + 8,
            entry: width + 8 + prime,
        };
        AltBuilder {
            width,
            prime,
            tree: TreeBuilder::new(alloc, shape),
        }
    }

    /// Puts an entry behind all others. After a fault nothing is known of the index.
    ///
    /// Device; Full where no page is available; Memory, also where there are 2^64 - 1 entries.
    pub fn push<P: Pages>(&mut self, pages: &mut P, entry: &AltEntry) -> Result<(), Fault>
        requires { CanPushAlt P.shown self.old entry.now pages.old }
        ensures pushes { WhereSound P.shown pages.old pages.new (PushesAlt self.old self.new entry.now
            result) }
        ensures keeps { KeepsAlt self.old self.new }
        ensures takes { TakesForEntry P.shown (alt_builder_count self.old) pages.old pages.new result }
        ensures taken { TakesForLeaves P.shown (alt_leaves_written self.old)
            (alt_leaves_written self.new) pages.old pages.new result }
    {
        self.push_parts(pages, &entry.value, entry.stamp, &entry.prime)
    }

    /// Writes what is not written yet, and answers the index. A fault may leave pages taken.
    ///
    /// Device; Full where no page is available; Memory.
    pub fn finish<P: Pages>(self, alloc: Global, pages: &mut P) -> Result<AltIndex, Fault>
        requires { CanWrite P.shown pages.old }
        ensures finishes { WhereCounted P.shown pages.old pages.new (FinishesAlt self result) }
        ensures of { IfOk result (IsBuiltFrom self) }
        ensures takes { TakesNewPages P.shown pages.old pages.new result }
    {
        let AltBuilder { width, prime, tree } = self;
        let tree = tree.finish(alloc, pages)?;
        Ok(AltIndex { width, prime, tree })
    }

    /// Puts the entry of a value, a stamp and a prime value behind all others.
    fn push_parts<P: Pages>(
        &mut self,
        pages: &mut P,
        value: &[u8],
        stamp: u64,
        prime: &[u8],
    ) -> Result<(), Fault>
        requires { CanPushAlt P.shown self.old (entry_to value.now stamp prime.now) pages.old }
        ensures pushes { WhereSound P.shown pages.old pages.new (PushesAlt self.old self.new
            (entry_to value.now stamp prime.now) result) }
        ensures keeps { KeepsAlt self.old self.new }
        ensures takes { TakesForEntry P.shown (alt_builder_count self.old) pages.old pages.new result }
        ensures taken { TakesForLeaves P.shown (alt_leaves_written self.old)
            (alt_leaves_written self.new) pages.old pages.new result }
    {
        let bytes = AltEntry::bytes(value, stamp, prime);
        self.tree.push(pages, bytes.as_slice())
    }
}

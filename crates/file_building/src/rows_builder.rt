//! The heap and the prime index of a file, built from rows in the order of the prime key.

ghost use Rattle.std.specs.Prelude.{◌≡◌, IfOk};
ghost use Rattle.bplus_tree.specs.Changes.{CanWrite};
ghost use Rattle.key_index.specs.Stored.{IsWidth};
ghost use Rattle.file_building.specs.Steps.{KeepsWhileBuilding};
ghost use Rattle.file_building.specs.Rows.{IsNewRowsBuilder, CanPutRowBehind, TakesRowBehind, EndsRowsBuilt};
ghost use Rattle.file_building.specs.Rows.{width_built};

use io_state::Fault;
use key_index::PrimeIndex;
use pages::Pages;
use record_heap::{Heap, HeapBuilder, SlotShape};
use std::alloc::Global;
use tree_building::PrimeBuilder;

/// The heap and the prime index of a file that is being built, side by side.
#[derive(Drop)]
pub struct RowsBuilder {
    pub(crate) heap: HeapBuilder,
    pub(crate) prime: PrimeBuilder,
}

/// The heap and the prime index of a file.
#[derive(Clone, Copy)]
pub struct RowParts {
    pub heap: Heap,
    pub prime: PrimeIndex,
}

impl RowsBuilder {
    /// No rows yet, and no page.
    pub fn new(alloc: Global, shape: SlotShape, width: u16) -> RowsBuilder
        requires { IsWidth width }
        ensures { IsNewRowsBuilder shape width result }
    {
        RowsBuilder {
            heap: HeapBuilder::new(shape),
            prime: PrimeBuilder::new(alloc, width),
        }
    }

    /// Puts the stamps and the record of a row behind all others. Its value of the prime key leads
    /// to it. After a fault nothing is known of the rows.
    ///
    /// Device; Full where no page is left; Memory.
    pub fn push<P: Pages>(
        &mut self,
        pages: &mut P,
        value: &[u8],
        stamps: &[u8],
        bytes: &[u8],
    ) -> Result<(), Fault>
        requires { CanPutRowBehind P.shown self.old value.now stamps.now bytes.now pages.old }
        ensures pushes { TakesRowBehind P.shown pages.old pages.new self.old self.new value.now
            stamps.now bytes.now result }
        ensures keeps { KeepsWhileBuilding P.shown pages.old pages.new result }
    {
        let place = self.heap.push(pages, stamps, bytes)?;
        self.prime.push(pages, value, place)
    }

    /// Writes what is not written yet, and answers the heap and the index.
    ///
    /// Device; Full where no page is left; Memory. A fault may leave pages taken.
    pub fn finish<P: Pages>(self, alloc: Global, pages: &mut P) -> Result<RowParts, Fault>
        requires { CanWrite P.shown pages.old }
        ensures finishes { EndsRowsBuilt P.shown pages.old pages.new self result }
        ensures width { IfOk result (λ parts. parts.prime.width ≡ width_built self) }
        ensures keeps { KeepsWhileBuilding P.shown pages.old pages.new result }
    {
        let RowsBuilder { heap, prime } = self;
        let heap = heap.finish(pages)?;
        let prime = prime.finish(alloc, pages)?;
        Ok(RowParts { heap, prime })
    }
}

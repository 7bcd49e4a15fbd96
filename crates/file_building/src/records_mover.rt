//! A heap that is built from the records of another, and where each of them lies now.

ghost use Rattle.std.specs.Prelude.{◌++◌};
ghost use Rattle.file_building.specs.Steps.{KeepsWhileBuilding};
ghost use Rattle.file_building.specs.Moving.{CanMove, MovesRecord, FinishesMove, IsNewMover};
ghost use Rattle.open_file.specs.Lent.{LendsToChange};

use crate::new_places::NewPlaces;
use io_state::Fault;
use pages::Pages;
use record_heap::{Heap, HeapBuilder, Place, SlotShape};
use std::alloc::Global;

/// A heap that is being built, and the places that its records have, by those that they had.
#[derive(Drop)]
pub struct RecordsMover {
    pub(crate) heap: HeapBuilder,
    pub(crate) places: NewPlaces,
}

/// A heap, and the places that its records have, by those that they had.
#[derive(Drop)]
pub struct MovedRecords {
    pub heap: Heap,
    pub places: NewPlaces,
}

impl RecordsMover {
    /// No records yet, and no page.
    pub fn new(alloc: Global, shape: SlotShape) -> RecordsMover
        ensures { IsNewMover shape result }
    {
        RecordsMover {
            heap: HeapBuilder::new(shape),
            places: NewPlaces::new(alloc, shape.room()),
        }
    }

    /// Puts the stamps and the record that were at a place behind all others. After a fault nothing is
    /// known of the records.
    ///
    /// Device; Full where no page is left; Memory; Damage where a page of the old heap has no such
    /// slot.
    pub fn push<P: Pages>(
        &mut self,
        pages: &mut P,
        old: Place,
        stamps: &[u8],
        bytes: &[u8],
    ) -> Result<(), Fault>
        requires { CanMove P.shown self.old stamps.now bytes.now pages.old }
        ensures moves { MovesRecord P.shown pages.old pages.new self.old self.new old
            (stamps.now ++ bytes.now) result }
        ensures keeps { KeepsWhileBuilding P.shown pages.old pages.new result }
    {
        let place = self.heap.push(pages, stamps, bytes)?;
        self.places.put(old, place)
    }

    /// Writes what is not written yet, and answers the heap and the places.
    ///
    /// Device.
    pub fn finish<P: Pages>(self, pages: &mut P) -> Result<MovedRecords, Fault>
        requires { LendsToChange P.shown pages.old }
        ensures finishes { FinishesMove P.shown pages.old pages.new self result }
        ensures keeps { KeepsWhileBuilding P.shown pages.old pages.new result }
    {
        let RecordsMover { heap, places } = self;
        let heap = heap.finish(pages)?;
        Ok(MovedRecords { heap, places })
    }
}

//! The shelf.
ghost use Rattle.std.specs.Prelude.{◌≡◌, ◌+◌, ◌<◌, ◌-◌, ◌^◌, min, [], true, length, map, get_or, string_bytes, IsErrOf};
ghost use Rattle.std.proofs.Props.{props};
ghost use Rattle.io_state.specs.declared.fault.Fault.TheVariants.{Device};
ghost use Rattle.page_store.specs.ShelfState.{FaultHasCause};
ghost use Rattle.folder_shelf.specs.Reading.{AreReading};
ghost use Rattle.folder_shelf.specs.Reads.{are_reads};
ghost use Rattle.folder_shelf.specs.Shelf.{is_empty_name, shelf_after};

use crate::disk::Disk;
use crate::system::System;
use io_state::{Fault, FileName};
use page_store::Shelf;
use std::alloc::Global;
use std::marker::PhantomData;

/// The file of a path, as a shelf on which it has the empty name. No call writes: one that would
/// answers `Fault::Device`.
#[derive(Drop)]
pub struct PathShelf<S: System + Drop, D: Disk> {
    system: S,
    alloc: Global,
    path: String,
    units: Vec<FileName>,
    faults: u64,
    disk: PhantomData<D>,
    ghost reading: { are_reads (S.state system).calls ≡ true } by { Prim.hlevel props },
}

impl<S: System + Drop, D: Disk> PathShelf<S, D> {
    /// The shelf of the file of this path, with no unit. It has the system, whose record is empty,
    /// until it gives it back.
    pub fn new(alloc: Global, system: S, path: String) -> PathShelf<S, D>
        requires unasked { (S.state system).calls ≡ [] }
        ensures shows { (⟦<PathShelf<S, D> as Shelf>⟧).state result
            ≡ shelf_after D.Disk.unseen.first (string_bytes path) [] [] }
    {
        PathShelf {
            system,
            alloc,
            path,
            units: Vec::new(alloc),
            faults: 0,
            disk: PhantomData,
        }
    }

    #[tactic(auto, using(crate::proofs::FileLemmas::are_reading))]
    /// The system, whose record has the calls of this shelf, which only read.
    pub fn into_system(self) -> S
        ensures same { result ≡ self.system }
        ensures reading { AreReading (S.state result).calls }
    {
        self.system
    }
}

// Whether the name of a unit is the empty one.
fn is_unnamed(units: &[FileName], unit: usize) -> bool
    requires { unit < length units.now }
    ensures { result ≡ is_empty_name (get_or (map (λ name. name.bytes) units.now) unit []) }
{
    units[unit].is_empty()
}

// Counts a call that failed, or that would write.
fn fail<T>(faults: &mut u64) -> Result<T, Fault>
    ensures device { IsErrOf result Device }
    ensures counted { faults.new ≡ min (faults.old + 1) (2 ^ 64 - 1) }
    ensures cause { FaultHasCause faults.old faults.new result }
{
    *faults = faults.saturating_add(1);
    Err(Fault::Device)
}

impl<S: System + Drop, D: Disk> Shelf for PathShelf<S, D> {
    ghost use Rattle.std.specs.Prelude.{map, string_bytes};
    ghost use Rattle.folder_shelf.specs.Shelf.{shelf_after};
    ghost use Rattle.folder_shelf.specs.ShelfLaws.{image_by_name};

    ghost state = { λ shelf. shelf_after D.Disk.unseen.first (string_bytes shelf.path)
        (map (λ name. name.bytes) shelf.units.items) (S.state shelf.system).calls };

    ghost fault_count = { λ shelf. shelf.faults };

    ghost reads_an_image = { λ shelf name _. image_by_name (D.Disk.unseen.first (string_bytes shelf.path))
        (D.Disk.sound (string_bytes shelf.path)) name };

    fn faults(&self) -> u64 {
        self.faults
    }

    fn exists(&mut self, unit: usize) -> Result<bool, Fault> {
        if !is_unnamed(&self.units, unit) {
            return Ok(false);
        }
        match self.system.measure_shared(self.path.as_str()) {
            Some(_) => Ok(true),
            None => fail(&mut self.faults),
        }
    }

    fn create(&mut self, _unit: usize) -> Result<(), Fault> {
        fail(&mut self.faults)
    }

    fn size(&mut self, _unit: usize) -> Result<u64, Fault> {
        match self.system.measure_shared(self.path.as_str()) {
            Some(size) => Ok(size),
            None => fail(&mut self.faults),
        }
    }

    fn read_at(&mut self, _unit: usize, at: u64, bytes: &mut [u8]) -> Result<(), Fault> {
        if self.system.read_shared(self.path.as_str(), at, bytes) {
            Ok(())
        } else {
            fail(&mut self.faults)
        }
    }

    fn write_at(&mut self, _unit: usize, _at: u64, _bytes: &[u8]) -> Result<(), Fault> {
        fail(&mut self.faults)
    }

    fn sync(&mut self, _unit: usize) -> Result<(), Fault> {
        fail(&mut self.faults)
    }

    fn attach(&mut self, units: &[FileName]) -> Result<(), Fault> {
        self.units = units.to_vec(self.alloc).map_err(|_| Fault::Memory)?;
        Ok(())
    }
}

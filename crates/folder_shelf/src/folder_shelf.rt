//! A shelf over a folder of a system: a unit is the file of that name in the folder.
ghost use Rattle.std.specs.Prelude.{◌≡◌, ◌+◌, ◌-◌, ◌^◌, min, [], string_bytes, IsErrOf};
ghost use Rattle.std.proofs.Props.{props};
ghost use Rattle.io_state.specs.declared.fault.Fault.TheVariants.{Device};
ghost use Rattle.page_store.specs.ShelfState.{FaultHasCause};
ghost use Rattle.folder_shelf.specs.SystemState.{entered_at};
ghost use Rattle.folder_shelf.specs.FailedCalls.{failed_calls};
ghost use Rattle.folder_shelf.specs.Replay.{folder_state};
ghost use Rattle.folder_shelf.specs.Within.{StaysWithin};

use crate::disk::Disk;
use crate::system::System;
use io_state::{Fault, FileName};
use page_store::{GrowingShelf, Shelf};
use std::marker::PhantomData;
use system_files::Cause;

/// The files of a folder. Each is kept open until it is let go, or until the next `attach`.
#[derive(Drop)]
pub struct FolderShelf<S: System + Drop, D: Disk> {
    system: S,
    faults: u64,
    disk: PhantomData<D>,
    ghost counted: { faults ≡ failed_calls (S.state system).calls } by { Prim.hlevel props },
    ghost within: { StaysWithin (S.state system) } by { Prim.hlevel props },
}

impl<S: System + Drop, D: Disk> FolderShelf<S, D> {
    /// A shelf with no unit over the folder of this path. It has the system, whose record is empty,
    /// until it gives it back.
    pub fn new(system: S, folder: String) -> FolderShelf<S, D>
        requires unasked { (S.state system).calls ≡ [] }
        ensures entered { S.state result.system ≡ entered_at (string_bytes folder) (S.state system) }
        ensures faults { result.faults ≡ 0 }
    {
        let mut system = system;
        system.enter(folder);
        FolderShelf {
            system,
            faults: 0,
            disk: PhantomData,
        }
    }

    /// The system, whose record has the calls of this shelf: that a folder was entered, and calls on
    /// files of that folder.
    pub fn into_system(self) -> S
        ensures same { result ≡ self.system }
        ensures within { StaysWithin (S.state result) }
    {
        self.system
    }

    /// Why a call on the unit's file first failed, since it was attached.
    pub fn cause(&self, unit: usize) -> Option<Cause> {
        self.system.cause(unit)
    }
}

impl<S: System + Drop, D: Disk> Shelf for FolderShelf<S, D> {
    ghost use Rattle.folder_shelf.specs.ReplayLaws.{replay_sound};
    ghost use Rattle.folder_shelf.specs.SystemState.{file_path};

    ghost state = { λ shelf. folder_state D.Disk.unseen (S.state shelf.system) };

    ghost fault_count = { λ shelf. shelf.faults };

    ghost reads_an_image = { λ shelf name honest. replay_sound D.Disk.unseen D.Disk.sound
        (S.state shelf.system).calls (file_path (S.state shelf.system).folder name) honest };

    fn faults(&self) -> u64 {
        self.faults
    }

    fn exists(&mut self, unit: usize) -> Result<bool, Fault> {
        match self.system.look(unit) {
            Some(there) => Ok(there),
            None => fail(&mut self.faults),
        }
    }

    fn create(&mut self, unit: usize) -> Result<(), Fault> {
        if self.system.make(unit) {
            Ok(())
        } else {
            fail(&mut self.faults)
        }
    }

    fn size(&mut self, unit: usize) -> Result<u64, Fault> {
        match self.system.measure(unit) {
            Some(size) => Ok(size),
            None => fail(&mut self.faults),
        }
    }

    fn read_at(&mut self, unit: usize, at: u64, bytes: &mut [u8]) -> Result<(), Fault> {
        if self.system.read(unit, at, bytes) {
            Ok(())
        } else {
            fail(&mut self.faults)
        }
    }

    fn write_at(&mut self, unit: usize, at: u64, bytes: &[u8]) -> Result<(), Fault> {
        let held = self.system.hold(unit);
        if !held {
            return fail(&mut self.faults);
        }
        let taken = self.system.write(unit, at, bytes);
        if taken == bytes.len() {
            Ok(())
        } else {
            fail(&mut self.faults)
        }
    }

    fn sync(&mut self, unit: usize) -> Result<(), Fault> {
        if self.system.flush(unit) {
            Ok(())
        } else {
            fail(&mut self.faults)
        }
    }

    fn attach(&mut self, units: &[FileName]) -> Result<(), Fault> {
        self.system.attach(units)
    }
}

impl<S: System + Drop, D: Disk> GrowingShelf for FolderShelf<S, D> {
    ghost keeps_open = { λ shelf. S.keeps_open shelf.system };

    fn add_unit(&mut self, name: &FileName) -> Result<(), Fault> {
        self.system.add_unit(name)
    }

    fn let_go(&mut self, unit: usize) {
        self.system.let_go(unit);
    }
}

// Counts a call that failed.
fn fail<T>(faults: &mut u64) -> Result<T, Fault>
    ensures device { IsErrOf result Device }
    ensures counted { faults.new ≡ min (faults.old + 1) (2 ^ 64 - 1) }
    ensures cause { FaultHasCause faults.old faults.new result }
{
    *faults = faults.saturating_add(1);
    Err(Fault::Device)
}

//! The shelf of the file of a path.

ghost use Rattle.std.specs.Prelude.{◌≡◌, ◌+◌, ◌-◌, ◌<◌, ◌^◌, min, [], length, map, get_or, string_bytes, IsErrOf};
ghost use Rattle.io_state.specs.declared.fault.Fault.TheVariants.{Device};
ghost use Rattle.page_store.specs.ShelfState.{FaultHasCause};
ghost use Rattle.folder_shelf.specs.Shelf.{is_empty_name, shelf_after};
ghost use Rattle.file_commands.specs.Since.{HasOnlyRead, IsHonestSince};

use crate::reads::Reads;
use crate::system_asked::SystemAsked;
use folder_shelf::{Disk, System};
use io_state::{Fault, FileName};
use page_store::Shelf;
use std::alloc::Global;
use std::marker::PhantomData;
use streams::Progress;

/// The file of a path, as a shelf on which it has the empty name. No call writes: one that would
/// answers `Fault::Device`. How many bytes have come is told until other units are attached.
#[derive(Drop)]
pub struct ReadShelf<'p, S: System + Drop, D: Disk, A: SystemAsked, P> {
    reads: Reads<S, A>,
    alloc: Global,
    path: String,
    units: Vec<FileName>,
    faults: u64,
    progress: &'p mut P,
    is_told: bool,
    come: u64,
    whole: u64,
    disk: PhantomData<D>,
}

impl<'p, S: System + Drop, D: Disk, A: SystemAsked, P: Progress> ReadShelf<'p, S, D, A, P> {
    /// The shelf of the file of this path, with no unit. It has the system until it gives it back.
    pub fn new(
        alloc: Global,
        system: S,
        path: String,
        progress: &'p mut P,
    ) -> ReadShelf<'p, S, D, A, P>
        requires before { S.state system ≡ A.before }
        ensures shows { (⟦<ReadShelf<'p, S, D, A, P> as Shelf>⟧).state result
            ≡ shelf_after D.Disk.unseen.first (string_bytes path) [] [] }
    {
        ReadShelf {
            reads: Reads::new(system),
            alloc,
            path,
            units: Vec::new(alloc),
            faults: 0,
            progress,
            is_told: true,
            come: 0,
            whole: 0,
            disk: PhantomData,
        }
    }

    /// The system, and whether a call on the file has failed. Nothing is told any more of how many
    /// bytes have come.
    pub fn into_system(self) -> (S, bool)
        ensures honest { IsHonestSince D.Disk.unseen A.before (S.state result.0)
            ((⟦<ReadShelf<'p, S, D, A, P> as Shelf>⟧).state self.entry) }
        ensures reading { HasOnlyRead A.before (S.state result.0) result.1 }
    {
        let ReadShelf {
            reads,
            alloc: _,
            path: _,
            units: _,
            faults: _,
            progress,
            is_told,
            come: _,
            whole: _,
            disk: _,
        } = self;
        if is_told {
            progress.wipe();
        }
        reads.into_parts()
    }
}

/// Whether the name of a unit is the empty one.
fn is_unnamed(units: &[FileName], unit: usize) -> bool
    requires { unit < length units.now }
    ensures { result ≡ is_empty_name (get_or (map (λ name. name.bytes) units.now) unit []) }
{
    units[unit].is_empty()
}

/// Counts a call that failed, or that would write.
fn fail<T>(faults: &mut u64) -> Result<T, Fault>
    ensures device { IsErrOf result Device }
    ensures counted { faults.new ≡ min (faults.old + 1) (2 ^ 64 - 1) }
    ensures cause { FaultHasCause faults.old faults.new result }
{
    *faults = faults.saturating_add(1);
    Err(Fault::Device)
}

impl<'p, S: System + Drop, D: Disk, A: SystemAsked, P: Progress> Shelf
    for ReadShelf<'p, S, D, A, P> {
    ghost use Rattle.std.specs.Prelude.{map, string_bytes};
    ghost use Rattle.folder_shelf.specs.Shelf.{shelf_after};
    ghost use Rattle.folder_shelf.specs.ShelfLaws.{image_by_name};
    ghost use Rattle.file_commands.specs.Since.{calls_since};

    ghost state = { λ shelf. shelf_after D.Disk.unseen.first (string_bytes shelf.path)
        (map (λ name. name.bytes) shelf.units.items) (calls_since A.before (S.state shelf.reads.system)) };

    ghost fault_count = { λ shelf. shelf.faults };

    ghost reads_an_image = { λ shelf name _. image_by_name (D.Disk.unseen.first (string_bytes shelf.path))
        (D.Disk.sound (string_bytes shelf.path)) name };

    fn faults(&self) -> u64 {
        self.faults
    }

    fn exists(&mut self, unit: usize) -> Result<bool, Fault> {
        if !is_unnamed(&self.units, unit) {
            return Ok(false);
        }
        match self.reads.measure(self.path.as_str()) {
            Some(_) => Ok(true),
            None => fail(&mut self.faults),
        }
    }

    fn create(&mut self, _unit: usize) -> Result<(), Fault> {
        fail(&mut self.faults)
    }

    fn size(&mut self, _unit: usize) -> Result<u64, Fault> {
        match self.reads.measure(self.path.as_str()) {
            Some(size) => {
                self.whole = size;
                Ok(size)
            }
            None => fail(&mut self.faults),
        }
    }

    fn read_at(&mut self, _unit: usize, at: u64, bytes: &mut [u8]) -> Result<(), Fault> {
        if self.reads.read(self.path.as_str(), at, bytes) {
            if self.is_told {
                self.come = self.come.saturating_add(bytes.len() as u64).min(self.whole);
                self.progress.at(self.come, self.whole);
            }
            Ok(())
        } else {
            fail(&mut self.faults)
        }
    }

    fn write_at(&mut self, _unit: usize, _at: u64, _bytes: &[u8]) -> Result<(), Fault> {
        fail(&mut self.faults)
    }

    fn sync(&mut self, _unit: usize) -> Result<(), Fault> {
        fail(&mut self.faults)
    }

    fn attach(&mut self, units: &[FileName]) -> Result<(), Fault> {
        if self.is_told && !self.units.is_empty() {
            self.progress.wipe();
            self.is_told = false;
        }
        self.units = units.to_vec(self.alloc).map_err(|_| Fault::Memory)?;
        Ok(())
    }
}

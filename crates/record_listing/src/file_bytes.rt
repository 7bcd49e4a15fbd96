//! A shelf whose one file has given bytes, and is never written.
ghost use Rattle.std.specs.Prelude.{◌≡◌, ◌+◌, ◌≤◌, ◌<◌, ◌^◌, ◌-◌, ℕ, [], length, map, get_or, take, drop};
ghost use Rattle.std.specs.Prelude.{min, IsErrOf};
ghost use Rattle.io_state.specs.declared.fault.Fault.TheVariants.{Device};
ghost use Rattle.record_listing.specs.Shelf.{is_nil};

use io_state::{Fault, FileName};
use page_store::Shelf;
use std::alloc::Global;

/// The bytes of a file, as a shelf on which the file has the empty name. No call writes: one that
/// would answers `Fault::Device`.
#[derive(Drop)]
pub struct FileBytes {
    alloc: Global,
    units: Vec<FileName>,
    bytes: Vec<u8>,
    faults: u64,
}

impl FileBytes {
    ghost use Rattle.std.specs.Prelude.{◌≡◌, []};
    ghost use Rattle.record_listing.specs.Shelf.{shelf_state_of};

    /// The shelf of these bytes.
    pub fn new(alloc: Global, bytes: Vec<u8>) -> FileBytes
        ensures units { (shelf_state_of result).names ≡ [] }
        ensures bytes { result.bytes ≡ bytes }
    {
        FileBytes {
            alloc,
            units: Vec::new(alloc),
            bytes,
            faults: 0,
        }
    }
}

/// Whether the name of a unit is the empty one.
fn is_unnamed(units: &[FileName], unit: usize) -> bool
    requires { unit < length units.now }
    ensures { result ≡ is_nil (get_or (map (λ name. name.bytes) units.now) unit []) }
{
    units[unit].is_empty()
}

/// Counts a call that would write, and refuses it.
fn refuse(faults: &mut u64) -> Result<(), Fault>
    ensures refused { IsErrOf result Device }
    ensures counted { min (faults.old + 1) (2 ^ 64 - 1) ≤ faults.new }
    ensures no_fewer { faults.old ≤ faults.new }
{
    *faults = faults.saturating_add(1);
    Err(Fault::Device)
}

/// Fills bytes with those of the file from a place on.
fn copy_from(file: &[u8], at: usize, bytes: &mut [u8])
    requires { at + length bytes.old ≤ length file.now }
    ensures { bytes.new ≡ take (length bytes.new) (drop at file.now) }
{
    bytes.copy_from_slice(&file[at..at + bytes.len()]);
}

impl Shelf for FileBytes {
    ghost use Rattle.record_listing.specs.Shelf.{shelf_state_of};
    ghost use Rattle.record_listing.specs.ShelfLaws.{left_as_read};

    ghost state = { shelf_state_of };

    ghost fault_count = { λ shelf. shelf.faults };

    ghost reads_an_image = { λ shelf name _. left_as_read shelf.bytes.items name };

    fn faults(&self) -> u64 {
        self.faults
    }

    #[tactic(auto, using(crate::proofs::FileLemmas::there_where_unnamed))]
    fn exists(&mut self, unit: usize) -> Result<bool, Fault> {
        Ok(is_unnamed(&self.units, unit))
    }

    fn create(&mut self, _unit: usize) -> Result<(), Fault> {
        refuse(&mut self.faults)
    }

    #[tactic(auto, using(crate::proofs::FileLemmas::unnamed_where_there))]
    fn size(&mut self, _unit: usize) -> Result<u64, Fault> {
        Ok(self.bytes.len() as u64)
    }

    #[tactic(auto, using(crate::proofs::FileLemmas::unnamed_where_within))]
    fn read_at(&mut self, _unit: usize, at: u64, bytes: &mut [u8]) -> Result<(), Fault> {
        copy_from(&self.bytes, at as usize, bytes);
        Ok(())
    }

    fn write_at(&mut self, _unit: usize, _at: u64, _bytes: &[u8]) -> Result<(), Fault> {
        refuse(&mut self.faults)
    }

    fn sync(&mut self, _unit: usize) -> Result<(), Fault> {
        refuse(&mut self.faults)
    }

    fn attach(&mut self, units: &[FileName]) -> Result<(), Fault> {
        self.units = units.to_vec(self.alloc).map_err(|_| Fault::Memory)?;
        Ok(())
    }
}

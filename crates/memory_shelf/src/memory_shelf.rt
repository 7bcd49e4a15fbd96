//! A shelf in memory.
ghost use Rattle.std.specs.Prelude.{◌≡◌, ◌+◌, ◌<◌, ◌≤◌, length, take, drop, IfSome, OnOk, IsOkUnless};
ghost use Rattle.std.specs.Prelude.{IsErrOf, is_ok};
ghost use Rattle.page_store.specs.ShelfState.{FaultHasCause};
ghost use Rattle.io_state.specs.declared.fault.Fault.TheVariants.{Device, Memory};
ghost use Rattle.memory_shelf.specs.MemFiles.{index_of};
ghost use Rattle.memory_shelf.specs.MemShelves.{AddsCrashed, KeepsOthersThan};

use crate::crash::Image;
use crate::memory_file::MemFile;
use io_state::{Fault, FileName};
use page_store::{GrowingShelf, Shelf};
use std::alloc::Global;

/// Files in memory. The device fails only where a file cannot grow, for want of memory.
#[derive(Drop)]
pub struct MemShelf {
    alloc: Global,
    units: Vec<FileName>,
    files: Vec<MemFile>,
    // How often a file could not grow.
    refused: u64,
}

impl MemShelf {
    ghost use Rattle.std.specs.Prelude.{◌≡◌, ◌<◌, [], length, IfSome, true, IfOk, IsOkUnless};
    ghost use Rattle.io_state.specs.declared.fault.Fault.TheVariants.{Memory};
    ghost use Rattle.page_store.specs.DeviceFile.{absent};
    ghost use Rattle.page_store.specs.ShelfState.{HasUnit, unit_name};
    ghost use Rattle.memory_shelf.specs.MemFiles.{IsPlaceOfFile};
    ghost use Rattle.memory_shelf.specs.MemShelves.{mem_state_of, EachCrashed};

    /// A shelf with no unit, and no file.
    pub fn new(alloc: Global) -> MemShelf
        ensures { mem_state_of result ≡ record { names = []; file = λ _. absent; is_honest = true } }
    {
        MemShelf {
            alloc,
            units: Vec::new(alloc),
            files: Vec::new(alloc),
            refused: 0,
        }
    }

    /// The shelf that a crash leaves. It has no unit until it is attached, and no fault is counted.
    pub fn crash(&self, alloc: Global, image: Image) -> Result<MemShelf, Fault>
        ensures files { IfOk result (λ shelf.
            EachCrashed image (mem_state_of self.now) (mem_state_of shelf)) }
        ensures units { IfOk result (λ shelf. (mem_state_of shelf).names ≡ []) }
        ensures only_memory { IsOkUnless result Memory }
    {
        let mut files = Vec::new(alloc);
        for (place, file) in self.files.iter().enumerate() {
            // A later file of the same name would be hidden by the first.
            if find(&self.files[..place], &file.name).is_none() {
                keep_left(alloc, &mut files, file, image)?;
            }
        }
        Ok(MemShelf {
            alloc,
            units: Vec::new(alloc),
            files,
            refused: 0,
        })
    }

    // Where the file of a unit is.
    fn place(&self, unit: usize) -> Option<usize>
        requires { HasUnit (mem_state_of self.now) unit }
        ensures found { IsPlaceOfFile self.now.files.items (unit_name (mem_state_of self.now) unit) result }
        ensures within { IfSome result (λ at. at < length self.now.files.items) }
    {
        find(&self.files, &self.units[unit])
    }
}

impl Shelf for MemShelf {
    ghost use Rattle.std.specs.Prelude.{◌≡◌, ◌+◌, length, is_some};
    ghost use Rattle.page_store.specs.DeviceFile.{content, IsWithin, IsThere};
    ghost use Rattle.page_store.specs.Calls.{ReadsBytes};
    ghost use Rattle.page_store.specs.ShelfState.{HasUnit};
    ghost use Rattle.page_store.specs.ShelfCalls.{HasUnitWith};
    ghost use Rattle.memory_shelf.specs.MemShelves.{mem_state_of, AnswersAlways};
    ghost use Rattle.memory_shelf.specs.MemLaws.{files_sound};

    ghost state = { mem_state_of };

    ghost fault_count = { λ shelf. shelf.refused };

    ghost reads_an_image = { λ shelf name _. files_sound shelf.files.items name };

    fn faults(&self) -> u64 {
        self.refused
    }

    fn exists(&mut self, unit: usize) -> Result<bool, Fault>
        requires unit { HasUnit (mem_state_of self.old) unit }
        ensures { AnswersAlways unit (λ file there. there ≡ is_some file.seen) self.old self.new result }
    {
        Ok(self.place(unit).is_some())
    }

    fn create(&mut self, unit: usize) -> Result<(), Fault> {
        let Ok(file) = MemFile::new(self.alloc, self.units[unit]) else {
            return refuse(&mut self.refused);
        };
        if self.files.push(file).is_err() {
            return refuse(&mut self.refused);
        }
        Ok(())
    }

    fn size(&mut self, unit: usize) -> Result<u64, Fault>
        requires { HasUnitWith (mem_state_of self.old) unit IsThere }
        ensures { AnswersAlways unit (λ file size. size ≡ length (content file)) self.old self.new result }
    {
        match self.place(unit) {
            Some(place) => Ok(self.files[place].bytes.len() as u64),
            None => unreachable!(),
        }
    }

    fn read_at(&mut self, unit: usize, at: u64, bytes: &mut [u8]) -> Result<(), Fault>
        requires { HasUnitWith (mem_state_of self.old) unit (IsWithin (at + length bytes.old)) }
        ensures { AnswersAlways unit (λ file _. ReadsBytes file at bytes.new) self.old self.new result }
    {
        match self.place(unit) {
            Some(place) => {
                copy_from(&self.files[place].bytes, at as usize, bytes);
                Ok(())
            }
            None => unreachable!(),
        }
    }

    fn write_at(&mut self, unit: usize, at: u64, bytes: &[u8]) -> Result<(), Fault> {
        match self.place(unit) {
            Some(place) => {
                let file = &mut self.files[place];
                let done = file.write(at as usize, bytes);
                counted(&mut self.refused, done)
            }
            None => unreachable!(),
        }
    }

    fn sync(&mut self, unit: usize) -> Result<(), Fault> {
        match self.place(unit) {
            Some(place) => {
                let file = &mut self.files[place];
                let done = file.sync(self.alloc);
                counted(&mut self.refused, done)
            }
            None => unreachable!(),
        }
    }

    fn attach(&mut self, units: &[FileName]) -> Result<(), Fault> {
        self.units = units.to_vec(self.alloc).map_err(|_| Fault::Memory)?;
        Ok(())
    }
}

impl GrowingShelf for MemShelf {
    ghost use Rattle.std.specs.Prelude.{false};

    // no file of the system is open
    ghost keeps_open = { λ _ _. false };

    fn add_unit(&mut self, name: &FileName) -> Result<(), Fault> {
        self.units.push(*name).map_err(|_| Fault::Memory)?;
        Ok(())
    }

    fn let_go(&mut self, _unit: usize) {}
}

// Counts a call that found no memory: the device has failed.
fn refuse(refused: &mut u64) -> Result<(), Fault>
    ensures device { IsErrOf result Device }
    ensures cause { FaultHasCause refused.old refused.new result }
{
    *refused = refused.saturating_add(1);
    Err(Fault::Device)
}

// Counts a call, where it found no memory.
fn counted(refused: &mut u64, done: Result<(), Fault>) -> Result<(), Fault>
    ensures same { is_ok result ≡ is_ok done }
    ensures cause { FaultHasCause refused.old refused.new result }
{
    match done {
        Ok(()) => Ok(()),
        Err(_) => refuse(refused),
    }
}

// Adds what a crash leaves of a file, if it leaves the file.
fn keep_left(
    alloc: Global,
    files: &mut Vec<MemFile>,
    file: &MemFile,
    image: Image,
) -> Result<(), Fault>
    ensures this { OnOk result (AddsCrashed image file.now files.old.items files.new.items) }
    ensures others { OnOk result (KeepsOthersThan file.now files.old.items files.new.items) }
    ensures only_memory { IsOkUnless result Memory }
{
    match file.left_by(alloc, image)? {
        Some(bytes) => {
            let left = MemFile::restored(alloc, file.name, bytes)?;
            files.push(left).map_err(|_| Fault::Memory)?;
            Ok(())
        }
        None => Ok(()),
    }
}

fn copy_from(file: &[u8], at: usize, bytes: &mut [u8])
    requires { at + length bytes.old ≤ length file.now }
    ensures { bytes.new ≡ take (length bytes.new) (drop at file.now) }
{
    bytes.copy_from_slice(&file[at..at + bytes.len()]);
}

// Where the file of this name is.
fn find(files: &[MemFile], name: &FileName) -> Option<usize>
    ensures place { result ≡ index_of files.now name.now.bytes }
    ensures within { IfSome result (λ at. at < length files.now) }
{
    match files {
        [] => None,
        [first, rest @ ..] => {
            if first.name == *name {
                return Some(0);
            }
            match find(rest, name) {
                Some(at) => Some(at + 1),
                None => None,
            }
        }
    }
}

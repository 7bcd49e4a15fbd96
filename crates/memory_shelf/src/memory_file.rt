//! One file in memory, with what a crash would need to know.
ghost use Rattle.std.specs.Prelude.{◌≡◌, ◌≤◌, length, Some, OnOk, OnErr, IsOkUnless};
ghost use Rattle.std.proofs.Props.{props};
ghost use Rattle.io_state.specs.declared.fault.Fault.TheVariants.{Memory};
ghost use Rattle.page_store.specs.DeviceFile.{overlay};
ghost use Rattle.page_store.specs.Images.{MayLeave, durable};
ghost use Rattle.memory_shelf.specs.Events.{steps};

use crate::event::Event;
use io_state::{Fault, FileName};
use std::alloc::{AllocError, Global};

#[derive(Drop)]
pub(crate) struct MemFile {
    pub(crate) name: FileName,
    pub(crate) bytes: Vec<u8>,
    pub(crate) log: Vec<Event>,
    ghost sound: { MayLeave (durable (steps log.items)) (Some bytes.items) } by { Prim.hlevel props },
}

impl MemFile {
    ghost use Rattle.std.specs.Prelude.{◌≡◌, ◌≤◌, length};
    ghost use Rattle.page_store.specs.DeviceFile.{absent};
    ghost use Rattle.page_store.specs.Calls.{Created, WrittenAt, WriteFails, Synced};
    ghost use Rattle.memory_shelf.specs.MemFiles.{just_synced, MakesMemFile, ChangesMemFile};

    /// A file that was made now, without a byte.
    pub(crate) fn new(alloc: Global, name: FileName) -> Result<MemFile, Fault>
        ensures { MakesMemFile (λ file. file.name ≡ name) (Created absent) result }
    {
        let mut log = Vec::new(alloc);
        log.push(Event::Created).map_err(|_| Fault::Memory)?;
        Ok(MemFile {
            name,
            bytes: Vec::new(alloc),
            log,
        })
    }

    /// A file that has just been synced.
    pub(crate) fn restored(alloc: Global, name: FileName, bytes: Vec<u8>) -> Result<MemFile, Fault>
        ensures { MakesMemFile (λ file. file.name ≡ name) (λ file. file ≡ just_synced bytes.items)
            result }
    {
        let kept = bytes.to_vec(alloc).map_err(|_| Fault::Memory)?;
        let mut log = Vec::new(alloc);
        log.push(Event::Synced(kept)).map_err(|_| Fault::Memory)?;
        Ok(MemFile { name, bytes, log })
    }

    /// Writes bytes over those that are there, and past the end.
    pub(crate) fn write(&mut self, at: usize, bytes: &[u8]) -> Result<(), Fault>
        requires { at ≤ length self.old.bytes.items }
        ensures { ChangesMemFile (WrittenAt at bytes.now) (WriteFails at (length bytes.now))
            self.old self.new result }
    {
        self.log
            .push(Event::Wrote(at, bytes.len()))
            .map_err(|_| Fault::Memory)?;
        overwrite(&mut self.bytes, at, bytes)
    }

    /// Keeps the bytes as those that a crash leaves.
    pub(crate) fn sync(&mut self, alloc: Global) -> Result<(), Fault>
        ensures { ChangesMemFile Synced (λ old new. new ≡ old) self.old self.new result }
    {
        let kept = self.bytes.to_vec(alloc).map_err(|_| Fault::Memory)?;
        self.log
            .push(Event::Synced(kept))
            .map_err(|_| Fault::Memory)?;
        Ok(())
    }
}

/// Puts bytes over those that are there, and past the end.
fn overwrite(file: &mut Vec<u8>, at: usize, bytes: &[u8]) -> Result<(), Fault>
    requires { at ≤ length file.old.items }
    ensures written { OnOk result (file.new.items ≡ overlay file.old.items at bytes.now) }
    ensures failed { OnErr result (file.new.items ≡ file.old.items) }
    ensures only_memory { IsOkUnless result Memory }
{
    let end = at.checked_add(bytes.len()).ok_or(Fault::Memory)?;
    if end > file.len() {
        file.resize(end, 0).map_err(|_| Fault::Memory)?;
    }
    file[at..end].copy_from_slice(bytes);
    Ok(())
}

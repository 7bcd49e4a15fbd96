//! The files and folders of a runtime, and what they were asked and answered.
ghost use Rattle.std.specs.Prelude.{◌≡◌, ◌⊎◌, ◌≤◌, ◌<◌, [], false, map, length, get_or, string_bytes, IfOk, IsOkUnless};
ghost use Rattle.std.proofs.Props.{props};
ghost use Rattle.io_state.specs.declared.fault.Fault.TheVariants.{Memory};
ghost use Rattle.system_files.specs.Front.{IsFrontRead, EndsInLongLine};
ghost use Rattle.folder_shelf.specs.SystemState.{file_path};

use crate::call_record::CallRecord;
use crate::shared_file::{SharedFile, measure_shared, read_shared};
use crate::standard_streams::{HoldsStreams, StreamFault, hold_numbers};
use crate::system::System;
use crate::unit::Unit;
use crate::unread::{Unread, cause_of, cause_of_folder, keep_cause, why_not};
use io_state::{Fault, FileName};
use std::alloc::Global;
use std::fs::OpenFile;
use std::io::Read;
use std::mem;
use std::os::fd::AsRawFd;
use std::os::unix::fs::FileExt;
use std::rt::{Clock, Files};
use streams::{Progress, ProgressReader};
use system_files::{
    Cause, KeptFile, KeptFolder, Lines, LockFile, LockWait, ReadFault, read_front, read_lines,
};

/// The files and folders of a runtime. It is not copied, and gives the runtime to nobody.
#[derive(Drop)]
pub struct RecordedSystem<R: Files + Drop> {
    rt: R,
    alloc: Global,
    wait: LockWait,
    folder: KeptFolder<R::File>,
    names: Vec<FileName>,
    // Of each unit, the path of its file.
    paths: Vec<String>,
    units: Vec<Unit<R::File>>,
    // What is read by its path, page after page.
    shared: Option<SharedFile<R::File>>,
    // What has the numbers of standard streams that were closed.
    streams: Vec<R::File>,
    calls: CallRecord,
    unread: Vec<Unread>,
    ghost named: { map string_bytes paths.items
        ≡ map (file_path (string_bytes folder.path)) (map (λ name. name.bytes) names.items) } by { Prim.hlevel props },
}

impl<R: Files + Clock + Drop> RecordedSystem<R>
where
    R::File: FileExt + LockFile,
{
    /// The files and folders of a runtime, of which nothing was asked yet. There is no unit.
    pub fn new(rt: R, alloc: Global) -> RecordedSystem<R>
        ensures calls { result.calls.calls ≡ [] }
    {
        RecordedSystem {
            rt,
            alloc,
            wait: LockWait::of_seconds(0),
            folder: KeptFolder::new(String::new(alloc)),
            names: Vec::new(alloc),
            paths: Vec::new(alloc),
            units: Vec::new(alloc),
            shared: None,
            streams: Vec::new(alloc),
            calls: CallRecord::new(),
            unread: Vec::new(alloc),
        }
    }

    // The bytes of an open file. It is told how many have come.
    fn read_all<P: Progress>(
        &self,
        file: R::File,
        most: usize,
        progress: &mut P,
    ) -> Result<Vec<u8>, ReadFault>
        ensures bytes { IfOk result (λ bytes. IsFrontRead most (R.File.remaining file) bytes.items) }
        ensures within { IfOk result (λ bytes. length bytes.items ≤ most) }
    {
        let whole = system_files::measure(&file).unwrap_or(0);
        let mut reader = ProgressReader::new(file, whole, progress);
        read_front(self.alloc, &mut reader, most)
    }

    // The bytes of the file of a path.
    fn bytes_of(&self, path: &str, most: usize) -> Result<Vec<u8>, ReadFault>
        ensures within { IfOk result (λ bytes. length bytes.items ≤ most) }
    {
        let mut file = system_files::open_to_read(&self.rt, path).map_err(ReadFault::Device)?;
        read_front(self.alloc, &mut file, most)
    }

    // The text of the file of a path, and how many bytes were asked for.
    fn text_of(&self, path: &str, longest: usize) -> Result<(Vec<u8>, usize), ReadFault>
        ensures { IfOk result (λ text. (length text.0.items < text.1) ⊎ EndsInLongLine longest text.0.items) }
    {
        let mut file = system_files::open_to_read(&self.rt, path).map_err(ReadFault::Device)?;
        let lines = read_lines(self.alloc, &mut file, longest)?;
        asked_of(lines, longest)
    }

    // The bytes of the file of a path, as long as no run changes it.
    fn shared_bytes_of<P: Progress>(
        &self,
        path: &str,
        most: usize,
        progress: &mut P,
    ) -> Result<Vec<u8>, ReadFault>
        ensures within { IfOk result (λ bytes. length bytes.items ≤ most) }
    {
        let file = system_files::open_shared(&self.rt, self.wait, path).map_err(ReadFault::Device)?;
        let bytes = self.read_all(file, most, progress);
        progress.wipe();
        bytes
    }
}

// Lines, and how many bytes were asked for: where there are no more of them, one more than came.
fn asked_of(lines: Lines, longest: usize) -> Result<(Vec<u8>, usize), ReadFault>
    requires { lines.is_whole ≡ false → EndsInLongLine longest lines.bytes.items }
    ensures { IfOk result (λ text. (length text.0.items < text.1) ⊎ EndsInLongLine longest text.0.items) }
{
    let count = lines.bytes.len();
    if !lines.is_whole {
        return Ok((lines.bytes, count));
    }
    match count.checked_add(1) {
        Some(more) => Ok((lines.bytes, more)),
        None => Err(ReadFault::Memory),
    }
}

// The path of the file of a unit.
fn path_at(paths: &[String], unit: usize) -> &str
    requires { unit < length paths.now }
    ensures { result.now ≡ get_or (map string_bytes paths.now) unit [] }
{
    paths[unit].as_str()
}

// The path of the file of a name in a folder.
fn path_of(alloc: Global, folder: &str, name: &FileName) -> Result<String, Fault>
    ensures path { IfOk result (λ path. string_bytes path ≡ file_path folder.now name.now.bytes) }
    ensures only_memory { IsOkUnless result Memory }
{
    [folder, name.as_str()]
        .join(alloc, "/")
        .map_err(|_| Fault::Memory)
}

// The paths of the files of these names in a folder.
fn paths_of(alloc: Global, folder: &str, names: &[FileName]) -> Result<Vec<String>, Fault>
    ensures paths { IfOk result (λ paths. map string_bytes paths.items
        ≡ map (file_path folder.now) (map (λ name. name.bytes) names.now)) }
    ensures only_memory { IsOkUnless result Memory }
{
    let mut paths = Vec::new(alloc);
    for name in names {
        let path = path_of(alloc, folder, name)?;
        paths.push(path).map_err(|_| Fault::Memory)?;
    }
    Ok(paths)
}

// So many units, of which none was reached yet.
fn new_units<F: OpenFile + FileExt + LockFile + Drop>(
    alloc: Global,
    count: usize,
) -> Result<Vec<Unit<F>>, Fault>
    ensures { IsOkUnless result Memory }
{
    let mut units = Vec::new(alloc);
    for _ in 0..count {
        units.push(Unit::new()).map_err(|_| Fault::Memory)?;
    }
    Ok(units)
}

impl<R: Files + Clock + Drop> System for RecordedSystem<R>
where
    R::File: FileExt + LockFile,
{
    ghost use Rattle.folder_shelf.specs.Kept.{is_kept};

    ghost keeps_open = { λ system. is_kept system.units.items };

    ghost state = { λ system. record {
      folder = string_bytes system.folder.path;
      names = map (λ name. name.bytes) system.names.items;
      calls = system.calls.calls;
    } };

    fn wait_for_locks(&mut self, seconds: u32) {
        self.wait = LockWait::of_seconds(seconds);
    }

    fn enter(&mut self, folder: String) {
        self.calls.entered(folder.as_str());
        self.names = Vec::new(self.alloc);
        self.paths = Vec::new(self.alloc);
        self.units = Vec::new(self.alloc);
        self.folder = KeptFolder::new(folder);
    }

    fn attach(&mut self, names: &[FileName]) -> Result<(), Fault> {
        let kept = names.to_vec(self.alloc).map_err(|_| Fault::Memory)?;
        let paths = paths_of(self.alloc, self.folder.path(), names)?;
        let units = new_units(self.alloc, names.len())?;
        self.names = kept;
        self.paths = paths;
        self.units = units;
        Ok(())
    }

    fn add_unit(&mut self, name: &FileName) -> Result<(), Fault> {
        let path = path_of(self.alloc, self.folder.path(), name)?;
        self.names.reserve(1).map_err(|_| Fault::Memory)?;
        self.paths.reserve(1).map_err(|_| Fault::Memory)?;
        self.units.push(Unit::new()).map_err(|_| Fault::Memory)?;
        let named = self.names.push(*name);
        let placed = self.paths.push(path);
        if named.is_err() || placed.is_err() {
            unreachable!()
        }
        Ok(())
    }

    fn let_go(&mut self, unit: usize) {
        if let Some(it) = self.units.get_mut(unit) {
            it.close();
        }
    }

    fn look(&mut self, unit: usize) -> Option<bool> {
        let path = path_at(&self.paths, unit);
        let found = match self.units.get_mut(unit) {
            Some(it) => it.look(&self.rt, path),
            None => None,
        };
        self.calls.looked(path, found);
        found
    }

    fn make(&mut self, unit: usize) -> bool {
        let path = path_at(&self.paths, unit);
        let done = match self.units.get_mut(unit) {
            Some(it) => it.make(&self.rt, self.wait, path, &mut self.folder),
            None => false,
        };
        self.calls.made(path, done);
        done
    }

    fn measure(&mut self, unit: usize) -> Option<u64> {
        let path = path_at(&self.paths, unit);
        let size = match self.units.get_mut(unit) {
            Some(it) => it.measure(&self.rt, self.wait, path, &mut self.folder),
            None => None,
        };
        self.calls.measured(path, size);
        size
    }

    fn read(&mut self, unit: usize, at: u64, bytes: &mut [u8]) -> bool {
        let path = path_at(&self.paths, unit);
        let done = match self.units.get_mut(unit) {
            Some(it) => it.read(&self.rt, self.wait, path, &mut self.folder, at, bytes),
            None => false,
        };
        self.calls.read(path, done, at, bytes);
        done
    }

    fn hold(&mut self, unit: usize) -> bool {
        let path = path_at(&self.paths, unit);
        let done = match self.units.get_mut(unit) {
            Some(it) => it.hold(&self.rt, self.wait, path, &mut self.folder),
            None => false,
        };
        self.calls.held(path, done);
        done
    }

    fn write(&mut self, unit: usize, at: u64, bytes: &[u8]) -> usize {
        let path = path_at(&self.paths, unit);
        let taken = match self.units.get_mut(unit) {
            Some(it) => it.write(at, bytes),
            None => 0,
        };
        self.calls.written(path, at, taken, bytes);
        taken
    }

    fn flush(&mut self, unit: usize) -> bool {
        let path = path_at(&self.paths, unit);
        let done = match self.units.get_mut(unit) {
            Some(it) => it.sync(&self.rt, self.wait, path, &mut self.folder),
            None => false,
        };
        self.calls.flushed(path, done);
        done
    }

    fn cause(&self, unit: usize) -> Option<Cause> {
        match self.units.get(unit) {
            Some(it) => it.cause(),
            None => None,
        }
    }

    fn units(&self) -> usize {
        self.names.len()
    }

    fn name(&self, unit: usize) -> Option<&str> {
        match self.names.get(unit) {
            Some(name) => Some(name.as_str()),
            None => None,
        }
    }

    fn is_folder(&mut self, path: &str) -> Result<bool, Cause> {
        let told = system_files::is_folder(&self.rt, path);
        keep_cause(&mut self.unread, self.alloc, path, cause_of_folder(&told));
        self.calls.asked_of_folder(path, told.ok());
        told
    }

    fn take(&mut self, path: &str, most: usize) -> Result<Vec<u8>, ReadFault> {
        let bytes = self.bytes_of(path, most);
        keep_cause(&mut self.unread, self.alloc, path, cause_of(&bytes));
        match &bytes {
            Ok(bytes) => self.calls.taken(path, most, Some(bytes.as_slice())),
            Err(_) => self.calls.taken(path, most, None),
        }
        bytes
    }

    fn take_shared<P: Progress>(
        &mut self,
        path: &str,
        most: usize,
        progress: &mut P,
    ) -> Result<Vec<u8>, ReadFault> {
        let bytes = self.shared_bytes_of(path, most, progress);
        keep_cause(&mut self.unread, self.alloc, path, cause_of(&bytes));
        match &bytes {
            Ok(bytes) => self.calls.taken_shared(path, most, Some(bytes.as_slice())),
            Err(_) => self.calls.taken_shared(path, most, None),
        }
        bytes
    }

    fn measure_shared(&mut self, path: &str) -> Option<u64> {
        let told = measure_shared(&mut self.shared, &self.rt, self.alloc, self.wait, path);
        keep_cause(&mut self.unread, self.alloc, path, why_not(&told));
        self.calls.measured(path, told.ok());
        told.ok()
    }

    fn read_shared(&mut self, path: &str, at: u64, bytes: &mut [u8]) -> bool {
        let done = read_shared(
            &mut self.shared,
            &self.rt,
            self.alloc,
            self.wait,
            path,
            at,
            bytes,
        );
        keep_cause(&mut self.unread, self.alloc, path, why_not(&done));
        self.calls.read(path, done.is_ok(), at, bytes);
        done.is_ok()
    }

    fn take_text(&mut self, path: &str, longest: usize) -> Result<Vec<u8>, ReadFault> {
        let told = self.text_of(path, longest);
        keep_cause(&mut self.unread, self.alloc, path, cause_of(&told));
        match told {
            Ok((text, most)) => {
                self.calls.taken(path, most, Some(text.as_slice()));
                Ok(text)
            }
            Err(fault) => {
                self.calls.taken(path, longest, None);
                Err(fault)
            }
        }
    }

    fn unread(&self) -> &[Unread] {
        self.unread.as_slice()
    }

    fn exchange_record(&mut self, other: &mut CallRecord) {
        mem::swap(&mut self.calls, other);
    }
}

impl<R: Files + Clock + Drop> HoldsStreams for RecordedSystem<R>
where
    R::File: FileExt + LockFile + AsRawFd,
{
    fn hold_closed_streams(&mut self) -> Result<(), StreamFault> {
        let held = hold_numbers(&self.rt, &mut self.streams);
        self.calls.streams_held(held.is_ok());
        held
    }
}

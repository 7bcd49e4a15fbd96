//! Calls of the system on files, made again where a signal interrupts them.
ghost use Rattle.std.specs.Prelude.{◌<◌, ◌≤◌, length, IfOk};

use crate::cause::Cause;
use std::fs::{self, Metadata, OpenFile};
use std::io;
use std::os::unix::fs::FileExt;
use std::rt::Files;

/// So many interrupted calls in a row are a fault of the device.
pub(crate) const MOST_INTERRUPTED: u32 = 1000;

/// Whether a signal interrupted a call.
pub(crate) fn is_interrupted(error: &io::Error) -> bool {
    error.kind() == io::ErrorKind::Interrupted
}

/// Makes a call again while it is interrupted.
pub(crate) fn again<T, F: Fn() -> io::Result<T> + Drop>(call: F) -> Result<T, Cause>
    requires { F.IsAlwaysCallable call }
{
    for _ in 0..MOST_INTERRUPTED {
        match call() {
            Ok(answer) => return Ok(answer),
            Err(error) => {
                if !is_interrupted(&error) {
                    return Err(Cause::of(error));
                }
            }
        }
    }
    Err(Cause::Other(io::ErrorKind::Interrupted))
}

/// Whether a file of this name is there, if the system tells it. A folder or a link is no file.
pub fn look<R: Files>(rt: &R, path: &str) -> Result<bool, Cause> {
    match again(|| fs::symlink_metadata(rt, path)) {
        Ok(found) => {
            require_file(&found)?;
            Ok(true)
        }
        Err(Cause::Other(io::ErrorKind::NotFound)) => Ok(false),
        Err(cause) => Err(cause),
    }
}

/// Whether a path is that of a folder, or of a link to one, if the system tells it.
pub fn is_folder<R: Files>(rt: &R, path: &str) -> Result<bool, Cause> {
    let found = again(|| fs::metadata(rt, path))?;
    Ok(found.is_dir())
}

/// Refuses what is no file.
pub(crate) fn require_file(found: &Metadata) -> Result<(), Cause> {
    if found.is_file() {
        Ok(())
    } else if found.is_symlink() {
        Err(Cause::Link)
    } else {
        Err(Cause::NoFile)
    }
}

/// Brings a file or a folder to the disk.
pub fn sync<F: OpenFile>(file: &F) -> Result<(), Cause> {
    again(|| file.sync_all())
}

/// The number of bytes of a file.
pub fn measure<F: OpenFile>(file: &F) -> Result<u64, Cause> {
    let found = again(|| file.metadata())?;
    Ok(found.len())
}

/// Fills the bytes with those of the file from `at` on, if they all come.
pub fn read<F: FileExt>(file: &F, at: u64, bytes: &mut [u8]) -> Result<(), Cause> {
    let mut done = 0;
    while done < bytes.len() {
        match read_part(file, at.saturating_add(done as u64), &mut bytes[done..]) {
            Ok(n) => done += n,
            Err(cause) => return Err(cause),
        }
    }
    Ok(())
}

fn read_part<F: FileExt>(file: &F, at: u64, bytes: &mut [u8]) -> Result<usize, Cause>
    ensures some { IfOk result (λ n. 0 < n) }
    ensures within { IfOk result (λ n. n ≤ length bytes.old) }
{
    for _ in 0..MOST_INTERRUPTED {
        match file.read_at(bytes, at) {
            Ok(0) => return Err(Cause::Other(io::ErrorKind::UnexpectedEof)),
            Ok(n) => return Ok(n),
            Err(error) => {
                if !is_interrupted(&error) {
                    return Err(Cause::of(error));
                }
            }
        }
    }
    Err(Cause::Other(io::ErrorKind::Interrupted))
}

/// How many bytes the system took, and why not all of them.
#[derive(Clone, Copy)]
pub struct Written {
    pub taken: usize,
    pub failed: Option<Cause>,
}

/// Writes the bytes from `at` on, in as many parts as the system takes.
pub fn write<F: FileExt>(file: &F, at: u64, bytes: &[u8]) -> Written
    ensures { result.taken ≤ length bytes.now }
{
    let mut taken = 0;
    while taken < bytes.len() {
        match write_part(file, at.saturating_add(taken as u64), &bytes[taken..]) {
            Ok(n) => taken += n,
            Err(cause) => {
                return Written {
                    taken,
                    failed: Some(cause),
                };
            }
        }
    }
    Written {
        taken,
        failed: None,
    }
}

fn write_part<F: FileExt>(file: &F, at: u64, bytes: &[u8]) -> Result<usize, Cause>
    ensures some { IfOk result (λ n. 0 < n) }
    ensures within { IfOk result (λ n. n ≤ length bytes.now) }
{
    for _ in 0..MOST_INTERRUPTED {
        match file.write_at(bytes, at) {
            Ok(0) => return Err(Cause::Other(io::ErrorKind::WriteZero)),
            Ok(n) => return Ok(n),
            Err(error) => {
                if !is_interrupted(&error) {
                    return Err(Cause::of(error));
                }
            }
        }
    }
    Err(Cause::Other(io::ErrorKind::Interrupted))
}

//! The file of a path, whose pages are read when they are wanted, as long as no run changes it.
ghost use Rattle.std.specs.Prelude.{◌≡◌, string_bytes};
ghost use Rattle.folder_shelf.specs.Reading.{ByReads};
ghost use Rattle.file_commands.specs.ByPages.{ExaminesPath, ExaminesAtPath, IsFoundBy};

use crate::shelf::ReadShelf;
use crate::system_asked::SystemAsked;
use file_checker::{Verdict, check_unit};
use folder_shelf::{Disk, System};
use io_state::{Fault, FileName};
use page_store::Shelf;
use std::alloc::Global;
use std::io::ErrorKind;
use std::marker::Brand;
use std::num::NonZeroUsize;
use streams::Progress;
use system_files::Cause;

/// So many pages of a file are held while it is checked: 256 MiB.
const FRAMES: usize = 65_536;

/// How many pages of a file are held at most while it is checked.
pub fn check_frames() -> NonZeroUsize {
    NonZeroUsize::new(FRAMES).unwrap_or(NonZeroUsize::MIN)
}

/// Why nothing is known of a file.
#[derive(Clone, Copy)]
pub enum NotRead {
    /// A call on it failed.
    Device,
    Memory,
}

/// Why the last file that was not read was not, if memory was had to keep it.
pub fn last_cause<S: System>(system: &S) -> Option<Cause> {
    match system.unread().last() {
        Some(unread) => Some(unread.cause),
        None => None,
    }
}

/// A file ended before a page that its size had told of: it was cut meanwhile.
pub fn was_cut<S: System>(system: &S) -> bool {
    match last_cause(system) {
        Some(Cause::Other(ErrorKind::UnexpectedEof)) => true,
        _ => false,
    }
}

/// What is found, or why nothing is: a device that failed is one of which a call on the file did.
fn found_by(found: Result<Verdict, Fault>, has_failed: bool) -> Result<Verdict, NotRead>
    ensures { IsFoundBy found has_failed result }
{
    match found {
        Ok(verdict) => Ok(verdict),
        Err(Fault::Memory) => Err(NotRead::Memory),
        Err(_) if has_failed => Err(NotRead::Device),
        Err(_) => Err(NotRead::Memory),
    }
}

/// Examines the file of a path by a system that is as the brand says.
fn examine_since<S: System + Drop, D: Disk, A: SystemAsked, P: Progress>(
    system: S,
    alloc: Global,
    path: String,
    progress: &mut P,
) -> (S, Result<Verdict, NotRead>)
    requires before { S.state system ≡ A.before }
    ensures { ByReads (ExaminesPath D.Disk.unseen (string_bytes path) result.1) (S.state system)
        (S.state result.0) }
{
    let mut shelf: ReadShelf<'_, S, D, A, P> = ReadShelf::new(alloc, system, path, progress);
    if shelf.attach(&[FileName::new()]).is_err() {
        let (system, _) = shelf.into_system();
        return (system, Err(NotRead::Memory));
    }
    let (shelf, found) = check_unit(alloc, shelf, 0, check_frames());
    let (system, has_failed) = shelf.into_system();
    (system, found_by(found, has_failed))
}

/// Examines the file of a path once.
fn examine_once<S: System + Drop, D: Disk, P: Progress>(
    system: S,
    alloc: Global,
    path: &str,
    progress: &mut P,
) -> (S, Result<Verdict, NotRead>)
    ensures { ByReads (ExaminesPath D.Disk.unseen path.now result.1) (S.state system) (S.state result.0) }
{
    match path.to_string(alloc) {
        Ok(path) => examine_since::<S, D, Brand, P>(system, alloc, path, progress),
        Err(_) => (system, Err(NotRead::Memory)),
    }
}

/// Examines the file of a path. One that is cut meanwhile is examined once more. It is told how many
/// bytes have come.
pub fn examine_at_path<S: System + Drop, D: Disk, P: Progress>(
    system: S,
    alloc: Global,
    path: &str,
    progress: &mut P,
) -> (S, Result<Verdict, NotRead>)
    ensures { ByReads (ExaminesAtPath D.Disk.unseen path.now result.1) (S.state system) (S.state result.0) }
{
    let (system, found) = examine_once::<S, D, P>(system, alloc, path, progress);
    match found {
        Err(NotRead::Device) if was_cut(&system) => {
            examine_once::<S, D, P>(system, alloc, path, progress)
        }
        found => (system, found),
    }
}

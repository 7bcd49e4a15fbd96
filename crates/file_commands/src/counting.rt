//! The count of what the file of a path has.
ghost use Rattle.std.specs.Prelude.{◌≡◌, string_bytes};
ghost use Rattle.folder_shelf.specs.Reading.{ByReads};
ghost use Rattle.file_commands.specs.Counted.{CountsAtPath, CountsFileAt, CountsPath};
ghost use Rattle.command_support.specs.Front.{DoesBy};
ghost use Rattle.command_support.specs.Status.{status_of};

use crate::by_pages::{check_frames, last_cause, was_cut};
use crate::shelf::ReadShelf;
use crate::system_asked::SystemAsked;
use command_support::{CommandFault, Outcome, fault_of as not_read};
use file_reports::{FileStatisticsEnd, StatisticsFault, list_statistics};
use folder_shelf::{Disk, System};
use io_state::FileName;
use page_store::Shelf;
use std::alloc::Global;
use std::io::Write;
use std::marker::Brand;
use streams::Silent;
use system_files::{Cause, ReadFault};

/// Why nothing is told of a file, or not all, with the cause, if memory was had to keep it.
fn fault_of(fault: StatisticsFault, cause: Option<Cause>) -> CommandFault
    ensures { status_of result ≡ 4 }
{
    match (fault, cause) {
        (StatisticsFault::Output, _) => CommandFault::Output,
        (StatisticsFault::Memory, _) => CommandFault::Memory,
        (StatisticsFault::Input, Some(cause)) => not_read(ReadFault::Device(cause)),
        (StatisticsFault::Input, None) => CommandFault::Input,
    }
}

/// Writes what is counted of the file of a path, by a system that is as the brand says.
fn count_since<S: System + Drop, D: Disk, A: SystemAsked, W: Write>(
    system: S,
    alloc: Global,
    path: String,
    out: &mut W,
) -> (S, Result<FileStatisticsEnd, StatisticsFault>)
    requires before { S.state system ≡ A.before }
    ensures { ByReads (CountsPath D.Disk.unseen (string_bytes path) (W.contents out.old) (W.contents out.new)
        result.1) (S.state system) (S.state result.0) }
{
    let mut silent = Silent;
    let mut shelf: ReadShelf<'_, S, D, A, Silent> = ReadShelf::new(
        alloc,
        system,
        path,
        &mut silent,
    );
    if shelf.attach(&[FileName::new()]).is_err() {
        let (system, _) = shelf.into_system();
        return (system, Err(StatisticsFault::Memory));
    }
    let (shelf, end) = list_statistics(alloc, shelf, 0, check_frames(), out);
    let (system, _) = shelf.into_system();
    (system, end)
}

/// The same, of a path that is lent.
fn count_once<S: System + Drop, D: Disk, W: Write>(
    system: S,
    alloc: Global,
    path: &str,
    out: &mut W,
) -> (S, Result<FileStatisticsEnd, StatisticsFault>)
    ensures { ByReads (CountsPath D.Disk.unseen path.now (W.contents out.old) (W.contents out.new) result.1)
        (S.state system) (S.state result.0) }
{
    match path.to_string(alloc) {
        Ok(path) => count_since::<S, D, Brand, W>(system, alloc, path, out),
        Err(_) => (system, Err(StatisticsFault::Memory)),
    }
}

/// Writes what is counted of the file of a path. One that is cut meanwhile is looked at once more.
fn count_at_path<S: System + Drop, D: Disk, W: Write>(
    system: S,
    alloc: Global,
    path: &str,
    out: &mut W,
) -> (S, Result<FileStatisticsEnd, StatisticsFault>)
    ensures { ByReads (CountsAtPath D.Disk.unseen path.now (W.contents out.old) (W.contents out.new) result.1)
        (S.state system) (S.state result.0) }
{
    let (system, end) = count_once::<S, D, W>(system, alloc, path, out);
    match end {
        Err(StatisticsFault::Input) if was_cut(&system) => {
            count_once::<S, D, W>(system, alloc, path, out)
        }
        end => (system, end),
    }
}

/// Writes what is counted of the file of a path, once a check has found it sound, as long as no run
/// changes it. It holds what `list_statistics` holds.
pub fn count_path<S: System + Drop, D: Disk, W: Write>(
    system: S,
    alloc: Global,
    path: &str,
    out: &mut W,
) -> (S, Result<Outcome, CommandFault>)
    ensures { ByReads (DoesBy (CountsFileAt D.Disk.unseen path.now W.contents out.old out.new) result.1)
        (S.state system) (S.state result.0) }
{
    let (system, end) = count_at_path::<S, D, W>(system, alloc, path, out);
    match end {
        Ok(end) => (system, Ok(Outcome::Counted(end))),
        Err(fault) => {
            let fault = fault_of(fault, last_cause(&system));
            (system, Err(fault))
        }
    }
}

//! The check of files, and what is written of them.
ghost use Rattle.std.specs.Prelude.{◌≡◌, Some, None, IfOk, IfErr};
ghost use Rattle.std.specs.Io.KnownBytes.{Appends};
ghost use Rattle.command_support.specs.Status.{status_of};
ghost use Rattle.folder_shelf.specs.Reading.{ByReads};
ghost use Rattle.command_support.specs.Front.{GivesSuch, DoesBy};
ghost use Rattle.file_commands.specs.Verdicts.{verdict_line, worse_of, paths_of, ChecksAll, ChecksFile};
ghost use Rattle.file_commands.specs.Verdicts.{ChecksFiles, ChecksNamed, WritesLine, FindsVerdict};
ghost use Rattle.file_commands.specs.Verdicts.{WritesFound};

use crate::by_pages::{NotRead, examine_at_path, last_cause};
use crate::verdict_lines::{named_line, unread_line, verdict_line};
use command_support::{CommandFault, Outcome, WorstCheck, fault_of};
use file_checker::Verdict;
use folder_shelf::{Disk, System};
use std::alloc::Global;
use std::io::Write;
use streams::Progress;
use system_files::{Cause, ReadFault};

/// Why there is no verdict on a file.
#[derive(Clone, Copy)]
enum NoVerdict {
    Unread(Cause),
    Memory,
}

/// Why a check told no verdict, as the command tells it.
fn fault_by(why: NoVerdict) -> CommandFault
    ensures { status_of result ≡ 4 }
{
    match why {
        NoVerdict::Unread(cause) => fault_of(ReadFault::Device(cause)),
        NoVerdict::Memory => CommandFault::Memory,
    }
}

/// Why a file has no verdict, with the cause, if memory was had to keep it.
fn without_verdict(why: NotRead, cause: Option<Cause>) -> NoVerdict
    ensures { (cause : Cause) → result ≡ NoVerdict.Unread cause → why ≡ NotRead.Device }
{
    match (why, cause) {
        (NotRead::Device, Some(cause)) => NoVerdict::Unread(cause),
        _ => NoVerdict::Memory,
    }
}

/// The verdict on the file of a path, as long as no run changes it. It is told how many bytes have come.
fn verdict_of<S: System + Drop, D: Disk, P: Progress>(
    system: S,
    alloc: Global,
    path: &str,
    progress: &mut P,
) -> (S, Result<Verdict, NoVerdict>)
    ensures { ByReads (FindsVerdict D.Disk.unseen path.now result.1) (S.state system) (S.state result.0) }
{
    let (system, found) = examine_at_path::<S, D, P>(system, alloc, path, progress);
    match found {
        Ok(verdict) => (system, Ok(verdict)),
        Err(why) => {
            let why = without_verdict(why, last_cause(&system));
            (system, Err(why))
        }
    }
}

/// Writes a line.
fn write_line<W: Write>(line: &[u8], out: &mut W) -> Result<(), CommandFault>
    ensures written { IfOk result (λ _. Appends (W.contents out.old) (W.contents out.new) line.now) }
    ensures fault { IfErr result (λ fault. status_of fault ≡ 4) }
{
    match out.write_all(line) {
        Ok(()) => Ok(()),
        Err(_) => Err(CommandFault::Output),
    }
}

/// Checks the file of a path, as long as no run changes it, and writes the verdict.
pub fn check_path<S: System + Drop, D: Disk, P: Progress, W: Write>(
    system: S,
    alloc: Global,
    path: &str,
    progress: &mut P,
    out: &mut W,
) -> (S, Result<Outcome, CommandFault>)
    ensures { ByReads (DoesBy (ChecksFile D.Disk.unseen path.now W.contents out.old out.new) result.1)
        (S.state system) (S.state result.0) }
{
    let (system, verdict) = verdict_of::<S, D, P>(system, alloc, path, progress);
    let verdict = match verdict {
        Ok(verdict) => verdict,
        Err(why) => return (system, Err(fault_by(why))),
    };
    match write_alone(alloc, verdict, out) {
        Ok(()) => (system, Ok(Outcome::Checked(verdict))),
        Err(fault) => (system, Err(fault)),
    }
}

/// Writes the line of the verdict on a file that is checked alone.
fn write_alone<W: Write>(alloc: Global, verdict: Verdict, out: &mut W) -> Result<(), CommandFault>
    ensures { GivesSuch (λ _. Appends (W.contents out.old) (W.contents out.new) (verdict_line verdict)) result }
{
    let line = verdict_line(alloc, verdict)?;
    write_line(line.as_slice(), out)
}

/// Writes the line of a verdict behind the path of its file.
fn write_verdict<W: Write>(
    alloc: Global,
    path: &str,
    verdict: Verdict,
    out: &mut W,
) -> Result<(), CommandFault>
    ensures { GivesSuch (λ _. WritesLine path.now (Some verdict) (W.contents out.old)
        (W.contents out.new)) result }
{
    let line = named_line(alloc, path, verdict)?;
    write_line(line.as_slice(), out)
}

/// Writes the line of a file that cannot be read.
fn write_unread<W: Write>(
    alloc: Global,
    path: &str,
    cause: Cause,
    out: &mut W,
) -> Result<(), CommandFault>
    ensures { GivesSuch (λ _. WritesLine path.now None (W.contents out.old) (W.contents out.new)) result }
{
    let line = unread_line(alloc, path, cause)?;
    write_line(line.as_slice(), out)
}

/// Writes the line of one of several files by what is found of it: the verdict, if there is one.
fn write_found<W: Write>(
    alloc: Global,
    path: &str,
    found: Result<Verdict, NoVerdict>,
    out: &mut W,
) -> Result<Option<Verdict>, CommandFault>
    ensures { GivesSuch (λ told. WritesFound path.now found (W.contents out.old)
        (W.contents out.new) told) result }
{
    match found {
        Ok(verdict) => {
            write_verdict(alloc, path, verdict, out)?;
            Ok(Some(verdict))
        }
        Err(NoVerdict::Unread(cause)) => {
            write_unread(alloc, path, cause, out)?;
            Ok(None)
        }
        Err(NoVerdict::Memory) => Err(CommandFault::Memory),
    }
}

/// Checks the file of a path, one of several, and writes its line: the verdict, if there is one.
fn check_named<S: System + Drop, D: Disk, P: Progress, W: Write>(
    system: S,
    alloc: Global,
    path: &str,
    progress: &mut P,
    out: &mut W,
) -> (S, Result<Option<Verdict>, CommandFault>)
    ensures { ByReads (ChecksNamed D.Disk.unseen path.now (W.contents out.old) (W.contents out.new)
        result.1) (S.state system) (S.state result.0) }
{
    let (system, found) = verdict_of::<S, D, P>(system, alloc, path, progress);
    (system, write_found(alloc, path, found, out))
}

/// What is worst of a file and of others.
fn worse_of(found: Option<Verdict>, others: WorstCheck) -> WorstCheck
    ensures { result ≡ worse_of found others }
{
    match (found, others) {
        (None, _) => WorstCheck::Unread,
        (Some(Verdict::Sound { .. }), others) => others,
        (Some(Verdict::Unsound(_, _)), WorstCheck::Unread) => WorstCheck::Unread,
        (Some(Verdict::Unsound(_, _)), _) => WorstCheck::Unsound,
    }
}

/// Checks the files of paths one after another, and writes a line of each: what is worst of them.
fn check_files<S: System + Drop, D: Disk, P: Progress, W: Write>(
    system: S,
    alloc: Global,
    paths: &[&str],
    progress: &mut P,
    out: &mut W,
) -> (S, Result<WorstCheck, CommandFault>)
    ensures { ByReads (ChecksAll D.Disk.unseen (paths_of paths.now) (W.contents out.old)
        (W.contents out.new) result.1) (S.state system) (S.state result.0) }
{
    let Some((first, rest)) = paths.split_first() else {
        return (system, Ok(WorstCheck::AllSound));
    };
    let (system, found) = check_named::<S, D, P, W>(system, alloc, first, progress, out);
    let found = match found {
        Ok(found) => found,
        Err(fault) => return (system, Err(fault)),
    };
    let (system, others) = check_files::<S, D, P, W>(system, alloc, rest, progress, out);
    match others {
        Ok(others) => (system, Ok(worse_of(found, others))),
        Err(fault) => (system, Err(fault)),
    }
}

/// Checks the files of several paths, each as long as no run changes it, and writes a line of each
/// behind its path: the verdict, or why the file cannot be read. Want of memory, or an output that
/// fails, ends it.
pub fn check_paths<S: System + Drop, D: Disk, P: Progress, W: Write>(
    system: S,
    alloc: Global,
    paths: &[&str],
    progress: &mut P,
    out: &mut W,
) -> (S, Result<Outcome, CommandFault>)
    ensures { ByReads (DoesBy (ChecksFiles D.Disk.unseen paths.now W.contents out.old out.new) result.1)
        (S.state system) (S.state result.0) }
{
    let (system, worst) = check_files::<S, D, P, W>(system, alloc, paths, progress, out);
    match worst {
        Ok(worst) => (system, Ok(Outcome::CheckedAll(worst))),
        Err(fault) => (system, Err(fault)),
    }
}

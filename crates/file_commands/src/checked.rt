//! The list of the records of the file of a path, once a check has found it sound.
ghost use Rattle.std.specs.Prelude.{◌≡◌, string_bytes};
ghost use Rattle.command_support.specs.Front.{ReadBy};
ghost use Rattle.file_commands.specs.Records.{ListsAs, ListsTo, ToldOfList};

use crate::by_index::{ListStart, read_start};
use crate::by_pages::{check_frames, last_cause};
use crate::listing::{Bounds, is_other};
use crate::shelf::ReadShelf;
use crate::system_asked::SystemAsked;
use command_support::{CommandFault, Outcome, fault_of as not_read};
use command_words::FormWords;
use folder_shelf::{Disk, System};
use record_listing::{Asked, FileList, ListFault, list_checked_shelf};
use record_text::Form;
use std::alloc::Global;
use std::io::{Read, Write};
use std::marker::Brand;
use streams::Progress;
use system_files::{Cause, ReadFault};

/// Why a file was not listed as it was checked: a call on it failed, for the last cause, if memory was
/// had to keep it; or it was changed meanwhile.
fn cause_of<S: System>(system: &S, has_failed: bool) -> Option<Cause> {
    if has_failed {
        last_cause(system)
    } else {
        Some(Cause::Changed)
    }
}

/// How a list ended, as what was done, with the cause of a file that was not read, if it is known.
fn ended(end: Result<FileList, ListFault>, cause: Option<Cause>) -> Result<Outcome, CommandFault>
    ensures { ToldOfList end result }
{
    match end {
        Ok(list) => Ok(Outcome::Records(list)),
        Err(ListFault::Output) => Err(CommandFault::Output),
        Err(ListFault::Memory) => Err(CommandFault::Memory),
        Err(ListFault::Input) => match cause {
            Some(cause) => Err(not_read(ReadFault::Device(cause))),
            None => Err(CommandFault::Input),
        },
    }
}

/// Lists the file of a path that begins with this page, by a system that is as the brand says. Whether
/// a call on the file failed.
fn list_since<S: System + Drop, D: Disk, A: SystemAsked, P: Progress, W: Write>(
    system: S,
    alloc: Global,
    path: String,
    first: &[u8],
    asked: Asked,
    form: &Form,
    progress: &mut P,
    out: &mut W,
) -> (S, Result<FileList, ListFault>, bool)
    requires before { S.state system ≡ A.before }
    ensures { ReadBy S.state system result.0 (ListsTo D.Disk.unseen (string_bytes path) first.now form.now
        asked W.contents out.old out.new result.1) }
{
    let shelf: ReadShelf<'_, S, D, A, P> = ReadShelf::new(alloc, system, path, progress);
    let (shelf, end) = list_checked_shelf(alloc, shelf, first, asked, form, check_frames(), out);
    let (system, has_failed) = shelf.into_system();
    (system, end, has_failed)
}

/// The same, of a path that is lent.
fn list_once<S: System + Drop, D: Disk, P: Progress, W: Write>(
    system: S,
    alloc: Global,
    path: &str,
    first: &[u8],
    asked: Asked,
    form: &Form,
    progress: &mut P,
    out: &mut W,
) -> (S, Result<FileList, ListFault>, bool)
    ensures { ReadBy S.state system result.0 (ListsTo D.Disk.unseen path.now first.now form.now asked
        W.contents out.old out.new result.1) }
{
    match path.to_string(alloc) {
        Ok(path) => list_since::<S, D, Brand, P, W>(
            system, alloc, path, first, asked, form, progress, out,
        ),
        Err(_) => (system, Err(ListFault::Memory), false),
    }
}

/// Writes the lines of the records of the file of a path that are asked for, in the form that is
/// asked for, once a check has found it sound. `LongValue`: nothing was read or written. `Form`,
/// `Deck`, `NoSuchFile`: there is no such form, and the file was not read. Where the columns are those
/// of a deck, and OPEN in it would find the file to be of another schema, a line of each difference is
/// written in place of the records. While the file is checked, it is told how many bytes have come.
/// The file stays under its shared lock until its last line is written. In memory are the frames of a
/// check, and then those of a list, and never the whole file.
pub fn list_checked<S: System + Drop, D: Disk, I: Read, P: Progress, W: Write>(
    system: S,
    alloc: Global,
    path: &str,
    bounds: Bounds<'_>,
    form: FormWords<'_>,
    input: &mut I,
    progress: &mut P,
    out: &mut W,
) -> (S, Result<Outcome, CommandFault>)
    ensures { ReadBy S.state system result.0 (ListsAs D.Disk.unseen (I.remaining input.old) path.now
        bounds.entry form.entry W.contents out.old out.new result.1) }
{
    let mut system = system;
    let start = match read_start(&mut system, alloc, path, bounds, form, input) {
        Ok(start) => start,
        Err(fault) => return (system, Err(fault)),
    };
    let ListStart { asked, told, page } = start;
    match is_other(alloc, page.as_slice(), &told.schema, out) {
        Ok(true) => (system, Ok(Outcome::OtherSchema)),
        Ok(false) => {
            let (system, end, has_failed) = list_once::<S, D, P, W>(
                system,
                alloc,
                path,
                page.as_slice(),
                asked,
                &told.form,
                progress,
                out,
            );
            let done = ended(end, cause_of(&system, has_failed));
            (system, done)
        }
        Err(fault) => (system, Err(fault)),
    }
}

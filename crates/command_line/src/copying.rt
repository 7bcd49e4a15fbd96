//! The copy of the file of a path into the new file of another.
ghost use Rattle.std.specs.Prelude.{◌≡◌, ◌⊎◌, [], false, None, Err, IfSome};
ghost use Rattle.command_words.specs.declared.request.Request.TheVariants.{Copy};
ghost use Rattle.file_building.specs.declared.fault.CopyingFault.TheVariants.{Reading, Writing};
ghost use Rattle.command_line.specs.CallsMade.{calls_beside};
ghost use Rattle.command_line.specs.Copied.{ComesOfCopy, IsToldCopy, is_copy};

use crate::performing::folder_at;
use command_support::{CommandFault, Outcome};
use command_words::{Limits, Request};
use file_building::{Copied, CopyEnd, CopyingFault, copy_path, place_of};
use folder_shelf::{CallRecord, Disk, System};
use io_state::Fault;
use std::alloc::Global;
use std::io::ErrorKind;
use system_files::Cause;

/// What is asked of a copy: the path of a file, that of the new one, the key in whose order its records
/// lie, and the limits of its pages.
#[derive(Clone, Copy)]
pub struct Copying<'a> {
    pub file: &'a str,
    pub new: &'a str,
    pub key: u8,
    pub limits: Limits,
}

/// The copy that a request asks for, if it asks for one.
pub fn copy_asked<'a>(request: &Request<'a>) -> Option<Copying<'a>>
    ensures some { IfSome result (λ copy. request.now ≡ Copy copy.file copy.new copy.key copy.limits) }
    ensures none { result ≡ None → is_copy request.now ≡ false }
{
    match request {
        Request::Copy {
            file,
            new,
            key,
            limits,
        } => Some(Copying {
            file,
            new,
            key: *key,
            limits: *limits,
        }),
        _ => None,
    }
}

/// Why the file was not read, as the system tells it of the last that it did not read.
fn not_read<S: System>(reader: &S) -> CommandFault
    ensures { (result ≡ CommandFault.Input) ⊎ (result ≡ CommandFault.Memory) }
{
    match reader.unread().last() {
        Some(unread) if unread.cause == Cause::Other(ErrorKind::OutOfMemory) =>
            CommandFault::Memory,
        _ => CommandFault::Input,
    }
}

/// What became of a copy, as the program tells it.
fn told<S: System>(
    reader: &S,
    copied: Result<Copied, CopyingFault>,
) -> Result<Outcome, CommandFault>
    ensures { IsToldCopy copied result }
{
    match copied {
        Ok(copied) => Ok(Outcome::Copied(CopyEnd::Whole(copied))),
        Err(CopyingFault::NoneToCopy) => Err(not_read(reader)),
        Err(CopyingFault::NotAccepted) => Ok(Outcome::Copied(CopyEnd::Refused)),
        Err(CopyingFault::NoKey) => Ok(Outcome::Copied(CopyEnd::NoKey)),
        Err(CopyingFault::IsThere) => Ok(Outcome::Copied(CopyEnd::IsThere)),
        Err(CopyingFault::Reading(fault)) => told_reading(reader, fault),
        Err(CopyingFault::Writing(fault)) => told_writing(fault),
    }
}

/// What is told where the file was not read.
fn told_reading<S: System>(reader: &S, fault: Fault) -> Result<Outcome, CommandFault>
    ensures { IsToldCopy (Err (Reading fault)) result }
{
    match fault {
        Fault::Damage => Ok(Outcome::Copied(CopyEnd::Damaged)),
        Fault::Device | Fault::Memory | Fault::Full | Fault::Broken => { Err(not_read(reader)) }
    }
}

/// What is told where the new file was not written.
fn told_writing(fault: Fault) -> Result<Outcome, CommandFault>
    ensures { IsToldCopy (Err (Writing fault)) result }
{
    match fault {
        Fault::Full => Ok(Outcome::Copied(CopyEnd::Full)),
        Fault::Memory => Err(CommandFault::Memory),
        Fault::Device | Fault::Damage | Fault::Broken => Err(CommandFault::Output),
    }
}

/// Copies the file of a path into the new file of another, whose last part is its name in the folder that
/// stands before it. What was asked before the folder is entered is set aside; `reader`, of which nothing
/// was asked, reads the file. `NoFileName`, and a folder that is none: nothing was written, and no folder
/// entered.
pub fn copy<S: System + Drop, D: Disk>(
    system: S,
    reader: S,
    aside: &mut CallRecord,
    alloc: Global,
    asked: Copying<'_>,
) -> (S, S, Result<Outcome, CommandFault>)
    requires none_aside { aside.old.calls ≡ [] }
    requires unread { (S.state reader).calls ≡ [] }
    ensures { ComesOfCopy (S.state system) D.Disk.unseen
        (calls_beside aside.new.calls (S.state result.0) (S.state result.1).calls) asked.entry result.2 }
{
    let Some(place) = place_of(asked.new) else {
        return (system, reader, Err(CommandFault::NoFileName));
    };
    let mut system = system;
    let folder = match folder_at(&mut system, alloc, place.folder) {
        Ok(folder) => folder,
        Err(fault) => return (system, reader, Err(fault)),
    };
    let Ok(file) = asked.file.to_string(alloc) else {
        return (system, reader, Err(CommandFault::Memory));
    };
    system.exchange_record(aside);
    let limits = asked.limits;
    let (reader, system, copied) = copy_path::<S, D>(
        alloc,
        reader,
        system,
        file,
        folder,
        place.name,
        asked.key,
        limits.frames,
        limits.pages,
    );
    let outcome = told(&reader, copied);
    (system, reader, outcome)
}

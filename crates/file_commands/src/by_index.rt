//! The list of the records of the file of a path, read page after page.
ghost use Rattle.std.specs.Prelude.{◌≡◌, []};
ghost use Rattle.command_support.specs.Status.{status_of};
ghost use Rattle.folder_shelf.specs.Reading.{ByReads};
ghost use Rattle.record_listing.specs.ByPath.{ReadsAside};
ghost use Rattle.file_commands.specs.ByIndex.{TellsReason, ToldOfPages, ReadsStart, ListsPages};
ghost use Rattle.file_commands.specs.ByIndex.{ListsAskedByIndex};

use crate::asked_list::Listing;
use crate::listing::{Bounds, asked_by, is_other, values_of};
use command_support::{
    AskedForm, CommandFault, ListForm, Outcome, fault_of as not_read, form_and_conditions,
    read_counted, read_first_page,
};
use command_words::FormWords;
use file_checker::{Verdict, check_bytes};
use folder_shelf::{CallRecord, Disk, System};
use record_listing::{Asked, FileList, ListEnd, ListFault, list_at_path};
use record_text::Form;
use std::alloc::Global;
use std::io::{Read, Write};
use streams::Progress;
use system_files::ReadFault;

/// What is listed of a file, in which form, and the first page of the file.
#[derive(Drop)]
pub struct ListStart {
    pub asked: Asked,
    pub told: ListForm,
    pub page: Vec<u8>,
}

/// Why no file stands in the bytes of the file of a path, as a check of all of them tells. `Input`:
/// also where the check finds a file, which another run has then closed since.
fn reason_of<S: System, P: Progress>(
    system: &mut S,
    alloc: Global,
    path: &str,
    progress: &mut P,
) -> Result<Outcome, CommandFault>
    ensures { ByReads (TellsReason path.now result) (S.state system.old) (S.state system.new) }
{
    let bytes = match read_counted(system, path, progress) {
        Ok(bytes) => bytes,
        Err(fault) => return Err(not_read(fault)),
    };
    match check_bytes(alloc, bytes.as_slice()) {
        Ok(Verdict::Unsound(reason, _)) => Ok(Outcome::Records(FileList::Unsound(reason))),
        Ok(Verdict::Sound { .. }) => Err(CommandFault::Input),
        Err(_) => Err(CommandFault::Memory),
    }
}

/// Why a file was not read page after page, as the system tells it of the last that it did not read.
fn not_listed<S: System>(system: &S) -> CommandFault
    ensures { status_of result ≡ 4 }
{
    match system.unread().last() {
        Some(unread) => not_read(ReadFault::Device(unread.cause)),
        None => CommandFault::Input,
    }
}

/// Tells how a list that was read page after page ended. Where a page is not what its place requires,
/// the whole file is checked, to tell why.
fn told_pages<S: System, P: Progress>(
    system: &mut S,
    alloc: Global,
    path: &str,
    end: Result<ListEnd, ListFault>,
    progress: &mut P,
) -> Result<Outcome, CommandFault>
    ensures { ByReads (ToldOfPages path.now end result) (S.state system.old) (S.state system.new) }
{
    match end {
        Ok(ListEnd::Listed) => Ok(Outcome::Records(FileList::Listed)),
        Ok(ListEnd::NoKey) => Ok(Outcome::Records(FileList::NoKey)),
        Ok(ListEnd::Absent | ListEnd::Unsound | ListEnd::Damaged) => {
            reason_of(system, alloc, path, progress)
        }
        Err(ListFault::Input) => Err(not_listed(system)),
        Err(ListFault::Output) => Err(CommandFault::Output),
        Err(ListFault::Memory) => Err(CommandFault::Memory),
    }
}

/// What is listed of the file of a path, in which form, and the first page of the file.
pub fn read_start<S: System, I: Read>(
    system: &mut S,
    alloc: Global,
    path: &str,
    bounds: Bounds<'_>,
    form: FormWords<'_>,
    input: &mut I,
) -> Result<ListStart, CommandFault>
    ensures { ByReads (ReadsStart (I.remaining input.old) path.now bounds.entry form.entry result)
        (S.state system.old) (S.state system.new) }
{
    let values = match values_of(bounds) {
        Ok(values) => values,
        Err(fault) => return Err(fault),
    };
    let words = bounds.conditions;
    let formed = match form_and_conditions(system, alloc, form, bounds.key, words, input) {
        Ok(formed) => formed,
        Err(fault) => return Err(fault),
    };
    let AskedForm {
        told,
        key,
        conditions,
    } = formed;
    let asked = asked_by(bounds, values, key, conditions);
    match read_first_page(system, path) {
        Ok(page) => Ok(ListStart { asked, told, page }),
        Err(fault) => Err(fault),
    }
}

/// Writes the lines of the records of the file of a path that are asked for, in a form, as the file is
/// read page after page.
fn list_pages<S: System + Drop, D: Disk, P: Progress, W: Write>(
    system: S,
    aside: &mut CallRecord,
    alloc: Global,
    path: &str,
    asked: Asked,
    form: &Form,
    progress: &mut P,
    out: &mut W,
) -> (S, Result<Outcome, CommandFault>)
    requires none_aside { aside.old.calls ≡ [] }
    ensures { ReadsAside S.state system aside.new.calls result
        (ListsPages D.Disk.unseen path.now form.now asked (W.contents out.old) (W.contents out.new)) }
{
    let (system, end) = list_at_path::<S, D, W>(system, aside, alloc, path, asked, form, out);
    let mut system = system;
    let done = told_pages(&mut system, alloc, path, end, progress);
    (system, done)
}

/// Writes the lines of the records that are asked for, in the form that is asked for, as the file is
/// read page after page; no run changes it meanwhile. It is as `list_checked`, but that a file is
/// checked only where a page is met that is not what its place requires: the lines before it stay
/// written then.
pub fn list_records<S: System + Drop, D: Disk, I: Read, P: Progress, W: Write>(
    system: S,
    aside: &mut CallRecord,
    alloc: Global,
    listing: Listing<'_>,
    input: &mut I,
    progress: &mut P,
    out: &mut W,
) -> (S, Result<Outcome, CommandFault>)
    requires none_aside { aside.old.calls ≡ [] }
    ensures { ReadsAside S.state system aside.new.calls result (ListsAskedByIndex D.Disk.unseen
        (I.remaining input.old) listing.entry W.contents out.old out.new) }
{
    let mut system = system;
    let path = listing.file;
    let start = match read_start(
        &mut system,
        alloc,
        path,
        listing.bounds,
        listing.form,
        input,
    ) {
        Ok(start) => start,
        Err(fault) => return (system, Err(fault)),
    };
    let ListStart { asked, told, page } = start;
    match is_other(alloc, page.as_slice(), &told.schema, out) {
        Ok(true) => (system, Ok(Outcome::OtherSchema)),
        Ok(false) => list_pages::<S, D, P, W>(
            system, aside, alloc, path, asked, &told.form, progress, out,
        ),
        Err(fault) => (system, Err(fault)),
    }
}

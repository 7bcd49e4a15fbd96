//! The list of the records of a file, and of those that are left in one, in the encoding that words ask
//! for.
ghost use Rattle.std.specs.Prelude.{◌≡◌, ◌≢◌, [], IfErr};
ghost use Rattle.record_listing.specs.ByPath.{ReadsAside};
ghost use Rattle.command_support.specs.Front.{ReadBy};
ghost use Rattle.command_support.specs.Status.{status_of};
ghost use Rattle.command_line.specs.Encoded.{ListsIn, SalvagesIn};
ghost use Rattle.command_line.specs.Lists.{ListsAsAsked};
ghost use Rattle.std.specs.Prelude.{codes};

use crate::encoding::{Encoding, backslashes_of, encoding_of};
use crate::handing_over::hand_over;
use command_support::{CommandFault, FormFault, Outcome};
use file_commands::{Listing, Salvaging, list_checked, list_records, salvage_path};
use folder_shelf::{CallRecord, Disk, System};
use std::alloc::Global;
use std::io::{Read, Write};
use streams::Progress;

/// ListsAsAsked the records of the file of a path, after a check of it or as it is read. What was asked before
/// the file is read page after page is set aside.
fn list<S: System + Drop, D: Disk, I: Read, P: Progress, W: Write>(
    system: S,
    aside: &mut CallRecord,
    alloc: Global,
    listing: Listing<'_>,
    input: &mut I,
    progress: &mut P,
    out: &mut W,
) -> (S, Result<Outcome, CommandFault>)
    requires none_aside { aside.old.calls ≡ [] }
    ensures so { ReadsAside S.state system aside.new.calls result (ListsAsAsked D.Disk.unseen (I.remaining input.old)
        listing.entry W.contents out.old out.new) }
    ensures untouched { IfErr result.1 (λ fault. status_of fault ≢ 4 → out.new ≡ out.old) }
{
    let checked = listing.checked;
    if checked {
        let Listing {
            file,
            bounds,
            form,
            checked: _,
        } = listing;
        return list_checked::<S, D, _, P, W>(
            system, alloc, file, bounds, form, input, progress, out,
        );
    }
    list_records::<S, D, _, P, W>(system, aside, alloc, listing, input, progress, out)
}

/// So in UTF-8. The text of the list is made whole before it is written.
fn list_in_utf_8<S: System + Drop, D: Disk, I: Read, P: Progress, W: Write>(
    system: S,
    aside: &mut CallRecord,
    alloc: Global,
    listing: Listing<'_>,
    input: &mut I,
    progress: &mut P,
    out: &mut W,
) -> (S, Result<Outcome, CommandFault>)
    requires none_aside { aside.old.calls ≡ [] }
    requires encoding { listing.form.encoding.now ≡ codes "utf-8" }
    ensures { ReadsAside S.state system aside.new.calls result (ListsIn D.Disk.unseen (I.remaining input.old)
        listing.entry W.contents out.old out.new) }
{
    let mut text = Vec::new(alloc);
    let (system, listed) = list::<S, D, I, P, Vec<u8>>(
        system, aside, alloc, listing, input, progress, &mut text,
    );
    let told = hand_over(
        alloc,
        backslashes_of(listing.form.kind),
        text.as_slice(),
        listed,
        out,
    );
    (system, told)
}

/// So in the encoding that the words ask for. `Form`: there is no such encoding, and nothing was read.
pub fn list_encoded<S: System + Drop, D: Disk, I: Read, P: Progress, W: Write>(
    system: S,
    aside: &mut CallRecord,
    alloc: Global,
    listing: Listing<'_>,
    input: &mut I,
    progress: &mut P,
    out: &mut W,
) -> (S, Result<Outcome, CommandFault>)
    requires none_aside { aside.old.calls ≡ [] }
    ensures so { ReadsAside S.state system aside.new.calls result (ListsIn D.Disk.unseen
        (I.remaining input.old) listing.entry W.contents out.old out.new) }
    ensures untouched { IfErr result.1 (λ fault. status_of fault ≢ 4 → out.new ≡ out.old) }
{
    match encoding_of(listing.form.encoding) {
        None => (system, Err(CommandFault::Form(FormFault::Encoding))),
        Some(Encoding::Ascii) => list::<S, D, I, P, W>(
            system, aside, alloc, listing, input, progress, out,
        ),
        Some(Encoding::Utf8) => list_in_utf_8::<S, D, I, P, W>(
            system, aside, alloc, listing, input, progress, out,
        ),
    }
}

/// Salvages the records that are left in the file of a path in UTF-8. Their text is made whole before it
/// is written; the slots in doubt are told in ASCII.
fn salvage_in_utf_8<S: System, I: Read, E: Write, W: Write>(
    system: &mut S,
    alloc: Global,
    asked: Salvaging<'_>,
    input: &mut I,
    err: &mut E,
    out: &mut W,
) -> Result<Outcome, CommandFault>
    requires encoding { asked.form.encoding.now ≡ codes "utf-8" }
    ensures { ReadBy S.state system.old system.new (SalvagesIn (I.remaining input.old) asked.entry
        E.contents err.old err.new W.contents out.old out.new result) }
{
    let mut text = Vec::new(alloc);
    let salvaged = salvage_path(system, alloc, asked, input, err, &mut text);
    hand_over(
        alloc,
        backslashes_of(asked.form.kind),
        text.as_slice(),
        salvaged,
        out,
    )
}

/// Salvages the records that are left in the file of a path, in the encoding that the words ask for.
/// `Form`: also where there is no such encoding; nothing was read then.
pub fn salvage_encoded<S: System, I: Read, E: Write, W: Write>(
    system: &mut S,
    alloc: Global,
    asked: Salvaging<'_>,
    input: &mut I,
    err: &mut E,
    out: &mut W,
) -> Result<Outcome, CommandFault>
    ensures { ReadBy S.state system.old system.new (SalvagesIn (I.remaining input.old) asked.entry
        E.contents err.old err.new W.contents out.old out.new result) }
{
    match encoding_of(asked.form.encoding) {
        None => Err(CommandFault::Form(FormFault::Encoding)),
        Some(Encoding::Ascii) => salvage_path(system, alloc, asked, input, err, out),
        Some(Encoding::Utf8) => salvage_in_utf_8(system, alloc, asked, input, err, out),
    }
}

//! What became of the words of a command line.
ghost use Rattle.std.specs.Prelude.{◌≡◌};
ghost use Rattle.command_support.specs.Status.{status_by, status_of_list, status_of_load, status_of_count};
ghost use Rattle.command_support.specs.Status.{status_of_comparison, status_where, status_for, exit_status};
ghost use Rattle.command_support.specs.Status.{status_of_worst, status_of_salvage, status_of_copy};

use crate::fault::CommandFault;
use deck_runner::RunEnd;
use explanations::REASON_LINES;
use file_building::CopyEnd;
use file_checker::{Reason, Verdict};
use file_reports::{Comparison, FileStatisticsEnd, Refusal};
use pages::FaultPlace;
use record_listing::FileList;
use record_loading::{ShelfEnd, is_loaded, write_end_mistake};
use salvaged_records::Salvage;
use std::io::{self, Write};

/// What is worst of several files that were checked.
#[derive(Clone, Copy, Debug, PartialEq, Eq)]
pub enum WorstCheck {
    /// All of them are sound.
    AllSound,
    /// All were read, and one is not sound.
    Unsound,
    /// One cannot be read.
    Unread,
}

/// What was done, whole.
#[derive(Clone, Copy, Debug, PartialEq, Eq)]
pub enum Outcome {
    /// Help or the version was written.
    Helped,
    /// A file was checked, and this verdict written.
    Checked(Verdict),
    /// Files were checked, and a line of each was written: what was worst.
    CheckedAll(WorstCheck),
    /// A run ended.
    Ended(RunEnd),
    /// Requests were answered to the end of the input.
    Served,
    /// The schema of a file was written.
    SchemaTold,
    /// The differences of the schema of a file from that of a deck were written, if there are any.
    SchemaCompared(Comparison),
    /// A file has no schema: its first page is none.
    SchemaRefused(Refusal),
    /// What a number means was written.
    Explained,
    /// The list of a deck was written.
    Listed,
    /// The records of a file were listed, or it was found why not.
    Records(FileList),
    /// The records of a file were not listed or salvaged, since it is of another schema than the file
    /// of a deck that was named: their differences were written.
    OtherSchema,
    /// A deck was written as a COBOL program.
    InCobol,
    /// A text was loaded into a file, up to this end.
    Loaded(ShelfEnd),
    /// The pages of a file were counted, or it was found why not.
    Counted(FileStatisticsEnd),
    /// The records of a file were salvaged, all of them or those that were found; or there are none.
    Salvaged(Salvage),
    /// A file was copied into a new one, or it was found why not.
    Copied(CopyEnd),
}

/// The exit status that tells what became of the list of a file.
pub fn status_by_list(list: FileList) -> u8
    ensures { result ≡ status_of_list list }
{
    match list {
        FileList::Listed => 0,
        FileList::NoKey | FileList::Unsound(_) => 1,
    }
}

/// The exit status that tells whether the schema of a file is that of a deck.
pub fn status_by_comparison(told: Comparison) -> u8
    ensures { result ≡ status_of_comparison told }
{
    match told {
        Comparison::Same => 0,
        Comparison::Different => 1,
    }
}

/// The exit status that tells what became of a load.
pub fn status_by_load(end: ShelfEnd) -> u8
    ensures { result ≡ status_of_load end }
{
    match end {
        ShelfEnd::IsThere => 1,
        ShelfEnd::Loaded(end) => status_if_all(is_loaded(end)),
    }
}

/// The exit status that tells whether the pages of a file were counted.
pub fn status_by_count(end: FileStatisticsEnd) -> u8
    ensures { result ≡ status_of_count end }
{
    match end {
        FileStatisticsEnd::Listed => 0,
        FileStatisticsEnd::Unsound(..) => 1,
    }
}

/// The exit status that tells whether all records of a file were salvaged.
pub fn status_by_salvage(end: Salvage) -> u8
    ensures { result ≡ status_of_salvage end }
{
    match end {
        Salvage::All(_) => 0,
        Salvage::Slots(..) | Salvage::Unsound(_) => 1,
    }
}

/// The exit status that tells what became of a copy.
pub fn status_by_copy(end: CopyEnd) -> u8
    ensures { result ≡ status_of_copy end }
{
    match end {
        CopyEnd::Whole(_) => 0,
        CopyEnd::Refused | CopyEnd::NoKey | CopyEnd::Damaged | CopyEnd::IsThere => 1,
        CopyEnd::Full => 4,
    }
}

/// The exit status that tells whether all lines were loaded.
pub fn status_if_all(loaded: bool) -> u8
    ensures { result ≡ status_where loaded }
{
    if loaded { 0 } else { 1 }
}

/// The exit status that tells what is worst of several files.
pub fn status_by_worst(worst: WorstCheck) -> u8
    ensures { result ≡ status_of_worst worst }
{
    match worst {
        WorstCheck::AllSound => 0,
        WorstCheck::Unsound => 1,
        WorstCheck::Unread => 4,
    }
}

/// Tells why the records of a file were not listed, if they were not.
fn tell_list<E: Write>(list: FileList, err: &mut E) -> io::Result<()> {
    match list {
        FileList::Listed => Ok(()),
        FileList::NoKey => writeln!(err, "cobix: the file has no such key"),
        FileList::Unsound(reason) => writeln!(err, "unsound {}", reason.number()),
    }
}

/// Tells the reason for which a file is not sound: its number, and then where it was met and what
/// it means, unless that is the file as a whole.
fn tell_reason<E: Write>(reason: Reason, place: FaultPlace, err: &mut E) -> io::Result<()> {
    let number = reason.number();
    writeln!(err, "unsound {number}")?;
    match REASON_LINES.get(usize::from(number).saturating_sub(1)) {
        Some((_, meaning)) if place != FaultPlace::File => writeln!(err, "{place}: {meaning}"),
        _ => Ok(()),
    }
}

/// The exit status that tells a verdict.
pub fn status_by_verdict(verdict: Verdict) -> u8
    ensures { result ≡ status_by verdict }
{
    match verdict {
        Verdict::Sound { .. } => 0,
        Verdict::Unsound(..) => 1,
    }
}

/// Tells what was salvaged.
fn tell_salvage<E: Write>(end: Salvage, err: &mut E) -> io::Result<()> {
    match end {
        Salvage::All(records) => writeln!(err, "salvaged {records} records, all of them"),
        Salvage::Slots(records, 0) => writeln!(err, "salvaged {records} records, in doubt"),
        Salvage::Slots(records, told) => {
            writeln!(err, "salvaged {records} records, {told} in doubt")
        }
        Salvage::Unsound(reason) => tell_reason(reason, FaultPlace::File, err),
    }
}

/// Tells what was copied, or why it was not.
fn tell_copy<E: Write>(end: CopyEnd, err: &mut E) -> io::Result<()> {
    let refused = match end {
        CopyEnd::Whole(copied) => {
            let (records, pages) = (copied.records, copied.pages);
            return writeln!(err, "copied {records} records, {pages} pages");
        }
        CopyEnd::NoKey => return writeln!(err, "cobix: the file has no such key"),
        CopyEnd::IsThere => return writeln!(err, "cobix: the new file is there already"),
        CopyEnd::Full => {
            writeln!(err, "{}", CommandFault::Output)?;
            return writeln!(
                err,
                "  the new file needs more pages than '--pages' gives it"
            );
        }
        CopyEnd::Refused => "refused",
        CopyEnd::Damaged => "damaged",
    };
    writeln!(err, "cobix: the file is {refused}")?;
    writeln!(
        err,
        "  'cobix check FILE' tells why, and 'cobix salvage FILE' lists what is left"
    )
}

/// Tells that a file was not made, or what is wrong with the line that ended a load, if it is no
/// record's.
fn tell_load<E: Write>(end: &ShelfEnd, err: &mut E) -> io::Result<()> {
    match end {
        ShelfEnd::IsThere => writeln!(err, "cobix: the file is there already"),
        ShelfEnd::Loaded(end) => write_end_mistake(err, *end),
    }
}

/// Tells that, and answers the exit status that tells what became of a load.
fn report_load<E: Write>(end: &ShelfEnd, err: &mut E) -> u8
    ensures { result ≡ status_of_load end.now }
{
    let _ = tell_load(end, err);
    status_by_load(*end)
}

/// Tells what was copied, and answers the exit status that tells what became of a copy.
fn report_copy<E: Write>(end: CopyEnd, err: &mut E) -> u8
    ensures { result ≡ status_of_copy end }
{
    let _ = tell_copy(end, err);
    status_by_copy(end)
}

impl Outcome {
    /// Tells what was salvaged or copied of a file, or why a file has no schema or no list, is of another schema
    /// than a deck, was not made, or was not read, on standard error, as far as that takes it, and
    /// answers the exit status.
    fn report<E: Write>(self, err: &mut E) -> u8
        ensures { result ≡ status_for self }
    {
        if let Outcome::SchemaRefused(refusal) = self {
            let _ = writeln!(err, "unsound {}", refusal.number());
        }
        if let Outcome::Records(list) = self {
            let _ = tell_list(list, err);
        }
        if let Outcome::OtherSchema = self {
            let _ = writeln!(err, "cobix: the file is of another schema than the deck");
        }
        if let Outcome::Counted(FileStatisticsEnd::Unsound(reason, place)) = self {
            let _ = tell_reason(reason, place, err);
        }
        if let Outcome::Salvaged(end) = self {
            let _ = tell_salvage(end, err);
        }
        if let Outcome::CheckedAll(WorstCheck::Unread) = self {
            let _ = writeln!(err, "{}", CommandFault::Input);
        }
        match self {
            Outcome::Loaded(end) => report_load(&end, err),
            Outcome::Copied(end) => report_copy(end, err),
            other => other.status(),
        }
    }

    fn status(self) -> u8
        ensures { result ≡ status_for self }
    {
        match self {
            Outcome::Helped | Outcome::Ended(_) | Outcome::Served => 0,
            Outcome::SchemaTold => 0,
            Outcome::SchemaCompared(told) => status_by_comparison(told),
            Outcome::SchemaRefused(_) | Outcome::OtherSchema => 1,
            Outcome::Explained | Outcome::Listed | Outcome::InCobol => 0,
            Outcome::Records(list) => status_by_list(list),
            Outcome::Loaded(end) => status_by_load(end),
            Outcome::Counted(end) => status_by_count(end),
            Outcome::Salvaged(end) => status_by_salvage(end),
            Outcome::Copied(end) => status_by_copy(end),
            Outcome::Checked(verdict) => status_by_verdict(verdict),
            Outcome::CheckedAll(worst) => status_by_worst(worst),
        }
    }
}

/// The exit status of what happened. A fault, and why a file has no schema or no list, is told as
/// far as the writer takes it.
pub fn report<E: Write>(outcome: Result<Outcome, CommandFault>, err: &mut E) -> u8
    ensures { result ≡ exit_status outcome }
{
    match outcome {
        Ok(outcome) => outcome.report(err),
        Err(fault) => fault.report(err),
    }
}

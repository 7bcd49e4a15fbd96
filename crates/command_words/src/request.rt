//! What a command line asks for.
ghost use Rattle.std.specs.Prelude.{◌≡◌, map, string_bytes, IfOk, IfErr};
ghost use Rattle.clap.specs.Words.{app_of, subcommand_rows_of};
ghost use Rattle.command_words.specs.CommandLine.{program_app};
ghost use Rattle.command_words.specs.Asks.{Ask, AskNothing, IsHelpText, IfUsage, IsMistake};
ghost use Rattle.command_words.specs.Asks.{IsRequestMet, IsNone, seconds_of};

use crate::asked::request_of;
use crate::fault::WordsFault;
use crate::form_words::FormWords;
use crate::limits::Limits;
use crate::line_options::LineOptions;
use crate::subcommands::command;
use clap::error::ErrorKind;
use clap::{ArgMatches, Command, Error};
use std::alloc::Global;

/// What a command line asks for. `wait` is how many seconds a lock is waited for that another run has.
#[derive(Drop)]
pub enum Request<'a> {
    /// The run of the deck in the file of this path, over the files of a folder; where it is strict,
    /// its exit status tells whether a verb failed for no fault of the deck.
    Run {
        deck: &'a str,
        folder: &'a str,
        limits: Limits,
        strict: bool,
        wait: u32,
    },
    /// The checks of the files of these paths, without progress where it is quiet.
    Check {
        files: Vec<&'a str>,
        quiet: bool,
        wait: u32,
    },
    /// To perform verbs that are asked for on standard input, on the files of a folder.
    Serve {
        folder: &'a str,
        limits: Limits,
        wait: u32,
    },
    /// The schema of the file of this path, by its first page; or how it differs from that of the
    /// file of this name in a deck.
    Schema {
        file: &'a str,
        deck: Option<&'a str>,
        name: Option<&'a str>,
    },
    /// What the number of this kind means.
    Explain {
        kind: &'a str,
        number: &'a str,
    },
    /// What the deck in the file of this path describes and does.
    Deck {
        deck: &'a str,
    },
    /// The records of the file of this path, in the order of a key, which is a number or a name: from
    /// this value on, to that one, and so many at most of those for which these conditions hold, in this
    /// form; after a check of the whole file, or as it is read; without progress where it is quiet.
    List {
        file: &'a str,
        key: &'a str,
        from: Option<&'a str>,
        to: Option<&'a str>,
        first: u64,
        conditions: Vec<&'a str>,
        form: FormWords<'a>,
        checked: bool,
        quiet: bool,
        wait: u32,
    },
    /// The deck in the file of this path as a program in COBOL: in fixed form, or in free form.
    Cobol {
        deck: &'a str,
        fixed: bool,
    },
    /// To write the lines of the text of this path, or of standard input where it is `-`, which are
    /// in this form and encoding, as records into the file of this name in the deck in the file of a path: into
    /// the file that is there, or into a new one; which lines those are, whether one that is rejected
    /// ends that, and in how much memory; with a new file of the lines that were rejected, where its path
    /// is given; without progress where it is quiet.
    Load {
        deck: &'a str,
        folder: &'a str,
        file: &'a str,
        text: &'a str,
        form: &'a str,
        encoding: &'a str,
        into: bool,
        limits: Limits,
        lines: LineOptions,
        rejects: Option<&'a str>,
        quiet: bool,
    },
    /// What the file of this path has: its pages, its slots, and the levels of its trees.
    Stat {
        file: &'a str,
    },
    /// The records that are left in the file of this path, whether or not its gate is closed, in this
    /// form, with their places or without; by the lengths of the file of the deck of the form, where its
    /// first page is lost.
    Salvage {
        file: &'a str,
        form: FormWords<'a>,
        places: bool,
    },
    /// To copy the file of this path into a new file, whose name and folder the other path tells, with
    /// its records in the order of a key.
    Copy {
        file: &'a str,
        new: &'a str,
        key: u8,
        limits: Limits,
    },
    /// This text: help, or the version.
    Help(Error),
}

impl Request<'_> {
    /// Whether it is asked that no progress is shown.
    pub fn is_quiet(&self) -> bool {
        match self {
            Request::Check { quiet, .. }
            | Request::List { quiet, .. }
            | Request::Load { quiet, .. } => *quiet,
            _ => false,
        }
    }

    /// How many seconds a lock that another run has is waited for.
    pub fn seconds(&self) -> u32
        ensures { result ≡ seconds_of self.now }
    {
        match self {
            Request::Run { wait, .. }
            | Request::Check { wait, .. }
            | Request::Serve { wait, .. }
            | Request::List { wait, .. } => *wait,
            _ => 0,
        }
    }
}

/// What an error of the parse means: it shows help, or tells a mistake.
fn without_matches<'a>(error: Error) -> Result<Request<'a>, WordsFault>
    ensures help { IfOk result (λ request. (request ≡ Request.Help error) × IsHelpText error) }
    ensures mistake { IfErr result (IfUsage (IsMistake error)) }
{
    if error.kind() == ErrorKind::OutOfMemory {
        return Err(WordsFault::Memory);
    }
    if error.use_stderr() {
        Err(WordsFault::Usage(error))
    } else {
        Ok(Request::Help(error))
    }
}

/// Why the words ask for nothing where the program's command line takes them: the usage is told.
fn wanted(command: &mut Command<'_>) -> WordsFault {
    match command.error(
        ErrorKind::MissingRequiredArgument,
        "a deck and a folder, or a file, are wanted",
    ) {
        Ok(text) => WordsFault::Usage(text),
        Err(_) => WordsFault::Memory,
    }
}

/// What the matches of the program's words ask for.
fn with_matches<'a>(
    alloc: Global,
    command: &mut Command<'_>,
    matches: &ArgMatches<'a>,
) -> Result<Request<'a>, WordsFault>
    ensures asked { IfOk result (IsRequestMet (subcommand_rows_of matches.now)) }
    ensures nothing { IfErr result (IfUsage (λ _. IsNone (subcommand_rows_of matches.now))) }
{
    match request_of(alloc, matches) {
        Ok(Some(request)) => Ok(request),
        Ok(None) => Err(wanted(command)),
        Err(_) => Err(WordsFault::Memory),
    }
}

/// What the words ask for by the program's command line.
fn parse<'a>(
    alloc: Global,
    command: &mut Command<'a>,
    words: &'a [String],
) -> Result<Request<'a>, WordsFault>
    requires { app_of command.old ≡ program_app }
    ensures asked { IfOk result (Ask (map string_bytes words.entry.now)) }
    ensures nothing { IfErr result (IfUsage (AskNothing (map string_bytes words.entry.now))) }
{
    match command.try_get_matches_from_mut(words) {
        Ok(matches) => with_matches(alloc, command, &matches),
        Err(error) => without_matches(error),
    }
}

/// What the words ask for, of which the first is the program's name. `Usage`: they are not
/// understood. `Memory`.
pub fn read_words<'a>(alloc: Global, words: &'a [String]) -> Result<Request<'a>, WordsFault>
    ensures asked { IfOk result (Ask (map string_bytes words.entry.now)) }
    ensures nothing { IfErr result (IfUsage (AskNothing (map string_bytes words.entry.now))) }
{
    let mut command = command(alloc)?;
    parse(alloc, &mut command, words)
}

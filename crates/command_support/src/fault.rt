//! Why the program ends without the end of a run.
ghost use Rattle.std.specs.Prelude.{◌≡◌, ◌≢◌, ◌⊎◌};
ghost use Rattle.std.specs.IoError.{error_kind};
ghost use Rattle.command_support.specs.Status.{status_of};
ghost use Rattle.command_support.specs.Told.{told_as, words_told_as};

use crate::condition_fault::ConditionFault;
use crate::form_fault::FormFault;
use command_words::WordsFault;
use deck_listing::DeckFaults;
use deck_runner::RunFault;
use explanations::{FAULT_NUMBERS, REASON_NUMBERS, STATUS_NUMBERS};
use file_control::DeckFault;
use io_state::Name;
use std::alloc::{AllocError, AllocFailed};
use std::fmt;
use std::io::{self, ErrorKind, Write};
use thiserror::Error;

/// A deck that is refused: with which fault, and why, in words, with further faults.
#[derive(Debug, Drop)]
pub struct RefusedDeck {
    pub fault: DeckFault,
    pub faults: DeckFaults,
}

impl fmt::Display for RefusedDeck {
    fn fmt<W: fmt::Write>(&self, f: &mut fmt::Formatter<W>) -> fmt::Result {
        let fault = self.fault;
        write!(f, "{fault}")
    }
}

/// A name that is of no key of a file of a deck: the name, and that of the file.
#[derive(Debug, Drop)]
pub struct UnknownKey {
    pub name: String,
    pub file: Name,
}

impl fmt::Display for UnknownKey {
    fn fmt<W: fmt::Write>(&self, f: &mut fmt::Formatter<W>) -> fmt::Result {
        let name = self.name.as_str();
        let file = self.file.as_str();
        write!(f, "{name} is no key of {file}")
    }
}

/// Why no run ended.
///
/// | CommandFault | Exit status | On standard error |
/// |---|---|---|
/// | the deck is refused | 2 | `cobix: line L: fault C` |
/// | a deck to be listed, or written in COBOL, is refused | 2 | the same, then line, word and reason, and those of further faults |
/// | the command line is not understood | 3 | why, and the usage |
/// | a file of a deck has no key of a name | 1 | `cobix: NAME is no key of FILE` |
/// | a key has a name, and there is no deck for it | 3 | `cobix: `, and what a key is |
/// | a deck has no such file | 3 | `cobix: the deck has no file of this name` |
/// | there is no such form of a list, or `--deck` or `--file` is alone | 3 | `cobix: `, and why |
/// | a condition of a list is none, or there is no deck for it | 3 | `cobix: `, and why |
/// | there is no such number to explain | 3 | which there are |
/// | a value is longer than that of any key | 3 | `cobix: a value of a key has at most 250 bytes` |
/// | rejected lines are to be written, and none is passed over | 3 | `cobix: '--rejects' wants '--keep-going'` |
/// | a new file would have no name of a file | 3 | `cobix: `, and which names there are |
/// | the deck cannot be read | 4 | `cobix: input` |
/// | the transcript, or the help, cannot be written | 4 | `cobix: output` |
/// | want of memory | 4 | `cobix: memory` |
#[derive(Debug, Drop, Error)]
pub enum CommandFault {
    #[error("cobix: {0}")]
    Deck(DeckFault),
    #[error("cobix: {0}")]
    NotListed(RefusedDeck),
    #[error("cobix: the deck has no file of this name")]
    NoSuchFile,
    #[error("cobix: {0}")]
    NoSuchKey(UnknownKey),
    #[error("cobix: a key is a number from 0 to 8, or, with '--deck' and '--file', the name of a key")]
    LoneKeyName,
    #[error("cobix: {0}")]
    Form(FormFault),
    #[error("cobix: {0}")]
    Condition(ConditionFault),
    #[error("cobix: there is no such status, fault or reason")]
    Unexplained,
    #[error("cobix: a value of a key has at most 250 bytes")]
    LongValue,
    #[error("cobix: '--rejects' wants '--keep-going'")]
    LoneRejects,
    #[error("cobix: the name of the new file has to be of 1 to 64 letters, digits, '.', '-' or '_', the first a \
         letter or a digit")]
    NoFileName,
    #[error(transparent)]
    Usage(clap::Error),
    #[error("cobix: input")]
    Input,
    #[error("cobix: output")]
    Output,
    #[error("cobix: memory")]
    Memory,
}

/// Tells the fault of a deck, and why, in words, and then further faults.
fn tell_refused<E: Write>(refused: &RefusedDeck, err: &mut E) -> io::Result<()> {
    writeln!(err, "cobix: {refused}")?;
    let first = &refused.faults.first;
    writeln!(err, "{first}")?;
    for further in &refused.faults.further {
        writeln!(err, "{further}")?;
    }
    Ok(())
}

/// Tells which numbers are explained.
fn tell_numbers<E: Write>(err: &mut E) -> io::Result<()> {
    writeln!(
        err,
        "cobix: there is no such status, fault or reason; there are"
    )?;
    writeln!(err, "  status{STATUS_NUMBERS}")?;
    writeln!(err, "  fault{FAULT_NUMBERS}")?;
    writeln!(err, "  unsound{REASON_NUMBERS}")
}

impl CommandFault {
    /// Why something was not read: for want of memory, or for another reason.
    pub fn of_input(error: io::Error) -> CommandFault
        ensures told { (result ≡ CommandFault.Input) ⊎ (result ≡ CommandFault.Memory) }
        ensures memory { error_kind error ≡ ErrorKind.OutOfMemory → result ≡ CommandFault.Memory }
        ensures input { error_kind error ≢ ErrorKind.OutOfMemory → result ≡ CommandFault.Input }
    {
        if error.kind() == ErrorKind::OutOfMemory {
            CommandFault::Memory
        } else {
            CommandFault::Input
        }
    }

    /// Why words were not read.
    pub fn of_words(fault: WordsFault) -> CommandFault
        ensures { result ≡ words_told_as fault }
    {
        match fault {
            WordsFault::Usage(error) => CommandFault::Usage(error),
            WordsFault::Memory => CommandFault::Memory,
        }
    }

    /// Why a run did not end.
    pub fn of_run(fault: RunFault) -> CommandFault
        ensures { result ≡ told_as fault }
    {
        match fault {
            RunFault::Deck(fault) => CommandFault::Deck(fault),
            RunFault::Output => CommandFault::Output,
            RunFault::Memory => CommandFault::Memory,
        }
    }

    /// Tells the fault on standard error, as far as that takes it, and answers the exit status.
    pub fn report<E: Write>(self, err: &mut E) -> u8
        ensures { result ≡ status_of self }
    {
        let _ = self.write(err);
        self.status()
    }

    fn write<E: Write>(&self, err: &mut E) -> io::Result<()> {
        match self {
            // Its text ends its own lines.
            CommandFault::Usage(error) => write!(err, "{error}"),
            CommandFault::NotListed(refused) => tell_refused(refused, err),
            CommandFault::Unexplained => tell_numbers(err),
            fault => writeln!(err, "{fault}"),
        }
    }

    fn status(&self) -> u8
        ensures { result ≡ status_of self.now }
    {
        match self {
            CommandFault::NoSuchKey(_) => 1,
            CommandFault::Deck(_) => 2,
            CommandFault::NotListed(_) => 2,
            CommandFault::Usage(_) => 3,
            CommandFault::NoSuchFile | CommandFault::Form(_) | CommandFault::Condition(_) => 3,
            CommandFault::Unexplained | CommandFault::LongValue | CommandFault::LoneKeyName => 3,
            CommandFault::LoneRejects | CommandFault::NoFileName => 3,
            CommandFault::Input | CommandFault::Output | CommandFault::Memory => 4,
        }
    }
}

impl From<AllocError> for CommandFault {
    ghost use Rattle.std.specs.Prelude.{◌≡◌};
    ghost use Rattle.command_support.specs.declared.fault.CommandFault.TheVariants.{Memory};

    ghost from_gives = { λ _ fault. fault ≡ Memory };

    fn from(_error: AllocError) -> CommandFault {
        CommandFault::Memory
    }
}

impl<T: Drop> From<AllocFailed<T>> for CommandFault {
    ghost use Rattle.std.specs.Prelude.{◌≡◌};
    ghost use Rattle.command_support.specs.declared.fault.CommandFault.TheVariants.{Memory};

    ghost from_gives = { λ _ fault. fault ≡ Memory };

    fn from(_error: AllocFailed<T>) -> CommandFault {
        CommandFault::Memory
    }
}

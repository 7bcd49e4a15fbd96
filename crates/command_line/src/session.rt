//! The answering of requests over the files of a folder.
ghost use Rattle.std.specs.Prelude.{◌≡◌, [], string_bytes, IfErr};
ghost use Rattle.folder_shelf.specs.Within.{StaysWithin};
ghost use Rattle.command_support.specs.Status.{status_of};
ghost use Rattle.command_line.specs.Session.{ServedAtOver, EndsWithoutMemory, session_told_as};
ghost use Rattle.command_line.specs.Session.{session_end_as};

use crate::devices::{Over, Seen};
use command_support::CommandFault;
use command_words::Limits;
use folder_shelf::{Disk, FolderShelf, System};
use serve::{ServeFault, serve};
use shelf_library::ShelfLibrary;
use shelf_run::exact_on_shelf;
use std::alloc::Global;
use std::io::{Read, Write};
use streams::{ReadsAhead, StandardInput};

/// How a session ended: why, if not with its input, and how many of the files that were open then were
/// closed with another status than 00.
#[derive(Drop)]
pub struct ServedEnd {
    pub requests: Result<(), CommandFault>,
    pub unclosed: usize,
}

/// Why a session ended, as the program tells it.
fn program_fault(fault: ServeFault) -> CommandFault
    ensures { result ≡ session_told_as fault }
{
    match fault {
        ServeFault::Input => CommandFault::Input,
        ServeFault::Output => CommandFault::Output,
        ServeFault::Memory => CommandFault::Memory,
    }
}

/// How the requests ended, as the program tells it.
fn ended(requests: Result<(), ServeFault>) -> Result<(), CommandFault>
    ensures told { result ≡ session_end_as requests }
    ensures fault { IfErr result (λ fault. status_of fault ≡ 4) }
{
    match requests {
        Ok(()) => Ok(()),
        Err(fault) => Err(program_fault(fault)),
    }
}

/// Answers the requests of an input over the files of a folder of a system whose record is empty: as the
/// definitions say of them, over one library, which is new at first; and exactly so, from what the folder
/// held, where no answer and no close at the end tells of a fault. The system that it gives back has what
/// was asked and answered, and what the input gave is noted in it. `Memory`: nothing was read or written.
pub fn serve_folder<S: System + Drop, D: Disk, I: Read + ReadsAhead, W: Write>(
    system: S,
    alloc: Global,
    folder: String,
    limits: Limits,
    input: &mut StandardInput<I>,
    out: &mut W,
) -> (S, ServedEnd)
    requires unasked { (S.state system).calls ≡ [] }
    ensures served { ServedAtOver ⟦<Over<S, D, I, W> as Seen>⟧.devices (string_bytes folder) limits
        input.old input.new out.old out.new result }
    ensures memory { EndsWithoutMemory (string_bytes folder) input.old input.new out.old out.new
        (S.state result.0) result.1 }
    ensures fault { IfErr result.1.requests (λ fault. status_of fault ≡ 4) }
    ensures within { StaysWithin (S.state result.0) }
{
    // Brings the law that such sessions are exact.
    exact_on_shelf::<FolderShelf<S, D>>();
    let shelf: FolderShelf<S, D> = FolderShelf::new(system, folder);
    let library = ShelfLibrary::new(alloc, shelf, limits.pages, limits.frames);
    let end = serve(alloc, library, input, out);
    let session = ServedEnd {
        requests: ended(end.requests),
        unclosed: end.unclosed,
    };
    (end.library.into_shelf().into_system(), session)
}

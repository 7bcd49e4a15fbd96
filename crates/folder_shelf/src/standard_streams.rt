//! The standard streams of the process.
ghost use Rattle.std.specs.Prelude.{◌≡◌};
ghost use Rattle.folder_shelf.specs.Calls.{streams_held};
ghost use Rattle.folder_shelf.specs.SystemState.{with_call, is_done};

use crate::system::System;
use std::fs;
use std::io::{self, ErrorKind};
use std::os::fd::AsRawFd;
use std::rt::Files;
use thiserror::Error;

/// The numbers of standard input, output and error are below this one.
const FIRST_OTHER: i32 = 3;

/// The number of standard output.
const OUTPUT: i32 = 1;

/// Why the numbers of closed streams were not taken.
#[derive(Clone, Copy, Debug, PartialEq, Eq, Error)]
pub enum StreamFault {
    #[error("standard output is closed")]
    OutputIsClosed,
    #[error("nothing can be opened")]
    NothingOpens,
    #[error("memory ran out")]
    Memory,
}

/// A system that can take the numbers of closed standard streams.
pub trait HoldsStreams: System {
    /// Takes the number of each standard stream that is closed, for as long as the system lives. A
    /// file that is opened gets the least free number, so without this a data file might be what
    /// standard output is written to.
    fn hold_closed_streams(&mut self) -> Result<(), StreamFault>
        ensures { Self.state self.new ≡ with_call (streams_held (is_done result)) (Self.state self.old) };
}

impl StreamFault {
    // Why nothing was opened.
    fn of(error: io::Error) -> StreamFault {
        if error.kind() == ErrorKind::OutOfMemory {
            StreamFault::Memory
        } else {
            StreamFault::NothingOpens
        }
    }
}

// A file that holds a number and gives and takes nothing; a system without the null device has its
// root folder.
fn open_nothing<R: Files>(rt: &R) -> Result<R::File, StreamFault> {
    match fs::open(rt, "/dev/null") {
        Ok(file) => Ok(file),
        Err(_) => fs::open(rt, "/").map_err(StreamFault::of),
    }
}

/// Opens files until one has a number behind those of the standard streams, and keeps those before it.
pub(crate) fn hold_numbers<R: Files>(rt: &R, held: &mut Vec<R::File>) -> Result<(), StreamFault>
where
    R::File: AsRawFd,
{
    for _ in 0..FIRST_OTHER {
        let file = open_nothing(rt)?;
        let number = file.as_raw_fd();
        if number >= FIRST_OTHER {
            return Ok(());
        }
        if number == OUTPUT {
            return Err(StreamFault::OutputIsClosed);
        }
        held.push(file).map_err(|_| StreamFault::Memory)?;
    }
    Ok(())
}

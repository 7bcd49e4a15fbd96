//! The program: it runs decks, one after another, over files that are kept in lists, and writes
//! their transcripts.
//!
//! Its words are the files of the decks. The exit status is 0 where each deck was run, whatever its
//! verbs answered, and 4 where one was not: a line of standard error says whether memory ran out.
//! `cases/run-out-of-memory` refuses each of its requests for memory in turn.
#![tactic(auto)]

use deck_runner::{RunFault, run_deck};
use list_library::ListLibrary;
use std::io::{self, Write};
use std::process::ExitCode;
use std::{env, fs};

/// Why a deck was not run, or not to its end.
#[derive(Clone, Copy)]
enum Fault {
    Memory,
    Other,
}

impl Fault {
    fn of_input(error: io::Error) -> Fault {
        if error.kind() == io::ErrorKind::OutOfMemory {
            Fault::Memory
        } else {
            Fault::Other
        }
    }

    fn of_run(fault: RunFault) -> Fault {
        if fault == RunFault::Memory {
            Fault::Memory
        } else {
            Fault::Other
        }
    }
}

/// Runs the deck of each word over one library.
fn run(rt: &HostRuntime) -> Result<(), Fault> {
    let words = env::args(rt).map_err(Fault::of_input)?;
    let mut library = ListLibrary::new(rt.alloc());
    let mut out = rt.stdout();
    for path in words.skip(1) {
        let bytes = fs::read(rt, path.as_str()).map_err(Fault::of_input)?;
        run_deck(rt.alloc(), &bytes, &mut library, &mut out).map_err(Fault::of_run)?;
    }
    Ok(())
}

fn main(rt: HostRuntime) -> ExitCode {
    let told = match run(&rt) {
        Ok(()) => return ExitCode::SUCCESS,
        Err(Fault::Memory) => "memory\n",
        Err(Fault::Other) => "input, deck or output\n",
    };
    let _ = rt.stderr().write_all(told.as_bytes());
    ExitCode::from(4)
}

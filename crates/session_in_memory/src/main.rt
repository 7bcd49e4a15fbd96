//! The program: it answers the requests of standard input over files in memory, as `cobix serve`
//! does over those of a folder.
//!
//! Its file `stdin` has a session, and `stdout` the answers, worked out by hand from
//! docs/LIBRARY.md. First come verbs and descriptions that are refused. Then a file is described,
//! opened OUTPUT, written, closed, opened I-O, read by both keys, rewritten, and records of it
//! deleted; among these are frames that are no requests. After CLOSE WITH LOCK it is released, and
//! another one is left open at the end. `cases/sessions.py` has the same requests, over a folder.
//!
//! One library has all files of the session, over a shelf in memory. A file that is released stays
//! there.
#![tactic(auto)]

use memory_shelf::MemShelf;
use serve::serve;
use shelf_library::ShelfLibrary;
use std::io::{BufReader, Stdin, Stdout};
use std::num::NonZeroUsize;
use std::process::ExitCode;
use streams::StandardInput;

/// The most pages that a file has.
const PAGE_LIMIT: u32 = 1024;

fn main(rt: HostRuntime) -> ExitCode {
    let alloc = rt.alloc();
    let Ok(reader) = BufReader::new(alloc, rt.stdin()) else {
        return ExitCode::FAILURE;
    };
    let (mut input, mut out) = (StandardInput::new(reader), rt.stdout());
    let library = ShelfLibrary::new(alloc, MemShelf::new(alloc), PAGE_LIMIT, NonZeroUsize::MIN);
    let end = serve::<ShelfLibrary<MemShelf>, BufReader<Stdin>, Stdout>(
        alloc, library, &mut input, &mut out,
    );
    match end.requests {
        Ok(()) if end.unclosed == 0 => ExitCode::SUCCESS,
        _ => ExitCode::FAILURE,
    }
}

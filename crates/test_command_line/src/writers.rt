//! The program, run over writers that refuse a byte.

use crate::checks::{assert_equal, assert_equal_for, assert_that};
use command_line::program;
use command_support::CommandFault;
use folder_shelf::{CallRecord, EmptyDisk, RecordedSystem};
use record_loading::RejectedLines;
use std::fs;
use std::io::{self, BufReader, Empty, ErrorKind, Write};
use std::os::fd::AsRawFd;
use std::os::unix::fs::FileExt;
use std::process::Abort;
use std::rt::{Clock, Files};
use std::test::Fail;
use streams::{Progress, Silent, StandardInput, StandardOutput};
use system_files::LockFile;

pub const DECK: &str = "ENVIRONMENT DIVISION.
INPUT-OUTPUT SECTION.
FILE-CONTROL.
    SELECT CUST ASSIGN TO \"cust.dat\" INDEXED RECORD KEY IS CUST-ID.
DATA DIVISION.
FILE SECTION.
FD CUST.
01 CUST-ID PIC 9(4).
PROCEDURE DIVISION.
    OPEN OUTPUT CUST.
    CLOSE CUST.
    STOP RUN.
";

pub const TRANSCRIPT: &str = "OPEN OUTPUT CUST 00\nCLOSE CUST 00\n";

pub const RUN: [&str; 4] = ["run", "cust.deck", "--folder", "."];

/// A writer that takes so many bytes at a call, and so many in all.
#[derive(Drop)]
struct Narrow {
    taken: Vec<u8>,
    at_once: usize,
    room: usize,
}

impl Write for Narrow {
    ghost use Rattle.std.specs.Prelude.{Some};

    ghost contents = { λ w. Some w.taken.items };

    fn write(&mut self, bytes: &[u8]) -> io::Result<usize> {
        let n = bytes.len().min(self.at_once).min(self.room);
        if self.taken.extend_from_slice(&bytes[..n]).is_err() {
            return Ok(0);
        }
        self.room -= n;
        Ok(n)
    }

    fn flush(&mut self) -> io::Result<()> {
        Ok(())
    }
}

/// How the program ended, and what it wrote.
#[derive(Drop)]
pub struct Ended {
    status: u8,
    out: Narrow,
    err: Narrow,
}

impl Ended {
    pub fn is(&self, status: u8, out: &[u8], err: &[u8]) -> bool {
        self.status == status
            && self.out.taken.as_slice() == out
            && self.err.taken.as_slice() == err
    }
}

/// Runs the program over writers with so much room, of which that of the output takes so many bytes at a
/// call.
fn run<R: Files + Clock + AllocGlobal + Abort>(
    rt: &R,
    words: &[&str],
    at_once: usize,
    out: usize,
    err: usize,
) -> Result<Ended, Fail>
where
    R::File: FileExt + LockFile + AsRawFd,
{
    run_with(rt, words, at_once, out, err, &mut Silent)
}

/// The same, and it is told how far the command is.
pub fn run_with<R: Files + Clock + AllocGlobal + Abort, P: Progress>(
    rt: &R,
    words: &[&str],
    at_once: usize,
    out: usize,
    err: usize,
    progress: &mut P,
) -> Result<Ended, Fail>
where
    R::File: FileExt + LockFile + AsRawFd,
{
    let alloc = rt.alloc();
    let mut given = Vec::new(alloc);
    given.push("cobix".to_string(alloc)?)?;
    for word in words {
        given.push(word.to_string(alloc)?)?;
    }
    let mut out = StandardOutput::new(Narrow {
        taken: Vec::new(alloc),
        at_once,
        room: out,
    });
    let mut err = Narrow {
        taken: Vec::new(alloc),
        at_once: usize::MAX,
        room: err,
    };
    let mut rejects = RejectedLines::new(rt, alloc, io::sink());
    let nothing = BufReader::new(alloc, io::empty())?;
    let system = RecordedSystem::new(rt, alloc);
    let reader = RecordedSystem::new(rt, alloc);
    let mut aside = CallRecord::unasked(rt);
    let (status, _system, _reader) = program::<
        _,
        EmptyDisk,
        BufReader<Empty>,
        _,
        P,
        Narrow,
        Narrow,
    >(
        system,
        reader,
        &mut aside,
        alloc,
        given.as_slice(),
        &mut StandardInput::new(nothing),
        &mut rejects,
        progress,
        &mut out,
        &mut err,
    );
    Ok(Ended {
        status,
        out: out.into_inner(),
        err,
    })
}

#[test]
fn output_may_be_taken_a_byte_at_a_time(rt: HostRuntime) -> Result<(), Fail> {
    fs::write(&rt, "cust.deck", DECK)?;
    let ended = run(&rt, &RUN, 1, 100, 100)?;
    assert_that(&rt, ended.is(0, TRANSCRIPT.as_bytes(), b""));
    Ok(())
}

/// A run whose output has so much room writes the front that fits, and tells the fault.
fn is_cut<R: Files + Clock + AllocGlobal + Abort>(rt: &R, room: usize) -> Result<(), Fail>
where
    R::File: FileExt + LockFile + AsRawFd,
{
    let whole = TRANSCRIPT.as_bytes();
    assert!(rt; room <= whole.len());
    let ended = run(rt, &RUN, 100, room, 100)?;
    let is_so = ended.is(4, &whole[..room], b"cobix: output\n");
    assert_equal_for(rt, room, is_so, true);
    Ok(())
}

// The front for which there is room is written, and the fault is told.
#[test]
fn output_that_is_refused_is_told(rt: HostRuntime) -> Result<(), Fail> {
    fs::write(&rt, "cust.deck", DECK)?;
    let whole = TRANSCRIPT.as_bytes();
    for &room in &[0, 1, 20] {
        is_cut(&rt, room)?;
    }
    is_cut(&rt, whole.len() - 1)?;
    let ended = run(&rt, &RUN, 100, whole.len(), 0)?;
    assert_that(&rt, ended.is(0, whole, b""));
    let checked = run(&rt, &["check", "cust.dat"], 100, 5, 100)?;
    assert_that(&rt, checked.is(4, b"sound", b"cobix: output\n"));
    let helped = run(&rt, &["--help"], 100, 7, 100)?;
    assert_that(&rt, helped.is(4, b"Indexed", b"cobix: output\n"));
    Ok(())
}

/// A run that may write nothing of its output, and of its error so much, ends with this status.
fn is_refused<R: Files + Clock + AllocGlobal + Abort>(
    rt: &R,
    words: &[&str],
    status: u8,
    told: &str,
    room: usize,
) -> Result<(), Fail>
where
    R::File: FileExt + LockFile + AsRawFd,
{
    let told = told.as_bytes();
    assert!(rt; room <= told.len());
    let ended = run(rt, words, 100, 0, room)?;
    let is_so = ended.is(status, b"", &told[..room]);
    assert_equal_for(rt, words, is_so, true);
    Ok(())
}

// The words of a run, its exit status, and how what it tells begins.
const REFUSED: [([&str; 4], u8, &str); 4] = [
    (RUN, 4, "cobix: output\n"),
    (
        ["run", "empty.deck", "--folder", "."],
        2,
        "cobix: line 1: fault 2\n",
    ),
    (["run", "absent.deck", "--folder", "."], 4, "cobix: input\n"),
    (["run", "cust.deck", "--fold", "."], 3, "error: "),
];

// The exit status is told in any case.
#[test]
fn standard_error_may_refuse_too(rt: HostRuntime) -> Result<(), Fail> {
    fs::write(&rt, "cust.deck", DECK)?;
    fs::write(&rt, "empty.deck", "")?;
    for (words, status, told) in &REFUSED {
        is_refused(&rt, words, *status, told, 0)?;
        is_refused(&rt, words, *status, told, 3)?;
    }
    Ok(())
}

// A copy writes nothing to standard output, and tells what it has on standard error.
#[test]
fn a_copy_is_told_on_standard_error(rt: HostRuntime) -> Result<(), Fail> {
    fs::write(&rt, "cust.deck", DECK)?;
    let made = run(&rt, &RUN, 100, 100, 100)?;
    assert_that(&rt, made.is(0, TRANSCRIPT.as_bytes(), b""));
    let copied = run(&rt, &["copy", "cust.dat", "copy.dat"], 100, 0, 100)?;
    assert_that(&rt, copied.is(0, b"", b"copied 0 records, 2 pages\n"));
    let again = run(&rt, &["copy", "cust.dat", "copy.dat"], 100, 0, 100)?;
    assert_that(
        &rt,
        again.is(1, b"", b"cobix: the new file is there already\n"),
    );
    Ok(())
}

fn reported(rt: &HostRuntime, fault: CommandFault) -> (u8, Vec<u8>) {
    let mut err = Vec::new(rt.alloc());
    let status = fault.report(&mut err);
    (status, err)
}

#[test]
fn want_of_memory_is_told(rt: HostRuntime) {
    let (status, err) = reported(&rt, CommandFault::of_input(ErrorKind::OutOfMemory.into()));
    assert_equal(&rt, status, 4);
    assert_equal(&rt, err.as_slice(), b"cobix: memory\n");
}

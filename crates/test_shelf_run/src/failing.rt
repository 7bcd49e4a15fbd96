//! A worked deck over a device whose calls fail in turn.

use crate::answers::Fault;
use crate::decks::{deck_of, transcript_of};
use crate::ends::tells;
use crate::left::{Crash, is_allowed};
use crate::running::{copy_of, run_to_end};
use memory_shelf::{FuseShelf, Kind, MemShelf};
use std::alloc::Global;
use std::process::Abort;
use worked_decks::Worked;

/// How a device fails.
#[derive(Clone, Copy, Debug)]
pub struct Failing {
    /// Which calls fail in turn.
    pub kind: Kind,
    /// Whether the call that fails is performed.
    pub after: bool,
    /// Whether each later call fails too.
    pub for_good: bool,
}

/// Something holds of a run whose call of this number failed, and of its transcript.
fn holds_of(rt: &impl Abort, failing: Failing, at: u64, transcript: &str, what: &str, holds: bool) {
    assert!(rt; holds, "{what}: {failing:?} {at}\n{transcript}");
}

/// A shelf with these files, of which this call fails.
fn failing_at(
    rt: &impl Abort,
    alloc: Global,
    before: &MemShelf,
    failing: Failing,
    at: u64,
) -> FuseShelf<MemShelf> {
    let copy = copy_of(rt, alloc, before);
    FuseShelf::new(copy, failing.kind, at, failing.after, failing.for_good)
}

/// Whether each of these files is left as a run with this transcript may leave it.
fn are_allowed(
    rt: &impl Abort,
    alloc: Global,
    files: &[Worked],
    transcript: &str,
    for_good: bool,
    shelf: &MemShelf,
    crashes: &[Crash],
) -> bool {
    let fault = Fault {
        answer: "30",
        again: for_good,
    };
    for worked in files {
        if !is_allowed(rt, alloc, worked, transcript, fault, shelf, crashes) {
            return false;
        }
    }
    true
}

/// A deck with its transcript, over files of a shelf.
#[derive(Clone, Copy)]
struct Run<'a> {
    files: &'a [Worked],
    deck: &'a str,
    expected: &'a str,
    before: &'a MemShelf,
    frames: usize,
}

/// The run whose call of this number failed has the worked lines where there was no such call, and each of
/// its files is as it may be. It answers whether there was none.
fn ends_rightly(
    rt: &impl Abort,
    alloc: Global,
    run: Run,
    failing: Failing,
    at: u64,
    crashes: &[Crash],
    fuse: FuseShelf<MemShelf>,
    transcript: &str,
) -> bool {
    let is_last = fuse.calls(failing.kind) < at;
    let is_so = (transcript == run.expected) == is_last;
    let what = "the worked lines where no call fails";
    holds_of(rt, failing, at, transcript, what, is_so);
    let shelf = fuse.into_inner();
    let again = failing.for_good;
    let allowed = are_allowed(rt, alloc, run.files, transcript, again, &shelf, crashes);
    holds_of(
        rt,
        failing,
        at,
        transcript,
        "the files are as they may be",
        allowed,
    );
    is_last
}

/// Runs a deck where this call fails, and answers whether there was no such call.
fn fails_at(
    rt: &impl Abort,
    alloc: Global,
    run: Run,
    failing: Failing,
    at: u64,
    crashes: &[Crash],
) -> bool {
    let fuse = failing_at(rt, alloc, run.before, failing, at);
    let (fuse, transcript, end) = run_to_end(rt, alloc, fuse, run.deck, run.frames);
    let told = tells(&end, &transcript);
    holds_of(
        rt,
        failing,
        at,
        &transcript,
        "the end tells the lines",
        told,
    );
    ends_rightly(rt, alloc, run, failing, at, crashes, fuse, &transcript)
}

/// Runs a deck, as each of its files meets it, over the files of a shelf again and again, and each time the
/// next call fails, until there is no further one. Each transcript is one that the deck may have, and each
/// crash leaves each file as a run with this transcript may leave it.
pub fn fails_in_turn(
    rt: &impl Abort,
    alloc: Global,
    files: &[Worked],
    before: &MemShelf,
    frames: usize,
    failing: Failing,
    crashes: &[Crash],
) {
    let Some(first) = files.first() else {
        return;
    };
    let deck = deck_of(rt, alloc, first.heading, first.steps);
    let expected = transcript_of(rt, alloc, first.steps);
    let run = Run {
        files,
        deck: &deck,
        expected: &expected,
        before,
        frames,
    };
    for at in 1..1000 {
        if fails_at(rt, alloc, run, failing, at, crashes) {
            return;
        }
    }
    assert!(rt; false, "a run of 1000 calls");
}

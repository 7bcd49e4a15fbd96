//! A shelf of which one call fails in a run, whichever it is.

use crate::answers::Fault;
use crate::checks::{assert_equal, assert_equal_for, assert_that};
use crate::decks::{deck_of, transcript_of};
use crate::ends::tells;
use crate::left::{Crash, is_allowed, reads_as};
use crate::running::{copy_of, run_to_end, shelf_before};
use deck_runner::{RunEnd, RunFault};
use memory_shelf::{Image, MemShelf};
use std::alloc::Global;
use std::process::Abort;
use unit_calls::NarrowShelf;
use worked_decks::{
    A_CLASH, A_DUPLICATE_REWRITTEN, A_NEW_TWIN, Step, WRITTEN_AND_READ_BACK, Worked,
};

/// A run that has wanted memory before its first statement has written nothing, and the file is as it was.
fn has_written_nothing(
    rt: &impl Abort,
    alloc: Global,
    worked: &Worked,
    shelf: &MemShelf,
    transcript: &str,
    end: Result<RunEnd, RunFault>,
) {
    assert_equal(rt, end, Err(RunFault::Memory));
    assert_equal(rt, transcript, "");
    let nothing: &[Step] = &[];
    let reads = *worked.reads.first().unwrap_or(&nothing);
    assert_that(rt, reads_as(rt, alloc, shelf, worked.heading, reads));
}

/// Where a call on a unit fails, and each later one does or none.
fn failing(again: bool) -> Fault {
    Fault {
        answer: "30",
        again,
    }
}

const NO_CRASH: [Crash; 1] = [Crash::Whole(Image::AsRead)];

/// A run of which a call has failed: nothing is written, and the file is as it was, or the first line that is
/// not the worked one has 30.
fn has_failed(
    rt: &impl Abort,
    alloc: Global,
    worked: &Worked,
    shelf: &MemShelf,
    transcript: &str,
    end: Result<RunEnd, RunFault>,
    again: bool,
) {
    if end.is_err() {
        has_written_nothing(rt, alloc, worked, shelf, transcript, end);
        return;
    }
    assert_equal_for(rt, transcript, tells(&end, transcript), true);
    let fault = failing(again);
    let allowed = is_allowed(rt, alloc, worked, transcript, fault, shelf, &NO_CRASH);
    assert_equal_for(rt, transcript, allowed, true);
}

/// Runs a deck over a shelf of which this call fails, counted from 1. It answers whether there was such a
/// call.
fn fails_at(
    rt: &impl Abort,
    alloc: Global,
    worked: &Worked,
    before: &MemShelf,
    at: u64,
    for_good: bool,
) -> bool {
    let deck = deck_of(rt, alloc, worked.heading, worked.steps);
    let shelf = NarrowShelf::new(copy_of(rt, alloc, before), at, for_good);
    let (shelf, transcript, end) = run_to_end(rt, alloc, shelf, &deck, 1);
    let failed = at <= shelf.calls();
    let is_worked = transcript == transcript_of(rt, alloc, worked.steps);
    assert_equal_for(rt, (at, transcript.as_str()), is_worked, !failed);
    if failed {
        let shelf = shelf.into_inner();
        has_failed(rt, alloc, worked, &shelf, &transcript, end, for_good);
    }
    failed
}

/// Each call of a run fails in turn, until there is no further one.
fn fails_in_turn(rt: &impl Abort, alloc: Global, worked: &Worked, for_good: bool) {
    let before = shelf_before(rt, alloc, worked);
    // The first call forgets the units, before the run.
    for at in 2..1000 {
        if !fails_at(rt, alloc, worked, &before, at, for_good) {
            assert_that(rt, 2 < at);
            return;
        }
    }
    assert!(rt; false, "a run of 1000 calls");
}

const FAILING: [Worked; 4] = [
    WRITTEN_AND_READ_BACK,
    A_CLASH,
    A_NEW_TWIN,
    A_DUPLICATE_REWRITTEN,
];

#[test]
fn each_call_of_a_shelf_fails_in_turn(rt: HostRuntime) {
    for worked in &FAILING {
        fails_in_turn(&rt, rt.alloc(), worked, false);
        fails_in_turn(&rt, rt.alloc(), worked, true);
    }
}

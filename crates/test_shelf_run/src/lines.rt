//! What the end of a run says of its lines.

use crate::checks::{assert_equal, assert_equal_for, assert_that};
use crate::decks::{deck_of, transcript_of};
use crate::ends::tells;
use crate::running::{copy_of, run_to_end, run_within, shelf_before};
use deck_runner::{RunEnd, RunFault};
use memory_shelf::{FuseShelf, Kind, MemShelf};
use page_store::Shelf;
use std::alloc::Global;
use std::process::Abort;
use unit_calls::NarrowShelf;
use worked_decks::{
    A_CLASH, CUSTOMERS, FILLED_UP, READ_THAT_FAILS, REFUSED, Step, WIDE, WRITE_THAT_FAILS,
    WRITTEN_AND_READ_BACK,
};

/// The least limit of pages.
const LIMIT: u32 = 16;

/// A run had the lines of these steps, and its end tells how many there are and whether all are clean.
fn ends_so(
    rt: &impl Abort,
    alloc: Global,
    steps: &[Step],
    transcript: &str,
    end: Result<RunEnd, RunFault>,
    lines: u64,
    clean: bool,
) {
    let worked = transcript_of(rt, alloc, steps);
    assert_equal(rt, transcript, worked.as_str());
    assert_equal_for(rt, transcript, tells(&end, transcript), true);
    assert_equal(rt, end, Ok(RunEnd { clean, lines }));
}

/// A run over an empty shelf has the lines of these steps, so many, all clean or not.
fn ends_over_none(
    rt: &impl Abort,
    alloc: Global,
    heading: &str,
    steps: &[Step],
    lines: u64,
    clean: bool,
) {
    let deck = deck_of(rt, alloc, heading, steps);
    let (_, transcript, end) = run_within(rt, alloc, MemShelf::new(alloc), &deck, LIMIT, 1);
    ends_so(rt, alloc, steps, &transcript, end, lines, clean);
}

#[test]
fn a_run_of_clean_lines_is_clean_and_one_with_24_is_not(rt: HostRuntime) {
    let plain = &WRITTEN_AND_READ_BACK;
    ends_over_none(&rt, rt.alloc(), plain.heading, plain.steps, 8, true);
    ends_over_none(&rt, rt.alloc(), WIDE, FILLED_UP, 16, false);
}

/// A run over customers has the lines of these steps, so many, all clean or not. It answers the shelf.
fn ends_over<S: Shelf + Drop>(
    rt: &impl Abort,
    alloc: Global,
    shelf: S,
    steps: &[Step],
    lines: u64,
    clean: bool,
) -> S {
    let deck = deck_of(rt, alloc, CUSTOMERS, steps);
    let (shelf, transcript, end) = run_to_end(rt, alloc, shelf, &deck, 1);
    ends_so(rt, alloc, steps, &transcript, end, lines, clean);
    shelf
}

// The first write is that of the gate.
#[test]
fn a_run_with_30_and_92_is_not_clean_and_one_with_91_at_open_is(rt: HostRuntime) {
    let before = shelf_before(&rt, rt.alloc(), &A_CLASH);
    let fuse = FuseShelf::new(before, Kind::Writes, 3, false, false);
    let fuse = ends_over(&rt, rt.alloc(), fuse, WRITE_THAT_FAILS, 5, false);
    ends_over(&rt, rt.alloc(), fuse.into_inner(), REFUSED, 1, true);
}

/// Whether a READ fails where this call of the shelf does. The run is not clean then.
fn has_30(rt: &impl Abort, alloc: Global, before: &MemShelf, deck: &str, at: u64) -> bool {
    let shelf = NarrowShelf::new(copy_of(rt, alloc, before), at, false);
    let (_, transcript, end) = run_to_end(rt, alloc, shelf, deck, 1);
    if !transcript.starts_with("OPEN INPUT CUST 00\nREAD NEXT CUST 30\n") {
        return false;
    }
    let told = tells(&end, &transcript);
    assert_equal_for(rt, transcript, told, true);
    let expected = RunEnd {
        clean: false,
        lines: 5,
    };
    assert_equal(rt, end, Ok(expected));
    true
}

#[test]
fn a_run_with_30_at_a_read_is_not_clean(rt: HostRuntime) {
    let alloc = rt.alloc();
    let before = shelf_before(&rt, alloc, &A_CLASH);
    let deck = deck_of(&rt, alloc, CUSTOMERS, READ_THAT_FAILS);
    let mut found = false;
    // The first call is the one that forgets the units of the run before.
    for at in 2..20 {
        found = has_30(&rt, alloc, &before, &deck, at) || found;
    }
    assert_that(&rt, found);
}

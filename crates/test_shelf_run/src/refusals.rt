//! A read that fails once, and a write that fails once.

use crate::checks::{assert_equal, assert_that};
use crate::decks::{deck_of, transcript_of};
use crate::left::reads_as;
use crate::running::{copy_of, run_over, shelf_before};
use memory_shelf::{FuseShelf, Kind, MemShelf};
use std::alloc::Global;
use std::process::Abort;
use worked_decks::{A_CLASH, CUSTOMERS, READ_THAT_FAILS, REFUSED, WRITE_THAT_FAILS};

/// Whether the first READ fails where this read of the shelf does. Each line is then the one that is
/// expected.
fn takes_position_away(
    rt: &impl Abort,
    alloc: Global,
    before: &MemShelf,
    deck: &str,
    frames: usize,
    at: u64,
) -> bool {
    let fuse = FuseShelf::new(copy_of(rt, alloc, before), Kind::Reads, at, false, false);
    let (_, transcript) = run_over(rt, alloc, fuse, deck, frames);
    if !transcript.starts_with("OPEN INPUT CUST 00\nREAD NEXT CUST 30\n") {
        return false;
    }
    assert_equal(rt, transcript, transcript_of(rt, alloc, READ_THAT_FAILS));
    true
}

/// Some read of the shelf is one with which the first READ fails.
fn is_met(rt: &impl Abort, alloc: Global, before: &MemShelf, deck: &str, frames: usize) {
    let mut found = false;
    for at in 1..20 {
        found = takes_position_away(rt, alloc, before, deck, frames, at) || found;
    }
    assert_that(rt, found);
}

#[test]
fn a_read_that_fails_takes_the_position_away(rt: HostRuntime) {
    let alloc = rt.alloc();
    let before = shelf_before(&rt, alloc, &A_CLASH);
    let deck = deck_of(&rt, alloc, CUSTOMERS, READ_THAT_FAILS);
    is_met(&rt, alloc, &before, &deck, 1);
    is_met(&rt, alloc, &before, &deck, 64);
}

#[test]
fn a_file_whose_change_failed_is_refused_by_the_next_run(rt: HostRuntime) {
    let alloc = rt.alloc();
    let before = shelf_before(&rt, alloc, &A_CLASH);
    // The first write is that of the gate.
    let fuse = FuseShelf::new(before, Kind::Writes, 3, false, false);
    let deck = deck_of(&rt, alloc, CUSTOMERS, WRITE_THAT_FAILS);
    let (fuse, transcript) = run_over(&rt, alloc, fuse, &deck, 1);
    let expected = transcript_of(&rt, alloc, WRITE_THAT_FAILS);
    assert_equal(&rt, transcript, expected);
    let left = fuse.into_inner();
    assert_that(&rt, reads_as(&rt, alloc, &left, CUSTOMERS, REFUSED));
}

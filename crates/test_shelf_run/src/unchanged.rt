//! Decks that change nothing.

use crate::checks::assert_equal;
use crate::decks::{deck_of, transcript_of};
use crate::running::{copy_of, run_over, shelf_before};
use memory_shelf::{FuseShelf, Kind, MemShelf};
use std::alloc::Global;
use std::process::Abort;
use worked_decks::{A_CLASH, DUPLICATES_IN_ORDER, REFUSED_BY_KEY, REFUSED_IN_ORDER, Worked};

/// A deck has its transcript, and makes no call that changes the shelf.
fn changes_nothing(
    rt: &impl Abort,
    alloc: Global,
    worked: &Worked,
    before: &MemShelf,
    frames: usize,
) {
    let deck = deck_of(rt, alloc, worked.heading, worked.steps);
    let fuse = FuseShelf::new(copy_of(rt, alloc, before), Kind::Changes, 0, false, false);
    let (fuse, transcript) = run_over(rt, alloc, fuse, &deck, frames);
    assert_equal(rt, transcript, transcript_of(rt, alloc, worked.steps));
    assert_equal(rt, fuse.calls(Kind::Changes), 0);
}

const READ_OR_REFUSED: [Worked; 4] = [
    DUPLICATES_IN_ORDER,
    A_CLASH,
    REFUSED_BY_KEY,
    REFUSED_IN_ORDER,
];

#[test]
fn a_deck_that_only_reads_or_is_refused_makes_no_call_that_changes(rt: HostRuntime) {
    for worked in &READ_OR_REFUSED {
        let before = shelf_before(&rt, rt.alloc(), worked);
        changes_nothing(&rt, rt.alloc(), worked, &before, 1);
        changes_nothing(&rt, rt.alloc(), worked, &before, 64);
    }
}

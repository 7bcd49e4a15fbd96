//! A device that stops, and then a crash.

use crate::checks::assert_that;
use crate::decks::deck_of;
use crate::failing::{Failing, fails_in_turn};
use crate::left::{Crash, reads_as};
use crate::running::{copy_of, run_over, shelf_before};
use memory_shelf::{FuseShelf, Image, Kind, MemShelf};
use std::alloc::Global;
use std::process::Abort;
use worked_decks::{
    A_DUPLICATE_REWRITTEN, PAYROLL, REPLACED, REPLACED_WHERE_REFUSED, SIDE_BY_SIDE,
    WRITTEN_AND_READ_BACK, Worked,
};

/// What a crash may leave: what reads give, what was synced, or these bytes wherever something was written
/// since, that of a closed gate among them; or what was synced, but one page.
const CRASHES: [Crash; 8] = [
    Crash::Whole(Image::AsRead),
    Crash::Whole(Image::Synced),
    Crash::Whole(Image::Filled(0)),
    Crash::Whole(Image::Filled(b'C')),
    Crash::Whole(Image::Filled(0xff)),
    Crash::OnePage(0),
    Crash::OnePage(1),
    Crash::OnePage(3),
];

/// The device stops at each change of a deck in turn, as each of its files meets it, before it is performed
/// and after it, and a crash follows.
fn stops_at_each_change(
    rt: &impl Abort,
    alloc: Global,
    files: &[Worked],
    before: &MemShelf,
    frames: usize,
) {
    for &after in &[false, true] {
        let failing = Failing {
            kind: Kind::Changes,
            after,
            for_good: true,
        };
        fails_in_turn(rt, alloc, files, before, frames, failing, &CRASHES);
    }
}

/// What a shelf has after a device stopped before this change of a deck, counted from 1.
fn stopped(rt: &impl Abort, alloc: Global, worked: &Worked, before: MemShelf, at: u64) -> MemShelf {
    let deck = deck_of(rt, alloc, worked.heading, worked.steps);
    let fuse = FuseShelf::new(before, Kind::Changes, at, false, true);
    let (fuse, _) = run_over(rt, alloc, fuse, &deck, 64);
    copy_of(rt, alloc, &fuse.into_inner())
}

/// The same with one frame, and with 64.
fn stops_with_any_frames(rt: &impl Abort, alloc: Global, files: &[Worked]) {
    let Some(first) = files.first() else {
        return;
    };
    let before = shelf_before(rt, alloc, first);
    stops_at_each_change(rt, alloc, files, &before, 1);
    stops_at_each_change(rt, alloc, files, &before, 64);
}

#[test]
fn a_crash_leaves_no_false_file_where_one_is_made_or_changed(rt: HostRuntime) {
    stops_with_any_frames(&rt, rt.alloc(), &[WRITTEN_AND_READ_BACK]);
    stops_with_any_frames(&rt, rt.alloc(), &[A_DUPLICATE_REWRITTEN]);
}

/// The device stops at each change where a file that is refused is replaced.
fn stops_over_a_refused_file(rt: &impl Abort, alloc: Global, before: &MemShelf) {
    let worked = &REPLACED_WHERE_REFUSED;
    assert_that(
        rt,
        reads_as(rt, alloc, before, worked.heading, worked.refused),
    );
    stops_at_each_change(rt, alloc, &[REPLACED_WHERE_REFUSED], before, 64);
}

#[test]
fn a_crash_leaves_no_false_file_where_one_is_replaced(rt: HostRuntime) {
    let alloc = rt.alloc();
    let before = shelf_before(&rt, alloc, &REPLACED);
    stops_at_each_change(&rt, alloc, &[REPLACED], &before, 64);
    // A file whose gate is open, and one without a byte.
    let open = stopped(&rt, alloc, &REPLACED, before, 3);
    stops_over_a_refused_file(&rt, alloc, &open);
    let empty = stopped(&rt, alloc, &REPLACED, MemShelf::new(alloc), 2);
    stops_over_a_refused_file(&rt, alloc, &empty);
}

#[test]
fn a_crash_leaves_no_false_file_behind_the_first_close(rt: HostRuntime) {
    let before = MemShelf::new(rt.alloc());
    stops_at_each_change(&rt, rt.alloc(), &[PAYROLL], &before, 64);
}

#[test]
fn a_crash_leaves_no_false_file_of_two(rt: HostRuntime) {
    let before = MemShelf::new(rt.alloc());
    stops_at_each_change(&rt, rt.alloc(), SIDE_BY_SIDE, &before, 64);
}

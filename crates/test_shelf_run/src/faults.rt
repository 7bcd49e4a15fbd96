//! A device that fails.

use crate::failing::{Failing, fails_in_turn};
use crate::left::Crash;
use crate::running::shelf_before;
use memory_shelf::{Image, Kind, MemShelf};
use std::alloc::Global;
use std::process::Abort;
use worked_decks::{
    A_CLASH, A_DUPLICATE_REWRITTEN, A_NEW_TWIN, PAYROLL, SIDE_BY_SIDE, WRITTEN_AND_READ_BACK,
    Worked,
};

/// How a call fails: after it was performed or before, and once or for good.
const WAYS: [(bool, bool); 4] = [(false, false), (true, false), (false, true), (true, true)];

const NO_CRASH: [Crash; 1] = [Crash::Whole(Image::AsRead)];

/// The calls of a kind fail in turn, in each way.
fn each_call_fails_of(
    rt: &impl Abort,
    alloc: Global,
    files: &[Worked],
    before: &MemShelf,
    kind: Kind,
    frames: usize,
) {
    for &(after, for_good) in &WAYS {
        let failing = Failing {
            kind,
            after,
            for_good,
        };
        fails_in_turn(rt, alloc, files, before, frames, failing, &NO_CRASH);
    }
}

/// Each read of a deck fails in turn, and each creation, write and sync, before it is performed and after it,
/// once and for good.
fn each_call_fails(rt: &impl Abort, alloc: Global, files: &[Worked]) {
    let Some(first) = files.first() else {
        return;
    };
    let before = shelf_before(rt, alloc, first);
    for &frames in &[1, 64] {
        each_call_fails_of(rt, alloc, files, &before, Kind::Reads, frames);
        each_call_fails_of(rt, alloc, files, &before, Kind::Changes, frames);
    }
}

#[test]
fn a_device_fails_while_a_file_is_made_and_read(rt: HostRuntime) {
    each_call_fails(&rt, rt.alloc(), &[WRITTEN_AND_READ_BACK]);
    each_call_fails(&rt, rt.alloc(), &[A_CLASH]);
}

#[test]
fn a_device_fails_while_a_file_is_changed(rt: HostRuntime) {
    each_call_fails(&rt, rt.alloc(), &[A_NEW_TWIN]);
    each_call_fails(&rt, rt.alloc(), &[A_DUPLICATE_REWRITTEN]);
}

#[test]
fn a_device_fails_while_a_file_is_made_and_changed(rt: HostRuntime) {
    each_call_fails(&rt, rt.alloc(), &[PAYROLL]);
}

#[test]
fn a_device_fails_while_two_files_are_open(rt: HostRuntime) {
    each_call_fails(&rt, rt.alloc(), SIDE_BY_SIDE);
}

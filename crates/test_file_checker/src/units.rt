//! Files on a shelf: the same is found of them as of their bytes, and a device that fails is told.

use crate::checks::{assert_equal, assert_equal_for};
use crate::files::{made, made_shelf, name};
use file_checker::{Reason, Verdict, check_bytes, check_unit};
use io_state::Fault;
use memory_shelf::{FuseShelf, Kind, MemShelf};
use page_store::Shelf;
use pages::{FaultPlace, PAGE_SIZE};
use std::alloc::Global;
use std::num::NonZeroUsize;
use std::process::Abort;

/// What is found of the file of a shelf that has this one, with so many frames.
fn found<S: Shelf + Drop>(
    rt: &impl Abort,
    alloc: Global,
    shelf: S,
    frames: usize,
) -> Result<Verdict, Fault> {
    let frames = NonZeroUsize::new(frames).unwrap_or(NonZeroUsize::MIN);
    let mut shelf = shelf;
    shelf.attach(&[name(rt)]).expect(rt, "attached");
    let (_shelf, found) = check_unit(alloc, shelf, 0, frames);
    found
}

// A body that leaves pages out, or always wants memory, fails here.
#[test]
fn a_file_on_a_shelf_is_found_as_its_bytes(rt: HostRuntime) {
    let alloc = rt.alloc();
    for &(count, removed, frames) in &[(0, 0, 1), (20, 0, 1), (400, 30, 3), (400, 30, 1024)] {
        let bytes = made(&rt, alloc, count, removed);
        let of_bytes = check_bytes(alloc, &bytes).ok();
        let shelf = made_shelf(&rt, alloc, count, removed);
        let of_unit = found(&rt, alloc, shelf, frames).ok();
        assert_equal_for(&rt, (count, frames), of_unit, of_bytes);
    }
}

/// A shelf with a file that has these bytes.
fn shelf_of(rt: &impl Abort, alloc: Global, bytes: &[u8]) -> MemShelf {
    let mut shelf = MemShelf::new(alloc);
    shelf.attach(&[name(rt)]).expect(rt, "attached");
    let is_there = shelf.exists(0).expect(rt, "an answer");
    assert!(rt; !is_there);
    shelf.create(0).expect(rt, "a file");
    shelf.write_at(0, 0, bytes).expect(rt, "its bytes");
    shelf
}

#[test]
fn a_file_that_is_cut_or_is_not_there_is_short(rt: HostRuntime) {
    let alloc = rt.alloc();
    let short = Ok(Verdict::Unsound(Reason::Short, FaultPlace::File));
    assert_equal(&rt, found(&rt, alloc, MemShelf::new(alloc), 8), short);
    let bytes = made(&rt, alloc, 20, 0);
    for &lost in &[1, PAGE_SIZE] {
        let end = bytes.len().saturating_sub(lost);
        let front = bytes.get(..end).unwrap_or(bytes.as_slice());
        let shelf = shelf_of(&rt, alloc, front);
        assert_equal_for(&rt, lost, found(&rt, alloc, shelf, 8), short);
    }
}

// Each page is read once, since there are as many frames as pages.
#[test]
fn each_read_that_fails_is_told_as_a_fault_of_the_device(rt: HostRuntime) {
    let alloc = rt.alloc();
    let pages = made(&rt, alloc, 20, 0).len() / PAGE_SIZE;
    for n in 0..pages + 1 {
        let shelf = made_shelf(&rt, alloc, 20, 0);
        let fused = FuseShelf::new(shelf, Kind::Reads, n as u64, false, false);
        let is_told = found(&rt, alloc, fused, pages) == Err(Fault::Device);
        assert_equal_for(&rt, n, is_told, n > 0);
    }
}

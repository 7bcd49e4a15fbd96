//! Files in a folder of the system, written and read back.

use crate::checks::{assert_equal, assert_equal_for, assert_that, has_bytes};
use crate::files::{Found, WAYS, calls_for, fails_at, find, make};
use crate::shelves::attach;
use folder_shelf::{EmptyDisk, FolderShelf, RecordedSystem};
use io_state::Fault;
use memory_shelf::Kind;
use page_store::{Shelf, Store};
use std::fs;
use std::os::unix::fs::symlink;
use std::process::Abort;
use system_files::{KeptFolder, LockWait};

// A shelf over an empty folder of this name.
fn new_shelf(
    test: &impl Abort,
    rt: HostRuntime,
    folder: &str,
) -> FolderShelf<RecordedSystem<HostRuntime>, EmptyDisk> {
    let _ = fs::remove_dir_all(&rt, folder);
    fs::create_dir(&rt, folder).expect(test, "a folder");
    let path = folder.to_string(rt.alloc()).expect(test, "memory");
    FolderShelf::new(RecordedSystem::new(rt, rt.alloc()), path)
}

#[test]
fn a_hundred_pages_are_read_as_written(rt: HostRuntime) {
    let mut shelf = new_shelf(&rt, rt, "hundred_pages");
    attach(&rt, &mut shelf);
    assert_equal(&rt, find(&mut shelf), Ok(Found::Absent));
    assert_equal(&rt, make(&mut shelf, 100, 1), Ok(()));
    assert_equal(&rt, find(&mut shelf), Ok(Found::Closed(1, 100)));
    // By another look at the folder, and by the system.
    attach(&rt, &mut shelf);
    assert_equal(&rt, find(&mut shelf), Ok(Found::Closed(1, 100)));
    let found = fs::metadata(&rt, "hundred_pages/CUST").expect(&rt, "a file");
    assert_equal(&rt, found.len(), 409_600);
    assert_equal(&rt, shelf.faults(), 0);
}

// Each of the calls of a kind fails in turn, up to the first number that no call has. How many calls
// there are.
fn each_call_fails(
    test: &impl Abort,
    rt: HostRuntime,
    kind: Kind,
    after: bool,
    for_good: bool,
) -> u64 {
    for at in 1..20 {
        let mut inner = new_shelf(test, rt, "failing_calls");
        attach(test, &mut inner);
        if !fails_at(test, inner, (kind, at, after, for_good), 5) {
            return at - 1;
        }
    }
    20
}

#[test]
fn a_file_is_closed_only_if_no_call_failed(rt: HostRuntime) {
    for (kind, expected) in calls_for(5) {
        for &(after, for_good) in &WAYS {
            let calls = each_call_fails(&rt, rt, kind, after, for_good);
            assert_equal_for(&rt, (kind, after, for_good), calls, expected);
        }
    }
}

// What stands at the name of the file is none, and is not made one.
fn is_no_file<S: Shelf>(rt: &impl Abort, shelf: &mut S) {
    attach(rt, shelf);
    assert_equal(rt, shelf.exists(0), Err(Fault::Device));
    assert_that(rt, matches!(Store::make(shelf, 0), Err(Fault::Device)));
}

#[test]
fn a_folder_of_the_name_is_a_fault_of_the_device(rt: HostRuntime) {
    let mut shelf = new_shelf(&rt, rt, "folder_of_the_name");
    fs::create_dir(&rt, "folder_of_the_name/CUST").expect(&rt, "a folder");
    is_no_file(&rt, &mut shelf);
    assert_equal(&rt, shelf.faults(), 2);
}

// No file is made by the name of a link.
fn is_not_made(test: &impl Abort, rt: HostRuntime, path: &str) {
    let mut folder = KeptFolder::new("link".to_string(rt.alloc()).expect(test, "memory"));
    assert_that(
        test,
        system_files::make(&rt, LockWait::of_seconds(0), path, &mut folder).is_err(),
    );
}

#[test]
fn a_link_is_not_followed(rt: HostRuntime) {
    let mut shelf = new_shelf(&rt, rt, "link");
    fs::write(&rt, "outside_the_folder", "of somebody else").expect(&rt, "a file");
    symlink(&rt, "../outside_the_folder", "link/CUST").expect(&rt, "a link");
    symlink(&rt, "../nowhere", "link/NONE").expect(&rt, "a link");
    is_no_file(&rt, &mut shelf);
    assert_that(
        &rt,
        system_files::open(&rt, LockWait::of_seconds(0), "link/CUST").is_err(),
    );
    is_not_made(&rt, rt, "link/CUST");
    is_not_made(&rt, rt, "link/NONE");
    let made = fs::exists(&rt, "nowhere").expect(&rt, "an answer");
    assert_that(&rt, !made);
    has_bytes(
        &rt,
        fs::read(&rt, "outside_the_folder"),
        b"of somebody else",
    );
}

//! Files that two runs have open at once, that may only be read, or that a system has no locks for.
ghost use Rattle.page_store.specs.ShelfState.{HasUnit};

use crate::checks::{assert_equal, assert_equal_for, assert_that, has_bytes};
use crate::files::{Found, begin, change, find, make};
use crate::refusing_system::{Change, Refusals};
use crate::shelves::{attach, name, name_of};
use folder_shelf::{EmptyDisk, FolderShelf, RecordedSystem};
use io_state::{Fault, FileName};
use page_store::{Shelf, Store};
use std::alloc::Global;
use std::fs;
use std::io::{self, ErrorKind};
use std::os::unix::fs::FileExt;
use std::process::Abort;
use std::rt::{Clock, Files};
use system_files::LockFile;

/// What a run does with a file of three pages.
#[derive(Clone, Copy, Debug)]
enum Act {
    /// It lets its files go, and attaches this one.
    Attach,
    Find,
    Make(u8),
    Change(u8),
    /// It opens the gate, and stops.
    Begin,
    /// It lets its files go, attaches this one by both of its names, and opens the gate by the second.
    BeginByLink,
    /// It lets its files go, and attaches one of another name.
    AttachOther,
}

/// What it is answered: what it finds, or that it is done.
type Answer = Result<Option<Found>, Fault>;

const DONE: Answer = Ok(None);

const REFUSED: Answer = Err(Fault::Device);

/// As it was made at first.
const MADE_FIRST: Answer = Ok(Some(Found::Closed(1, 3)));

const WRITTEN_WITH_2: Answer = Ok(Some(Found::Closed(2, 3)));

const WRITTEN_WITH_3: Answer = Ok(Some(Found::Closed(3, 3)));

// What is answered to a call that finds nothing.
fn done(outcome: Result<(), Fault>) -> Answer {
    match outcome {
        Ok(()) => DONE,
        Err(fault) => Err(fault),
    }
}

fn found(outcome: Result<Found, Fault>) -> Answer {
    match outcome {
        Ok(found) => Ok(Some(found)),
        Err(fault) => Err(fault),
    }
}

// A run lets its files go, and attaches this one.
fn attach_one<S: Shelf>(run: &mut S, name: FileName) -> Result<(), Fault>
    requires unit { HasUnit (S.state run.old) 0 }
    ensures unit { HasUnit (S.state run.new) 0 }
{
    run.attach(&[name])?;
    Ok(())
}

// A run attaches the file by both of its names, and opens the gate by the second.
fn begin_by_link<S: Shelf>(run: &mut S) -> Result<(), Fault>
    requires unit { HasUnit (S.state run.old) 0 }
    ensures unit { HasUnit (S.state run.new) 0 }
{
    run.attach(&[name(), second_name()])?;
    begin(run, 1)
}

// What a run that does so is answered.
fn answer_to<S: Shelf>(run: &mut S, act: Act) -> Answer
    requires unit { HasUnit (S.state run.old) 0 }
    ensures unit { HasUnit (S.state run.new) 0 }
{
    match act {
        Act::Attach => done(attach_one(run, name())),
        Act::Find => found(find(run)),
        Act::Make(byte) => done(make(run, 3, byte)),
        Act::Change(byte) => done(change(run, 3, byte)),
        Act::Begin => done(begin(run, 0)),
        Act::BeginByLink => done(begin_by_link(run)),
        Act::AttachOther => done(attach_one(run, second_name())),
    }
}

// Each step of a run, beside what it is answered.
fn perform<S: Shelf>(rt: &impl Abort, run: &mut S, steps: &[(Act, Answer)])
    requires unit { HasUnit (S.state run.old) 0 }
    ensures unit { HasUnit (S.state run.new) 0 }
{
    for step in steps {
        let (act, answer) = *step;
        assert_equal_for(rt, act, answer_to(run, act), answer);
    }
}

#[derive(Clone, Copy, Debug)]
enum Run {
    First,
    Second,
}

// Each step of two runs at once, beside what it is answered.
fn perform_both<S: Shelf>(
    rt: &impl Abort,
    first: &mut S,
    second: &mut S,
    steps: &[(Run, Act, Answer)],
)
    requires first { HasUnit (S.state first.old) 0 }
    requires second { HasUnit (S.state second.old) 0 }
    ensures first { HasUnit (S.state first.new) 0 }
    ensures second { HasUnit (S.state second.new) 0 }
{
    for step in steps {
        let (run, act, answer) = *step;
        let found = match run {
            Run::First => answer_to(first, act),
            Run::Second => answer_to(second, act),
        };
        assert_equal_for(rt, (run, act), found, answer);
    }
}

// A run over the files of a folder, which has the file attached.
fn run_over<R: Files + Clock + Drop>(
    test: &impl Abort,
    rt: R,
    alloc: Global,
    folder: &str,
) -> FolderShelf<RecordedSystem<R>, EmptyDisk>
where
    R::File: FileExt + LockFile,
    ensures unit { HasUnit (⟦<FolderShelf<RecordedSystem<R>, EmptyDisk> as Shelf>⟧.state result) 0 }
{
    let path = folder.to_string(alloc).expect(test, "memory");
    let mut run = FolderShelf::new(RecordedSystem::new(rt, alloc), path);
    attach(test, &mut run);
    run
}

// Each step of a run over the files of a folder, with these refusals, beside what it is answered.
fn perform_over(
    test: &impl Abort,
    rt: HostRuntime,
    refusals: &Refusals,
    folder: &str,
    steps: &[(Act, Answer)],
) {
    let mut run = run_over(test, refusals.over(rt), rt.alloc(), folder);
    perform(test, &mut run, steps);
}

// Makes a folder of this name, with a file of three pages in it.
fn make_file(test: &impl Abort, rt: HostRuntime, folder: &str) {
    let _ = fs::remove_dir_all(&rt, folder);
    fs::create_dir(&rt, folder).expect(test, "a folder");
    let mut run = run_over(test, rt, rt.alloc(), folder);
    assert_equal(test, make(&mut run, 3, 1), Ok(()));
}

// A file was read before, and has the same bytes now.
fn has_same_bytes(rt: &impl Abort, found: io::Result<Vec<u8>>, before: &io::Result<Vec<u8>>) {
    match before {
        Ok(before) => has_bytes(rt, found, before.as_slice()),
        Err(_) => assert_that(rt, false),
    }
}

// Makes such a folder without its file.
fn make_folder(test: &impl Abort, rt: HostRuntime, folder: &str, file: &str) {
    make_file(test, rt, folder);
    fs::remove_file(&rt, file).expect(test, "no file");
}

fn second_name() -> FileName {
    name_of("LINK")
}

const NEITHER_READ_NOR_MADE: [(Act, Answer); 2] = [(Act::Find, REFUSED), (Act::Make(2), REFUSED)];

// The first run makes a file, which the second finds once it is made and let go.
fn is_read_once_it_is_let_go<S: Shelf>(rt: &impl Abort, first: &mut S, second: &mut S)
    requires first { HasUnit (S.state first.old) 0 }
    requires second { HasUnit (S.state second.old) 0 }
{
    let store = Store::make(first, 0).expect(rt, "a file");
    perform(rt, second, &NEITHER_READ_NOR_MADE);
    assert_equal(rt, store.finish(first), Ok(()));
    assert_equal(rt, find(second), Err(Fault::Device));
    lets_go(rt, first, second, Found::Refused);
}

// A run lets its files go, and another finds this.
fn lets_go<S: Shelf>(rt: &impl Abort, run: &mut S, other: &mut S, found: Found)
    requires other { HasUnit (S.state other.old) 0 }
{
    assert_equal(rt, run.attach(&[]), Ok(()));
    assert_equal(rt, find(other), Ok(found));
}

#[test]
fn a_file_that_is_made_is_read_by_no_other_run(rt: HostRuntime) {
    make_folder(&rt, rt, "made_and_read", "made_and_read/CUST");
    let mut first = run_over(&rt, rt, rt.alloc(), "made_and_read");
    let mut second = run_over(&rt, rt, rt.alloc(), "made_and_read");
    is_read_once_it_is_let_go(&rt, &mut first, &mut second);
    has_bytes(&rt, fs::read(&rt, "made_and_read/CUST"), b"C");
}

const READ_BY_BOTH: [(Run, Act, Answer); 4] = [
    // Those who read go side by side.
    (Run::First, Act::Find, MADE_FIRST),
    (Run::Second, Act::Find, MADE_FIRST),
    (Run::Second, Act::Change(2), REFUSED),
    (Run::Second, Act::Make(2), REFUSED),
];

// The one that was refused reads on, and changes the file once the other is done.
const CHANGED_BY_THE_SECOND: [(Run, Act, Answer); 4] = [
    (Run::Second, Act::Find, MADE_FIRST),
    (Run::First, Act::Attach, DONE),
    (Run::Second, Act::Change(2), DONE),
    (Run::First, Act::Find, REFUSED),
];

#[test]
fn a_file_that_another_run_has_read_is_not_changed(rt: HostRuntime) {
    make_file(&rt, rt, "read_and_changed");
    let before = fs::read(&rt, "read_and_changed/CUST");
    let mut first = run_over(&rt, rt, rt.alloc(), "read_and_changed");
    let mut second = run_over(&rt, rt, rt.alloc(), "read_and_changed");
    perform_both(&rt, &mut first, &mut second, &READ_BY_BOTH);
    let after = fs::read(&rt, "read_and_changed/CUST");
    has_same_bytes(&rt, after, &before);
    perform_both(&rt, &mut first, &mut second, &CHANGED_BY_THE_SECOND);
    lets_go(&rt, &mut second, &mut first, Found::Closed(2, 3));
}

const TWO_CHANGES: [(Run, Act, Answer); 6] = [
    (Run::First, Act::Find, MADE_FIRST),
    (Run::Second, Act::Find, MADE_FIRST),
    (Run::First, Act::Begin, REFUSED),
    (Run::Second, Act::Change(2), DONE),
    (Run::First, Act::Find, REFUSED),
    (Run::First, Act::Begin, REFUSED),
];

#[test]
fn of_two_changes_at_once_one_is_made_and_one_refused(rt: HostRuntime) {
    make_file(&rt, rt, "two_changes");
    let mut first = run_over(&rt, rt, rt.alloc(), "two_changes");
    let mut second = run_over(&rt, rt, rt.alloc(), "two_changes");
    perform_both(&rt, &mut first, &mut second, &TWO_CHANGES);
    assert_equal(&rt, (first.faults(), second.faults()), (3, 0));
    assert_equal(&rt, find(&mut second), Ok(Found::Closed(2, 3)));
}

const BEGUN_AND_FOUND: [(Act, Answer); 2] = [(Act::BeginByLink, DONE), (Act::Find, REFUSED)];

// Its gate is open already, so that it is only read.
const BEGUN_AND_MADE: [(Act, Answer); 2] = [(Act::BeginByLink, DONE), (Act::Make(2), REFUSED)];

#[test]
fn two_names_of_one_file_are_two_that_have_it_open(rt: HostRuntime) {
    make_file(&rt, rt, "two_names");
    fs::hard_link(&rt, "two_names/CUST", "two_names/LINK").expect(&rt, "a link");
    let mut run = run_over(&rt, rt, rt.alloc(), "two_names");
    perform(&rt, &mut run, &BEGUN_AND_FOUND);
    let before = fs::read(&rt, "two_names/CUST");
    perform(&rt, &mut run, &BEGUN_AND_MADE);
    has_same_bytes(&rt, fs::read(&rt, "two_names/CUST"), &before);
}

const ONLY_READ: [(Act, Answer); 4] = [
    (Act::Find, MADE_FIRST),
    (Act::Change(2), REFUSED),
    (Act::Make(2), REFUSED),
    (Act::Find, MADE_FIRST),
];

const NOT_OPENED: [(Act, Answer); 4] = [
    (Act::Find, REFUSED),
    (Act::Change(2), REFUSED),
    (Act::Make(2), REFUSED),
    (Act::Find, REFUSED),
];

// Why a file is not opened for writing, and what a run is answered then.
const NOT_WRITTEN: [(ErrorKind, &[(Act, Answer)]); 4] = [
    (ErrorKind::PermissionDenied, &ONLY_READ),
    (ErrorKind::ReadOnlyFilesystem, &ONLY_READ),
    (ErrorKind::NotFound, &NOT_OPENED),
    (ErrorKind::Other, &NOT_OPENED),
];

#[test]
fn a_file_that_may_only_be_read_is_read_whole_and_not_changed(rt: HostRuntime) {
    make_file(&rt, rt, "only_read");
    let before = fs::read(&rt, "only_read/CUST");
    let refusals = Refusals::none();
    for &(reason, steps) in &NOT_WRITTEN {
        refusals.writing.set(Some(reason));
        perform_over(&rt, rt, &refusals, "only_read", steps);
        has_same_bytes(&rt, fs::read(&rt, "only_read/CUST"), &before);
    }
}

fn set(bytes: &mut [u8], at: usize, byte: u8) {
    if let Some(place) = bytes.get_mut(at) {
        *place = byte;
    }
}

// The bytes of a file whose change is begun, where this happens meanwhile.
fn changed(test: &impl Abort, mut bytes: Vec<u8>, meanwhile: Change) -> Vec<u8> {
    match meanwhile {
        Change::Nothing => set(&mut bytes, 0, b'D'),
        Change::Page => set(&mut bytes, 9, 0),
        Change::Length => bytes.push(0).expect(test, "memory"),
        Change::Times => {}
    }
    bytes
}

// What happens between two locks, what who changes the file then is answered, and what others find.
const MEANWHILE: [(Change, Answer, Found); 4] = [
    (Change::Nothing, DONE, Found::Closed(1, 3)),
    (Change::Page, REFUSED, Found::Mixed),
    (Change::Length, REFUSED, Found::Closed(1, 3)),
    (Change::Times, REFUSED, Found::Closed(1, 3)),
];

// A run that has read the file begins to change it, and this happens meanwhile.
fn begin_after<S: Shelf>(
    test: &impl Abort,
    run: &mut S,
    refusals: &Refusals,
    meanwhile: Change,
    answer: Answer,
)
    requires unit { HasUnit (S.state run.old) 0 }
    ensures unit { HasUnit (S.state run.new) 0 }
{
    assert_equal_for(test, meanwhile, answer_to(run, Act::Find), MADE_FIRST);
    refusals.change.set(meanwhile);
    assert_equal_for(test, meanwhile, answer_to(run, Act::Begin), answer);
}

// Another run finds this, and lets it go.
fn another_finds(test: &impl Abort, rt: HostRuntime, meanwhile: Change, found: Found) {
    let mut other = run_over(test, rt, rt.alloc(), "between_two_locks");
    assert_equal_for(test, meanwhile, find(&mut other), Ok(found));
}

// A run begins to change a file that another run has meanwhile, and answers whether it may. The bytes
// that are left are those of the change meanwhile.
fn begins_meanwhile<S: Shelf>(
    test: &impl Abort,
    rt: HostRuntime,
    run: &mut S,
    refusals: &Refusals,
    meanwhile: Change,
    answer: Answer,
)
    requires unit { HasUnit (S.state run.old) 0 }
    ensures unit { HasUnit (S.state run.new) 0 }
{
    let before = fs::read(&rt, "between_two_locks/CUST").expect(test, "the file");
    let expected = changed(test, before, meanwhile);
    begin_after(test, run, refusals, meanwhile, answer);
    let left = fs::read(&rt, "between_two_locks/CUST");
    has_bytes(test, left, expected.as_slice());
}

// Another run has the file, and lets it go, while the shared lock is made exclusive.
fn changes_between_two_locks(
    test: &impl Abort,
    rt: HostRuntime,
    meanwhile: Change,
    answer: Answer,
    found: Found,
) {
    make_file(test, rt, "between_two_locks");
    let refusals = Refusals::none();
    let mut run = run_over(test, refusals.over(rt), rt.alloc(), "between_two_locks");
    begins_meanwhile(test, rt, &mut run, &refusals, meanwhile, answer);
    // What reads the file anew may change it.
    if answer == REFUSED {
        another_finds(test, rt, meanwhile, found);
        assert_equal_for(test, meanwhile, find(&mut run), Ok(found));
        assert_equal_for(test, meanwhile, begin(&mut run, 0), Ok(()));
    }
}

#[test]
fn a_file_that_was_changed_between_two_locks_is_not_changed_again(rt: HostRuntime) {
    for &(meanwhile, answer, found) in &MEANWHILE {
        changes_between_two_locks(&rt, rt, meanwhile, answer, found);
    }
}

const NOT_MADE: [(Act, Answer); 1] = [(Act::Make(2), REFUSED)];

#[test]
fn a_file_that_another_run_had_first_is_not_made(rt: HostRuntime) {
    make_folder(&rt, rt, "had_first", "had_first/CUST");
    let refusals = Refusals::none();
    refusals.change.set(Change::Length);
    perform_over(&rt, rt, &refusals, "had_first", &NOT_MADE);
    has_bytes(&rt, fs::read(&rt, "had_first/CUST"), b"\0");
}

const WITHOUT_LOCKS: [(Run, Act, Answer); 3] = [
    (Run::First, Act::Find, MADE_FIRST),
    (Run::Second, Act::Make(2), DONE),
    (Run::First, Act::Find, WRITTEN_WITH_2),
];

const MADE_AGAIN: [(Act, Answer); 3] = [
    (Act::Attach, DONE),
    (Act::Make(3), DONE),
    (Act::Find, WRITTEN_WITH_3),
];

#[test]
fn a_system_without_locks_is_as_if_each_was_had(rt: HostRuntime) {
    make_file(&rt, rt, "no_locks");
    let refusals = Refusals::none();
    refusals.locks.set(true);
    let mut first = run_over(&rt, refusals.over(rt), rt.alloc(), "no_locks");
    let mut second = run_over(&rt, refusals.over(rt), rt.alloc(), "no_locks");
    perform_both(&rt, &mut first, &mut second, &WITHOUT_LOCKS);
    assert_that(&rt, fs::remove_file(&rt, "no_locks/CUST").is_ok());
    perform(&rt, &mut first, &MADE_AGAIN);
}

// Neither by the same file nor by another one.
const NEVER_MADE: [(Act, Answer); 3] = [
    (Act::Make(2), REFUSED),
    (Act::AttachOther, DONE),
    (Act::Make(2), REFUSED),
];

// A later run cannot see it any more.
const MADE_LATER: [(Act, Answer); 2] = [(Act::Make(2), DONE), (Act::Find, WRITTEN_WITH_2)];

// The next sync of the folder fails: a run makes no file in it any more.
fn folder_is_not_synced<S: Shelf>(rt: &impl Abort, run: &mut S, refusals: &Refusals)
    requires unit { HasUnit (S.state run.old) 0 }
{
    refusals.folder_sync.set(true);
    perform(rt, run, &NOT_MADE);
    assert_that(rt, !refusals.folder_sync.get());
    perform(rt, run, &NEVER_MADE);
}

#[test]
fn a_sync_of_the_folder_that_failed_stays_failed(rt: HostRuntime) {
    make_folder(&rt, rt, "folder_sync", "folder_sync/CUST");
    let refusals = Refusals::none();
    let mut run = run_over(&rt, refusals.over(rt), rt.alloc(), "folder_sync");
    folder_is_not_synced(&rt, &mut run, &refusals);
    perform_over(&rt, rt, &refusals, "folder_sync", &MADE_LATER);
}

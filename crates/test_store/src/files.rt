//! Files written, stopped and read back over each shelf.
ghost use Rattle.std.specs.Prelude.{◌≡◌, ◌<◌, ◌^◌, ◌-◌, ℕ, IsTrue};
ghost use Rattle.page_store.specs.ShelfState.{HasUnit, unit_file};
ghost use Rattle.page_store.specs.Pages.{HoldsPages};
ghost use Rattle.memory_shelf.specs.MemShelves.{mem_state_of};

use crate::checks::{assert_equal, assert_equal_for};
use crate::shelves::{attach, below, new_shelf};
use io_state::Fault;
use memory_shelf::{FuseShelf, Image, Kind, MemShelf};
use page_store::{Shelf, Store};
use std::alloc::Global;
use std::process::Abort;

/// What a file is found to be after a stop.
#[derive(Clone, Copy, Debug, PartialEq, Eq)]
pub enum Found {
    Absent,
    Refused,
    /// Closed, each page that of the file made from this byte, and so many pages.
    Closed(u8, u32),
    Mixed,
}

// Page n of the file made from a byte is full of this one.
fn byte_of(byte: u8, n: u32) -> u8 {
    byte.wrapping_add((n % 100) as u8)
}

// Writes the pages below count.
fn fill<S: Shelf>(shelf: &mut S, store: &mut Store, count: u32, byte: u8) -> Result<(), Fault>
    requires unit { HasUnit (S.state shelf.old) store.old.unit }
    requires pages { IsTrue (S.state shelf.old).is_honest
        → HoldsPages store.old.pages (unit_file (S.state shelf.old) store.old.unit) }
    requires count { count < 2 ^ 32 - 1 }
    ensures unit { HasUnit (S.state shelf.new) store.new.unit }
    ensures same { store.new.unit ≡ store.old.unit }
    ensures pages { IsTrue (S.state shelf.new).is_honest
        → HoldsPages store.new.pages (unit_file (S.state shelf.new) store.new.unit) }
{
    for n in 0..count {
        if n > store.pages {
            return Ok(());
        }
        store.write_page(shelf, n, &[byte_of(byte, n); 4096])?;
    }
    Ok(())
}

/// Makes the file anew with these pages.
pub fn make<S: Shelf>(shelf: &mut S, count: u32, byte: u8) -> Result<(), Fault>
    requires unit { HasUnit (S.state shelf.old) 0 }
    requires count { count < 2 ^ 32 - 1 }
    ensures unit { HasUnit (S.state shelf.new) 0 }
{
    let mut store = Store::make(shelf, 0)?;
    fill(shelf, &mut store, count, byte)?;
    store.finish(shelf)
}

/// Changes these pages of a file that is there.
pub fn change<S: Shelf>(shelf: &mut S, count: u32, byte: u8) -> Result<(), Fault>
    requires unit { HasUnit (S.state shelf.old) 0 }
    requires count { count < 2 ^ 32 - 1 }
    ensures unit { HasUnit (S.state shelf.new) 0 }
{
    if !shelf.exists(0)? {
        return Ok(());
    }
    let mut store = Store::open(shelf, 0)?;
    if store.pages < count || count == 0 {
        return Ok(());
    }
    store.begin_change(shelf)?;
    fill(shelf, &mut store, count, byte)?;
    store.finish(shelf)
}

/// Opens the gate of a file that is there, and stops.
pub fn begin<S: Shelf>(shelf: &mut S, unit: usize) -> Result<(), Fault>
    requires unit { HasUnit (S.state shelf.old) unit }
    ensures unit { (u : ℕ) → HasUnit (S.state shelf.old) u → HasUnit (S.state shelf.new) u }
{
    if !shelf.exists(unit)? {
        return Ok(());
    }
    let store = Store::open(shelf, unit)?;
    if store.pages > 0 {
        store.begin_change(shelf)?;
    }
    Ok(())
}

// Reads the pages of a file that was made from this byte.
fn find_pages<S: Shelf>(shelf: &mut S, store: Store, byte: u8) -> Result<Found, Fault>
    requires unit { HasUnit (S.state shelf.old) store.unit }
    requires pages { IsTrue (S.state shelf.old).is_honest
        → HoldsPages store.pages (unit_file (S.state shelf.old) store.unit) }
    ensures unit { HasUnit (S.state shelf.new) store.unit }
{
    let mut page = [0; 4096];
    for n in 0..store.pages {
        store.read_page(shelf, n, &mut page)?;
        let want = [byte_of(byte, n); 4096];
        if page[1..] != want[1..] {
            return Ok(Found::Mixed);
        }
    }
    Ok(Found::Closed(byte, store.pages))
}

// Reads a file that has a page.
fn find_gate<S: Shelf>(shelf: &mut S, store: Store) -> Result<Found, Fault>
    requires unit { HasUnit (S.state shelf.old) store.unit }
    requires pages { IsTrue (S.state shelf.old).is_honest
        → HoldsPages store.pages (unit_file (S.state shelf.old) store.unit) }
    requires some { 0 < store.pages }
    ensures unit { HasUnit (S.state shelf.new) store.unit }
{
    let mut page = [0; 4096];
    store.read_page(shelf, 0, &mut page)?;
    if page[0] != b'C' {
        return Ok(Found::Refused);
    }
    find_pages(shelf, store, page[1])
}

pub fn find<S: Shelf>(shelf: &mut S) -> Result<Found, Fault>
    requires unit { HasUnit (S.state shelf.old) 0 }
    ensures unit { HasUnit (S.state shelf.new) 0 }
{
    if !shelf.exists(0)? {
        return Ok(Found::Absent);
    }
    let store = Store::open(shelf, 0)?;
    if store.pages == 0 {
        return Ok(Found::Refused);
    }
    find_gate(shelf, store)
}

#[test]
fn a_hundred_pages_are_read_as_written(rt: HostRuntime) {
    let mut shelf = new_shelf(&rt, rt.alloc());
    assert_equal(&rt, make(&mut shelf, 100, 7), Ok(()));
    assert_equal(&rt, find(&mut shelf), Ok(Found::Closed(7, 100)));
    assert_equal(&rt, shelf.faults(), 0);
}

/// How a call of a shelf fails: after it was made or before, and once or for good.
pub const WAYS: [(bool, bool); 4] = [(false, false), (false, true), (true, false), (true, true)];

// A call failed of a program that makes a file and reads it back: whether it was made, what it found,
// and what is found later.
fn is_whole_or_refused(
    rt: &impl Abort,
    fuse: (Kind, u64, bool, bool),
    count: u32,
    made: bool,
    found: Result<Found, Fault>,
    left: Found,
) {
    if made {
        assert_equal_for(rt, fuse, left, Found::Closed(7, count));
        assert_equal_for(rt, fuse, found.is_err(), true);
    }
    assert_equal_for(rt, fuse, left == Found::Mixed, false);
}

// The n-th call of a kind fails, of a program that makes a file of so many pages and reads it back: the
// file is closed whole, or refused. Whether a call failed.
pub fn fails_at<S: Shelf + Drop>(
    rt: &impl Abort,
    inner: S,
    fuse: (Kind, u64, bool, bool),
    count: u32,
) -> bool
    requires unit { HasUnit (S.state inner) 0 }
    requires count { count < 2 ^ 32 - 1 }
{
    let (kind, at, after, for_good) = fuse;
    let mut shelf = FuseShelf::new(inner, kind, at, after, for_good);
    let made = make(&mut shelf, count, 7).is_ok();
    let found = find(&mut shelf);
    let failed = shelf.faults() > 0;
    assert_equal_for(rt, fuse, failed, shelf.calls(kind) >= at);
    assert_equal_for(rt, fuse, shelf.unperformed(), 0);
    if !failed {
        assert_equal_for(rt, fuse, made, true);
        assert_equal_for(rt, fuse, found, Ok(Found::Closed(7, count)));
        return false;
    }
    let mut inner = below(rt, shelf);
    let left = find(&mut inner).expect(rt, "no call fails");
    is_whole_or_refused(rt, fuse, count, made, found, left);
    true
}

// Each of the calls of a kind fails in turn, up to the first number that no call has. How many calls
// there are.
fn each_call_fails(rt: &impl Abort, alloc: Global, kind: Kind, after: bool, for_good: bool) -> u64 {
    for at in 1..200 {
        let inner = new_shelf(rt, alloc);
        if !fails_at(rt, inner, (kind, at, after, for_good), 100) {
            return at - 1;
        }
    }
    200
}

/// How many calls of each kind make a file of so many pages and read it back. The first page is read
/// twice, first for its gate. The gate is written before the pages and behind them. The file is synced
/// when its gate is open, when its pages are written, and when its gate is closed. It is created once.
pub fn calls_for(pages: u32) -> [(Kind, u64); 4] {
    [
        (Kind::Reads, u64::from(pages) + 1),
        (Kind::Writes, u64::from(pages) + 2),
        (Kind::Syncs, 3),
        (Kind::Changes, u64::from(pages) + 6),
    ]
}

#[test]
fn a_file_is_closed_only_if_no_call_failed(rt: HostRuntime) {
    for (kind, expected) in calls_for(100) {
        for &(after, for_good) in &WAYS {
            let calls = each_call_fails(&rt, rt.alloc(), kind, after, for_good);
            assert_equal_for(&rt, (kind, after, for_good), calls, expected);
        }
    }
}

const IMAGES: [Image; 4] = [
    Image::AsRead,
    Image::Synced,
    Image::Filled(0),
    Image::Filled(b'C'),
];

// What a crash image holds.
fn found_after(rt: &impl Abort, alloc: Global, shelf: &MemShelf, image: Image) -> Found {
    let mut left = shelf.crash(alloc, image).expect(rt, "memory");
    attach(rt, &mut left);
    find(&mut left).expect(rt, "no call fails")
}

// Whether each crash image holds the new file or, where it was not done, may be refused or what was
// found at the start.
fn holds_new(rt: &impl Abort, alloc: Global, shelf: &MemShelf, start: Found, done: bool) -> bool {
    for &image in &IMAGES {
        let found = found_after(rt, alloc, shelf, image);
        let expected = found == Found::Closed(50, 2)
            || !done && (found == Found::Refused || found == start);
        if !expected {
            return false;
        }
    }
    true
}

// A shelf with an empty file.
fn with_empty_file(rt: &impl Abort, alloc: Global) -> MemShelf
    ensures unit { HasUnit (mem_state_of result) 0 }
{
    let mut shelf = new_shelf(rt, alloc);
    shelf.create(0).expect(rt, "an empty file");
    assert_equal(rt, shelf.sync(0), Ok(()));
    shelf
}

// A shelf with a closed file of two pages.
fn with_file(rt: &impl Abort, alloc: Global) -> MemShelf
    ensures unit { HasUnit (mem_state_of result) 0 }
{
    let mut shelf = new_shelf(rt, alloc);
    assert_equal(rt, make(&mut shelf, 2, 10), Ok(()));
    shelf
}

// What a shelf has before a file is made anew: none, an empty one, or a closed one.
fn with_start(rt: &impl Abort, alloc: Global, start: u32) -> MemShelf
    ensures unit { HasUnit (mem_state_of result) 0 }
{
    match start {
        0 => new_shelf(rt, alloc),
        1 => with_empty_file(rt, alloc),
        _ => with_file(rt, alloc),
    }
}

// The change of a closed file is begun, and stopped.
fn begin_at(rt: &impl Abort, shelf: &mut MemShelf, start: u32)
    requires unit { HasUnit (mem_state_of shelf.old) 0 }
    ensures unit { HasUnit (mem_state_of shelf.new) 0 }
{
    if start == 3 {
        assert_equal(rt, begin(shelf, 0), Ok(()));
    }
}

// A file is made anew, and stopped at the n-th change. Whether it was done.
fn stops_making(rt: &impl Abort, alloc: Global, start: u32, after: bool, at: u64) -> bool {
    let mut shelf = with_start(rt, alloc, start);
    let found = find(&mut shelf).expect(rt, "no call fails");
    begin_at(rt, &mut shelf, start);
    let mut fuse = FuseShelf::new(shelf, Kind::Changes, at, after, true);
    let done = make(&mut fuse, 2, 50).is_ok();
    assert_equal(rt, done, fuse.faults() == 0);
    let holds = holds_new(rt, alloc, &fuse.into_inner(), found, done);
    assert_equal_for(rt, (start, at), holds, true);
    done
}

// A file is made anew, and stopped at each change in turn. How many changes there are.
fn stops_making_at_each(rt: &impl Abort, alloc: Global, start: u32, after: bool) -> u64 {
    for at in 1..30 {
        if stops_making(rt, alloc, start, after, at) {
            return at - 1;
        }
    }
    30
}

// A file is made anew over none, over an empty one, over a closed one and over one whose change was
// stopped. Two pages, a sync, the gate and a sync are five changes. Before them the gate is opened: the
// file is created, or synced where it is empty, and then the gate and a sync; only these two where it is
// closed; and where it is open already, a sync alone.
#[test]
fn a_stop_inside_make_leaves_no_file_a_refused_one_the_old_or_the_new(rt: HostRuntime) {
    for &(start, changes) in &[(0, 8), (1, 8), (2, 7), (3, 6)] {
        for &after in &[false, true] {
            let found = stops_making_at_each(&rt, rt.alloc(), start, after);
            assert_equal_for(&rt, (start, after), found, changes);
        }
    }
}

// A file is changed, and stopped at the n-th change. Whether it was done.
fn stops_changing(rt: &impl Abort, alloc: Global, after: bool, at: u64) -> bool {
    let shelf = with_file(rt, alloc);
    let mut fuse = FuseShelf::new(shelf, Kind::Changes, at, after, true);
    let done = change(&mut fuse, 2, 50).is_ok();
    assert_equal(rt, done, fuse.faults() == 0);
    let holds = holds_new(rt, alloc, &fuse.into_inner(), Found::Closed(10, 2), done);
    assert_equal_for(rt, at, holds, true);
    done
}

// A file is changed, and stopped at each change in turn. How many changes there are.
fn stops_changing_at_each(rt: &impl Abort, alloc: Global, after: bool) -> u64 {
    for at in 1..30 {
        if stops_changing(rt, alloc, after, at) {
            return at - 1;
        }
    }
    30
}

// The gate and a sync open it; then come two pages, a sync, the gate and a sync.
#[test]
fn a_stop_inside_a_change_leaves_the_old_file_a_refused_one_or_the_new(rt: HostRuntime) {
    for &after in &[false, true] {
        let found = stops_changing_at_each(&rt, rt.alloc(), after);
        assert_equal_for(&rt, after, found, 7);
    }
}

//! Pages taken, written, given back and read again, over a shelf in memory that may fail.
ghost use Rattle.std.specs.Prelude.{◌≡◌, ◌<◌, IfOk, IfSome, IsTrue, true};
ghost use Rattle.page_store.specs.ShelfState.{HasUnit, unit_file};
ghost use Rattle.page_store.specs.Pages.{HoldsPages};
ghost use Rattle.page_alloc.specs.PagedFile.{IsOpenOver, is_begun};

use crate::checks::{assert_equal, assert_equal_for};
use crate::files::WAYS;
use crate::shelves::{below, new_shelf};
use io_state::Fault;
use memory_shelf::{FuseShelf, Kind, MemShelf};
use page_alloc::{FilePages, PagedFile, Pager};
use page_store::{Shelf, Store};
use pages::Pages;
use std::alloc::Global;
use std::num::NonZeroUsize;
use std::process::Abort;

/// What a file is found to be.
#[derive(Clone, Copy, Debug, PartialEq, Eq)]
enum Found {
    Absent,
    Refused,
    /// Closed, with so many pages that are as they were written, of so many.
    Closed(u32, u32),
}

// A page with its number at both of its ends.
fn marked(n: u32) -> [u8; 4096] {
    let mut page = [0; 4096];
    page[0] = (n % 251) as u8;
    page[4095] = (n % 251) as u8;
    page
}

// Takes pages and marks them. So many of them have the next number.
fn fill<P: Pages>(pages: &mut P, count: u32) -> Result<u32, Fault>
    requires ready { P.shown.IsReady pages.old }
    requires open { P.shown.CanChange pages.old }
    ensures goes { P.shown.Writes pages.old pages.new }
{
    let mut right = 0u32;
    for n in 0..count {
        let taken = pages.take()?;
        pages::store(pages, taken, &marked(taken))?;
        if taken == n.wrapping_add(1) {
            right = right.wrapping_add(1);
        }
    }
    Ok(right)
}

// How many of the first pages are marked, or else are pages of zeros.
fn count_pages<P: Pages>(pages: &mut P, count: u32, are_marked: bool) -> Result<u32, Fault>
    requires ready { P.shown.IsReady pages.old }
    ensures goes { P.shown.Writes pages.old pages.new }
{
    let mut page = [0; 4096];
    let mut right = 0u32;
    for n in 0..count {
        pages::copy(pages, n.wrapping_add(1), &mut page)?;
        if page == expected(n.wrapping_add(1), are_marked) {
            right = right.wrapping_add(1);
        }
    }
    Ok(right)
}

fn expected(n: u32, is_marked: bool) -> [u8; 4096] {
    if is_marked { marked(n) } else { [0; 4096] }
}

// Makes the file with so many marked pages, and closes it.
fn make<S: Shelf>(
    alloc: Global,
    shelf: &mut S,
    frames: NonZeroUsize,
    count: u32,
) -> Result<u32, Fault>
    requires unit { HasUnit (S.state shelf.old) 0 }
    ensures unit { HasUnit (S.state shelf.new) 0 }
{
    let mut header = [0; 4096];
    let mut file = PagedFile::create(alloc, shelf, 0, frames, 1000, &header)?;
    let right = fill(
        &mut FilePages {
            file: &mut file,
            shelf: &mut *shelf,
        },
        count,
    )?;
    file.pager().save(&mut header);
    file.close(shelf, &header)?;
    Ok(right)
}

// The file of a store that has a page, where it is closed.
fn reopen_store<S: Shelf>(
    alloc: Global,
    shelf: &mut S,
    store: Store,
    frames: NonZeroUsize,
) -> Result<Option<PagedFile>, Fault>
    requires unit { HasUnit (S.state shelf.old) store.unit }
    requires pages { IsTrue (S.state shelf.old).is_honest
        → HoldsPages store.pages (unit_file (S.state shelf.old) store.unit) }
    requires some { 0 < store.pages }
    ensures unit { HasUnit (S.state shelf.new) store.unit }
    ensures ready { IfOk result (λ found. IfSome found (λ file. IsOpenOver file (S.state shelf.new))) }
{
    let mut header = [0; 4096];
    store.read_page(shelf, 0, &mut header)?;
    let pager = Pager::load(&header, 1000);
    if header[0] != b'C' || pager.count() == 0 || pager.count() > store.pages {
        return Ok(None);
    }
    Ok(Some(PagedFile::open(alloc, store, frames, pager)?))
}

// A file that is there, with one frame for each page looked at.
fn reopen<S: Shelf>(
    alloc: Global,
    shelf: &mut S,
    frames: NonZeroUsize,
) -> Result<Option<PagedFile>, Fault>
    requires unit { HasUnit (S.state shelf.old) 0 }
    ensures unit { HasUnit (S.state shelf.new) 0 }
    ensures ready { IfOk result (λ found. IfSome found (λ file. IsOpenOver file (S.state shelf.new))) }
{
    if !shelf.exists(0)? {
        return Ok(None);
    }
    let store = Store::open(shelf, 0)?;
    if store.pages == 0 {
        return Ok(None);
    }
    reopen_store(alloc, shelf, store, frames)
}

fn find<S: Shelf>(alloc: Global, shelf: &mut S, frames: NonZeroUsize) -> Result<Found, Fault>
    requires unit { HasUnit (S.state shelf.old) 0 }
    ensures unit { HasUnit (S.state shelf.new) 0 }
{
    let Some(mut file) = reopen(alloc, shelf, frames)? else {
        return Ok(Found::Refused);
    };
    let count = file.pager().count().saturating_sub(1);
    let right = count_pages(
        &mut FilePages {
            file: &mut file,
            shelf,
        },
        count,
        true,
    )?;
    Ok(Found::Closed(right, count))
}

fn frames(count: usize) -> NonZeroUsize {
    NonZeroUsize::new(count).unwrap_or(NonZeroUsize::MIN)
}

#[test]
fn a_hundred_pages_are_read_as_written_with_any_number_of_frames(rt: HostRuntime) {
    for &count in &[1, 2, 64, 4096] {
        let mut shelf = new_shelf(&rt, rt.alloc());
        let made = make(rt.alloc(), &mut shelf, frames(count), 100);
        assert_equal_for(&rt, count, made, Ok(100));
        let found = find(rt.alloc(), &mut shelf, frames(count));
        assert_equal_for(&rt, count, found, Ok(Found::Closed(100, 100)));
    }
}

// The n-th call of a kind fails, in a program that makes a file of so many pages. Whether it has so
// many calls.
fn fails_at(
    rt: &impl Abort,
    alloc: Global,
    kind: Kind,
    way: (bool, bool),
    held: usize,
    pages: u32,
    at: u64,
) -> bool {
    let mut shelf = FuseShelf::new(new_shelf(rt, alloc), kind, at, way.0, way.1);
    let made = make(alloc, &mut shelf, frames(held), pages);
    let failed = shelf.faults() > 0;
    let mut inner = below(rt, shelf);
    let found = find(alloc, &mut inner, frames(held)).expect(rt, "no call fails");
    if made.is_ok() {
        assert_equal_for(rt, (kind, at, held), found, Found::Closed(pages, pages));
    } else {
        let holds = found == Found::Refused || found == Found::Closed(pages, pages);
        assert_equal_for(rt, (kind, at, held), failed && holds, true);
    }
    failed
}

// Each call of a kind fails in turn, up to the first number that no call has. How many calls there are.
fn each_call_fails(
    rt: &impl Abort,
    alloc: Global,
    kind: Kind,
    way: (bool, bool),
    held: usize,
    pages: u32,
    most: u64,
) -> u64 {
    for at in 1..most {
        if !fails_at(rt, alloc, kind, way, held, pages, at) {
            return at - 1;
        }
    }
    most
}

// How many calls of each kind make a file of so many pages. None reads. The gate and the header are
// written twice, and so is each page: as one of zeros where it is taken, and when it was changed. The
// file is synced when its gate is open, when its pages are written, and when its gate is closed.
fn calls_for(pages: u32) -> [(Kind, u64); 3] {
    [
        (Kind::Reads, 0),
        (Kind::Writes, u64::from(pages) * 2 + 4),
        (Kind::Syncs, 3),
    ]
}

#[test]
fn a_file_is_closed_whole_or_refused_whichever_call_failed(rt: HostRuntime) {
    for &held in &[1, 3, 64] {
        for (kind, expected) in calls_for(8) {
            for &way in &WAYS {
                let calls = each_call_fails(&rt, rt.alloc(), kind, way, held, 8, 200);
                assert_equal_for(&rt, (kind, held), calls, expected);
            }
        }
    }
}

#[test]
fn a_file_of_a_hundred_pages_is_closed_whole_or_refused_whichever_call_failed_once(
    rt: HostRuntime,
) {
    for &held in &[1, 64] {
        for (kind, expected) in calls_for(100) {
            let calls = each_call_fails(&rt, rt.alloc(), kind, (false, false), held, 100, 1000);
            assert_equal_for(&rt, (kind, held), calls, expected);
        }
    }
}

// The n-th read fails, where a closed file of eight pages is read back. Whether it has so many reads.
fn read_fails_at(rt: &impl Abort, alloc: Global, way: (bool, bool), held: usize, at: u64) -> bool {
    let mut inner = new_shelf(rt, alloc);
    assert_equal(rt, make(alloc, &mut inner, frames(held), 8), Ok(8));
    let mut shelf = FuseShelf::new(inner, Kind::Reads, at, way.0, way.1);
    let found = find(alloc, &mut shelf, frames(held));
    let failed = shelf.faults() > 0;
    match found {
        Ok(found) => assert_equal_for(rt, (at, held), found, Found::Closed(8, 8)),
        Err(_) => assert_equal_for(rt, (at, held), failed, true),
    }
    let mut inner = below(rt, shelf);
    let found = find(alloc, &mut inner, frames(held));
    assert_equal(rt, found, Ok(Found::Closed(8, 8)));
    failed
}

// Each read fails in turn, up to the first number that no read has. How many reads there are.
fn each_read_fails(rt: &impl Abort, alloc: Global, way: (bool, bool), held: usize) -> u64 {
    for at in 1..200 {
        if !read_fails_at(rt, alloc, way, held, at) {
            return at - 1;
        }
    }
    200
}

#[test]
fn pages_are_read_as_written_or_not_at_all_whichever_read_failed(rt: HostRuntime) {
    for &held in &[1, 3, 64] {
        for &way in &WAYS {
            // The header and each of the eight pages, once.
            assert_equal_for(&rt, held, each_read_fails(&rt, rt.alloc(), way, held), 9);
        }
    }
}

// Takes so many pages, or as many as are left: how many, how many of them have the next number, and
// why no more.
fn take_pages<P: Pages>(pages: &mut P, count: u32) -> (u32, u32, Option<Fault>)
    requires ready { P.shown.IsReady pages.old }
    requires open { P.shown.CanChange pages.old }
    ensures goes { P.shown.Writes pages.old pages.new }
{
    let mut right = 0u32;
    for n in 0..count {
        match pages.take() {
            Ok(taken) => {
                if taken == n.wrapping_add(1) {
                    right = right.wrapping_add(1);
                }
            }
            Err(fault) => return (n, right, Some(fault)),
        }
    }
    (count, right, None)
}

// A new file of at most so many pages, whose header is full of this byte.
fn created<S: Shelf>(
    rt: &impl Abort,
    alloc: Global,
    shelf: &mut S,
    held: usize,
    limit: u32,
    byte: u8,
) -> PagedFile
    requires unit { HasUnit (S.state shelf.old) 0 }
    ensures ready { IsOpenOver result (S.state shelf.new) }
    ensures begun { is_begun result ≡ true }
{
    PagedFile::create(alloc, shelf, 0, frames(held), limit, &[byte; 4096]).expect(rt, "a file")
}

// Two pages are given back and taken again.
fn give_and_take<P: Pages>(rt: &impl Abort, pages: &mut P)
    requires ready { P.shown.IsReady pages.old }
    requires open { P.shown.CanChange pages.old }
    ensures goes { P.shown.Writes pages.old pages.new }
{
    let given = (pages.give(7), pages.give(9));
    assert_equal(rt, given, (Ok(()), Ok(())));
    assert_equal(rt, pages.pages_left(), 2);
    // The page given back last is taken first.
    assert_equal(rt, (pages.take(), pages.take()), (Ok(9), Ok(7)));
}

// Of sixteen pages twelve are left behind three and the header.
fn twelve_are_left<P: Pages>(rt: &impl Abort, pages: &mut P)
    requires ready { P.shown.IsReady pages.old }
    requires open { P.shown.CanChange pages.old }
    ensures goes { P.shown.Writes pages.old pages.new }
{
    assert_equal(rt, fill(pages, 3), Ok(3));
    assert_equal(rt, pages.pages_left(), 12);
    assert_equal(rt, take_pages(pages, 100), (12, 0, Some(Fault::Full)));
}

#[test]
fn a_limit_of_sixteen_leaves_twelve_pages_behind_four(rt: HostRuntime) {
    let mut shelf = new_shelf(&rt, rt.alloc());
    let mut file = created(&rt, rt.alloc(), &mut shelf, 2, 16, 9);
    let mut pages = FilePages {
        file: &mut file,
        shelf: &mut shelf,
    };
    twelve_are_left(&rt, &mut pages);
    give_and_take(&rt, &mut pages);
    assert_equal(&rt, take_pages(&mut pages, 100), (0, 0, Some(Fault::Full)));
    let mut header = [0; 4096];
    let read = file.cache().read_header(&mut shelf, &mut header);
    assert_equal(&rt, read, Ok(()));
    assert_equal(&rt, (header[0], header[1], header[4095]), (b'D', 9, 9));
}

// Ten rounds over the first eight pages, each lent for writing.
fn change_often<P: Pages>(pages: &mut P) -> Result<(), Fault>
    requires ready { P.shown.IsReady pages.old }
    requires open { P.shown.CanChange pages.old }
    ensures goes { P.shown.Writes pages.old pages.new }
{
    for n in 0..80u32 {
        pages::store(pages, n % 8 + 1, &marked(n % 8 + 1))?;
    }
    Ok(())
}

// A file that is there, whose gate is open.
fn begun<S: Shelf>(rt: &impl Abort, alloc: Global, shelf: &mut S, held: usize) -> PagedFile
    requires unit { HasUnit (S.state shelf.old) 0 }
    ensures ready { IsOpenOver result (S.state shelf.new) }
    ensures begun { is_begun result ≡ true }
{
    let found = reopen(alloc, shelf, frames(held)).expect(rt, "no call fails");
    let mut file = found.expect(rt, "a file that is closed");
    file.begin(shelf).expect(rt, "an open gate");
    file
}

// A file of eight pages is closed again, which writes them, the header and the gate.
fn is_written_when_it_is_closed(
    rt: &impl Abort,
    file: &mut PagedFile,
    shelf: &mut FuseShelf<MemShelf>,
)
    requires ready { IsOpenOver file.old (⟦<FuseShelf<MemShelf> as Shelf>⟧.state shelf.old) }
{
    let writes = shelf.calls(Kind::Writes);
    assert_equal(rt, file.close(shelf, &[0; 4096]), Ok(()));
    assert_equal(rt, shelf.calls(Kind::Writes).wrapping_sub(writes), 10);
    file.restart_count();
    assert_equal(rt, file.cache().asked(), 0);
}

#[test]
fn a_page_is_read_once_while_it_is_held_and_written_when_the_file_is_closed(rt: HostRuntime) {
    let inner = new_shelf(&rt, rt.alloc());
    let mut shelf = FuseShelf::new(inner, Kind::Reads, 0, false, false);
    assert_equal(&rt, make(rt.alloc(), &mut shelf, frames(8), 8), Ok(8));
    let mut file = begun(&rt, rt.alloc(), &mut shelf, 8);
    let (reads, writes) = (shelf.calls(Kind::Reads), shelf.calls(Kind::Writes));
    let changed = change_often(&mut FilePages {
        file: &mut file,
        shelf: &mut shelf,
    });
    assert_equal(&rt, changed, Ok(()));
    assert_equal(&rt, shelf.calls(Kind::Reads).wrapping_sub(reads), 8);
    assert_equal(&rt, shelf.calls(Kind::Writes), writes);
    let asked = (file.cache().asked(), file.cache().held_pages());
    assert_equal(&rt, asked, (80, 8));
    is_written_when_it_is_closed(&rt, &mut file, &mut shelf);
}

// A file whose header counts no page but itself, and behind which eight marked pages lie.
fn make_uncounted<S: Shelf>(rt: &impl Abort, alloc: Global, shelf: &mut S)
    requires unit { HasUnit (S.state shelf.old) 0 }
    ensures unit { HasUnit (S.state shelf.new) 0 }
{
    let mut file = created(rt, alloc, shelf, 8, 1000, 0);
    let filled = fill(
        &mut FilePages {
            file: &mut file,
            shelf: &mut *shelf,
        },
        8,
    );
    assert_equal(rt, filled, Ok(8));
    let mut header = [0; 4096];
    Pager::fresh(1000).save(&mut header);
    assert_equal(rt, file.close(shelf, &header), Ok(()));
}

// The first eight pages of a file are pages of zeros.
fn are_zeros<S: Shelf>(rt: &impl Abort, file: &mut PagedFile, shelf: &mut S, held: usize)
    requires ready { IsOpenOver file.old (S.state shelf.old) }
{
    let zeros = count_pages(&mut FilePages { file, shelf }, 8, false);
    assert_equal_for(rt, held, zeros, Ok(8));
}

// Eight pages inside a file are taken without a read, and are pages of zeros.
fn are_taken_without_a_read(
    rt: &impl Abort,
    alloc: Global,
    shelf: &mut FuseShelf<MemShelf>,
    held: usize,
)
    requires unit { HasUnit (⟦<FuseShelf<MemShelf> as Shelf>⟧.state shelf.old) 0 }
{
    let mut file = begun(rt, alloc, shelf, held);
    let reads = shelf.calls(Kind::Reads);
    let taken = take_pages(
        &mut FilePages {
            file: &mut file,
            shelf: &mut *shelf,
        },
        8,
    );
    assert_equal(rt, taken, (8, 8, None));
    assert_equal(rt, shelf.calls(Kind::Reads), reads);
    assert_equal(rt, file.cache().asked(), 8);
    are_zeros(rt, &mut file, shelf, held);
}

#[test]
fn a_page_inside_the_file_is_taken_without_a_read(rt: HostRuntime) {
    for &held in &[1, 3, 8] {
        let inner = new_shelf(&rt, rt.alloc());
        let mut shelf = FuseShelf::new(inner, Kind::Reads, 0, false, false);
        make_uncounted(&rt, rt.alloc(), &mut shelf);
        are_taken_without_a_read(&rt, rt.alloc(), &mut shelf, held);
    }
}

#[test]
fn the_gate_is_opened_through_the_pages(rt: HostRuntime) {
    let mut shelf = new_shelf(&rt, rt.alloc());
    let mut file = created(&rt, rt.alloc(), &mut shelf, 2, 16, 9);
    let mut pages = FilePages {
        file: &mut file,
        shelf: &mut shelf,
    };
    assert_equal(&rt, pages.begin(), Ok(()));
    assert_equal(&rt, pages.pages_left(), 15);
}

//! Files that are copied from one shelf to another.

ghost use Rattle.shelf_library.specs.Standing.{IsReady};

use crate::checks::{assert_equal, assert_equal_for};
use file_building::{Copied, CopyingFault, copy_closed};
use indexed_file::Added;
use io_state::{Fault, FileName};
use memory_shelf::MemShelf;
use page_store::Shelf;
use record_layout::{KeyKind, KeyPart, Schema};
use shelf_library::{HeaderLook, ShelfFile, look_at};
use std::alloc::Global;
use std::num::NonZeroUsize;
use std::process::Abort;

/// The length of a record.
const LENGTH: u16 = 200;

/// A prime key, a key of which several records have one value, and one of which no two have.
const KEYS: [KeyPart; 3] = [
    KeyPart {
        offset: 0,
        length: 4,
        kind: KeyKind::Prime,
    },
    KeyPart {
        offset: 4,
        length: 100,
        kind: KeyKind::Duplicates,
    },
    KeyPart {
        offset: 104,
        length: 4,
        kind: KeyKind::Unique,
    },
];

fn name(rt: &impl Abort) -> FileName {
    FileName::from("FILE").expect(rt, "a name")
}

/// The record of a number: its group is one of seven, and its value of the last key is its own.
fn record(n: u32) -> [u8; 200] {
    let mut record = [b'-'; 200];
    record[..4].copy_from_slice(&n.to_be_bytes());
    record[4] = (n % 7) as u8;
    record[104..108].copy_from_slice(&n.wrapping_mul(2_654_435_761).to_be_bytes());
    record
}

/// Adds the record of a number.
fn adds<S: Shelf>(rt: &impl Abort, held: &mut ShelfFile, shelf: &mut S, n: u32)
    requires { IsReady held.old (S.state shelf.old) }
    ensures { IsReady held.new (S.state shelf.new) }
{
    let schema = held.parts().schema();
    assert!(rt; schema.least() == LENGTH);
    assert!(rt; schema.greatest() == LENGTH);
    let added = held.add(shelf, &record(n)).expect(rt, "an answer");
    assert_equal_for(rt, n, added == Added::Clash, false);
}

/// Adds the records of so many numbers, each once and in no order of theirs.
fn fills<S: Shelf>(rt: &impl Abort, held: &mut ShelfFile, shelf: &mut S, count: u32)
    requires { IsReady held.old (S.state shelf.old) }
    ensures { IsReady held.new (S.state shelf.new) }
{
    for i in 0..count {
        adds(rt, held, shelf, i.wrapping_mul(1231) % count);
    }
}

/// A shelf with a closed file of so many records, and how many pages it has.
fn made(rt: &impl Abort, alloc: Global, count: u32) -> (MemShelf, u32) {
    let schema = Schema::from_parts(LENGTH, LENGTH, &KEYS).expect(rt, "a schema");
    let mut shelf = MemShelf::new(alloc);
    shelf.attach(&[name(rt)]).expect(rt, "attached");
    let mut held = ShelfFile::create(
        alloc,
        &mut shelf,
        0,
        NonZeroUsize::MIN,
        10_000,
        &schema,
    ).expect(rt, "a new file");
    fills(rt, &mut held, &mut shelf, count);
    held.close(&mut shelf).expect(rt, "closed");
    match look(rt, &mut shelf) {
        HeaderLook::Accepted(header) => (shelf, header.pages),
        _ => panic!(rt; "the file is refused"),
    }
}

/// What is found of the file of a shelf.
fn look(rt: &impl Abort, shelf: &mut MemShelf) -> HeaderLook {
    shelf.attach(&[name(rt)]).expect(rt, "attached");
    look_at(shelf, 0).expect(rt, "a look")
}

/// Copies the file of one shelf to another, in the order of a key, where it may have so many pages.
fn copies(
    rt: &impl Abort,
    alloc: Global,
    from: &mut MemShelf,
    to: &mut MemShelf,
    key: u8,
    limit: u32,
) -> Result<Copied, CopyingFault> {
    from.attach(&[name(rt)]).expect(rt, "attached");
    to.attach(&[name(rt)]).expect(rt, "attached");
    copy_closed(alloc, from, 0, to, 0, key, NonZeroUsize::MIN, limit)
}

/// A file of so many records is copied in the order of a key into no more pages, and into the copy
/// nothing is copied.
fn is_copied(rt: &impl Abort, alloc: Global, key: u8, count: u32) {
    let (mut from, pages) = made(rt, alloc, count);
    let mut to = MemShelf::new(alloc);
    let copied = copies(rt, alloc, &mut from, &mut to, key, 10_000).expect(rt, "a copy");
    assert_equal_for(rt, count, copied.records, u64::from(count));
    assert_equal_for(rt, count, copied.pages <= pages, true);
    match look(rt, &mut to) {
        HeaderLook::Accepted(header) => assert_equal_for(rt, count, header.pages, copied.pages),
        _ => panic!(rt; "the copy is refused"),
    }
    let again = copies(rt, alloc, &mut from, &mut to, key, 10_000);
    assert_equal_for(rt, count, again, Err(CopyingFault::IsThere));
}

#[test]
fn a_copy_has_the_records_in_no_more_pages(rt: HostRuntime) {
    for &key in &[0, 1, 2] {
        for &count in &[0, 1, 1000] {
            is_copied(&rt, rt.alloc(), key, count);
        }
    }
}

#[test]
fn a_copy_of_too_many_pages_is_refused(rt: HostRuntime) {
    let alloc = rt.alloc();
    let (mut from, _) = made(&rt, alloc, 1000);
    let mut to = MemShelf::new(alloc);
    let copied = copies(&rt, alloc, &mut from, &mut to, 0, 16);
    assert_equal(&rt, copied, Err(CopyingFault::Writing(Fault::Full)));
    assert_equal(&rt, matches!(look(&rt, &mut to), HeaderLook::Refused), true);
}

#[test]
fn a_key_that_the_file_has_not_is_refused(rt: HostRuntime) {
    let alloc = rt.alloc();
    let (mut from, _) = made(&rt, alloc, 1);
    let mut to = MemShelf::new(alloc);
    let copied = copies(&rt, alloc, &mut from, &mut to, 3, 16);
    assert_equal(&rt, copied, Err(CopyingFault::NoKey));
    assert_equal(&rt, matches!(look(&rt, &mut to), HeaderLook::NoFile), true);
}

#[test]
fn where_there_is_no_file_nothing_is_copied(rt: HostRuntime) {
    let alloc = rt.alloc();
    let (mut from, mut to) = (MemShelf::new(alloc), MemShelf::new(alloc));
    let copied = copies(&rt, alloc, &mut from, &mut to, 0, 16);
    assert_equal(&rt, copied, Err(CopyingFault::NoneToCopy));
    assert_equal(&rt, matches!(look(&rt, &mut to), HeaderLook::NoFile), true);
}

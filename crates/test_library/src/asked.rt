//! The pages that calls ask for, over a file of two thousand records with keys of 120 bytes.

ghost use Rattle.indexed_file.specs.Clients.{IsOpenWith, IsNotOpen};

use crate::alike::is_same_key;
use crate::bounds::asked_at_most;
use crate::checks::{assert_equal, assert_equal_for, assert_that};
use crate::opening::opens_sound;
use indexed_file::{Added, Library, Replaced};
use io_state::{Key, Position, Relation};
use memory_shelf::{FuseShelf, Kind, MemShelf};
use page_store::Shelf;
use record_layout::Schema;
use std::alloc::Global;
use std::process::Abort;
use unit_calls::{
    HasTrees, Record, adds_numbers, creates, finds, goes_on, key_of, library_over, most_to_change,
    most_to_read, most_to_seek, record_of, removes, replaces, restarts, seeks, shuts, tops,
    two_long_keys,
};

/// One more than the greatest number of a record.
const END: u64 = 2001;

/// The record of a number, with one of seven values.
fn record(schema: &Schema, n: u64) -> Record {
    record_of(schema, &[n, n % 7], 240)
}

/// Adds the record of a number.
fn adds_one<L: Library + HasTrees>(rt: &impl Abort, library: &mut L, schema: &Schema, n: u64) -> u64
    requires { IsOpenWith (L.shown.world library.old) 0 schema.now }
    ensures { IsOpenWith (L.shown.world library.new) 0 schema.now }
{
    let most = most_to_change(library);
    let added = adds_numbers(library, 0, schema, &[n, n % 7]);
    assert_equal(rt, added, Ok(Added::Done { repeated: n > 7 }));
    asked_at_most(rt, library, schema, most)
}

/// Adds all records.
fn adds_all<L: Library + HasTrees>(rt: &impl Abort, library: &mut L, schema: &Schema) -> u64
    requires { IsOpenWith (L.shown.world library.old) 0 schema.now }
    ensures { IsOpenWith (L.shown.world library.new) 0 schema.now }
{
    let mut pages = 0u64;
    for n in 1..END {
        pages = pages.saturating_add(adds_one(rt, library, schema, n));
    }
    pages
}

/// Removes the record of a number.
fn removes_one<L: Library + HasTrees>(
    rt: &impl Abort,
    library: &mut L,
    schema: &Schema,
    n: u64,
) -> u64
    requires { IsOpenWith (L.shown.world library.old) 0 schema.now }
    ensures { IsOpenWith (L.shown.world library.new) 0 schema.now }
{
    let most = most_to_change(library);
    let number = key_of(schema, 0, n).expect(rt, "a key");
    let removed = removes(library, 0, schema, number.as_slice());
    assert_equal(rt, removed, Ok(true));
    asked_at_most(rt, library, schema, most)
}

/// Removes those of even numbers.
fn removes_even<L: Library + HasTrees>(rt: &impl Abort, library: &mut L, schema: &Schema) -> u64
    requires { IsOpenWith (L.shown.world library.old) 0 schema.now }
    ensures { IsOpenWith (L.shown.world library.new) 0 schema.now }
{
    let mut pages = 0u64;
    for n in 1..END {
        if n % 2 == 0 {
            pages = pages.saturating_add(removes_one(rt, library, schema, n));
        }
    }
    pages
}

/// Gives the record of a number another value.
fn changes_one<L: Library + HasTrees>(
    rt: &impl Abort,
    library: &mut L,
    schema: &Schema,
    n: u64,
) -> u64
    requires { IsOpenWith (L.shown.world library.old) 0 schema.now }
    ensures { IsOpenWith (L.shown.world library.new) 0 schema.now }
{
    let most = most_to_change(library);
    let record = record_of(schema, &[n, n.wrapping_add(1) % 7], 240);
    let replaced = replaces(library, 0, schema, record.as_slice());
    assert_equal(rt, replaced, Ok(Replaced::Done { repeated: true }));
    asked_at_most(rt, library, schema, most)
}

/// Gives some records another value.
fn changes_some<L: Library + HasTrees>(rt: &impl Abort, library: &mut L, schema: &Schema) -> u64
    requires { IsOpenWith (L.shown.world library.old) 0 schema.now }
    ensures { IsOpenWith (L.shown.world library.new) 0 schema.now }
{
    let mut pages = 0u64;
    for n in 1..END {
        if n % 20 == 1 {
            pages = pages.saturating_add(changes_one(rt, library, schema, n));
        }
    }
    pages
}

/// Reads the record that comes next by key k, which is that of this number.
fn reads_record<L: Library + HasTrees>(
    rt: &impl Abort,
    library: &mut L,
    schema: &Schema,
    k: u8,
    position: &Position,
    n: u64,
) -> (Position, u64)
    requires { IsOpenWith (L.shown.world library.old) 0 schema.now }
    ensures { IsOpenWith (L.shown.world library.new) 0 schema.now }
{
    let most = most_to_read(library, k);
    let read = goes_on(library, 0, schema, k, position).expect(rt, "an answer");
    let has_record = read.has(record(schema, n).as_slice());
    assert_equal_for(rt, (k, n), has_record, true);
    let is_repeated = k > 0 && n < END - 14;
    assert_equal_for(rt, (k, n), read.repeats(), is_repeated);
    let behind = read.behind().unwrap_or(Position::Invalid);
    (behind, asked_at_most(rt, library, schema, most))
}

/// Whether the record of a number is one of an odd number with this value of key k. By their numbers they are
/// all of one value.
fn has_value(k: u8, value: u64, n: u64) -> bool {
    let same = if k == 0 { value == 0 } else { n % 7 == value };
    same && n % 2 == 1
}

/// Reads those of odd numbers by key k. Those of one value come in the order of their numbers.
fn reads_odd<L: Library + HasTrees>(rt: &impl Abort, library: &mut L, schema: &Schema, k: u8) -> u64
    requires { IsOpenWith (L.shown.world library.old) 0 schema.now }
    ensures { IsOpenWith (L.shown.world library.new) 0 schema.now }
{
    let mut pages = 0u64;
    let mut position = Position::From(Key::new());
    for value in 0..7 {
        for n in 1..END {
            if has_value(k, value, n) {
                let (behind, asked) = reads_record(rt, library, schema, k, &position, n);
                position = behind;
                pages = pages.saturating_add(asked);
            }
        }
    }
    pages
}

/// Behind the last record by key k there is none.
fn ends_by<L: Library + HasTrees>(
    rt: &impl Abort,
    library: &mut L,
    schema: &Schema,
    k: u8,
    last: u64,
) -> u64
    requires { IsOpenWith (L.shown.world library.old) 0 schema.now }
    ensures { IsOpenWith (L.shown.world library.new) 0 schema.now }
{
    let value = key_of(schema, k, last).expect(rt, "a key");
    let most = most_to_read(library, k);
    let behind = Position::After(value, u64::MAX);
    let read = goes_on(library, 0, schema, k, &behind).expect(rt, "an answer");
    assert_that(rt, read.found.is_none());
    asked_at_most(rt, library, schema, most)
}

/// Seeks the value of this number by key k.
fn seeks_number<L: Library + HasTrees>(
    rt: &impl Abort,
    library: &mut L,
    schema: &Schema,
    k: u8,
    n: u64,
    is_there: bool,
) -> u64
    requires { IsOpenWith (L.shown.world library.old) 0 schema.now }
    ensures { IsOpenWith (L.shown.world library.new) 0 schema.now }
{
    let value = key_of(schema, k, n).expect(rt, "a key");
    let most = most_to_seek(library, k);
    let sought = seeks(library, 0, schema, k, value.as_slice(), Relation::Equal).expect(
        rt,
        "an answer",
    );
    assert_equal_for(rt, (k, n), sought.is_some(), is_there);
    asked_at_most(rt, library, schema, most)
}

/// Finds the value of this number by key k, and seeks it.
fn finds_number<L: Library + HasTrees>(
    rt: &impl Abort,
    library: &mut L,
    schema: &Schema,
    k: u8,
    n: u64,
    is_there: bool,
) -> u64
    requires { IsOpenWith (L.shown.world library.old) 0 schema.now }
    ensures { IsOpenWith (L.shown.world library.new) 0 schema.now }
{
    let value = key_of(schema, k, n).expect(rt, "a key");
    let most = most_to_read(library, k);
    let read = finds(library, 0, schema, k, value.as_slice()).expect(rt, "an answer");
    assert_equal_for(rt, (k, n), read.found.is_some(), is_there);
    let to_find = asked_at_most(rt, library, schema, most);
    to_find.saturating_add(seeks_number(rt, library, schema, k, n, is_there))
}

/// Numbers and values by key 0 and key 1, and whether a record has them.
const SOME: [(u8, u64, bool); 10] = [
    (0, 1, true),
    (0, 2, false),
    (0, 999, true),
    (0, 1000, false),
    (0, 1999, true),
    (0, 3000, false),
    (1, 0, true),
    (1, 3, true),
    (1, 6, true),
    (1, 7, false),
];

/// Finds numbers and values that are there, and others.
fn finds_some<L: Library + HasTrees>(rt: &impl Abort, library: &mut L, schema: &Schema) -> u64
    requires { IsOpenWith (L.shown.world library.old) 0 schema.now }
    ensures { IsOpenWith (L.shown.world library.new) 0 schema.now }
{
    let mut pages = 0u64;
    for &(k, n, is_there) in &SOME {
        let asked = finds_number(rt, library, schema, k, n, is_there);
        pages = pages.saturating_add(asked);
    }
    pages
}

/// The greatest number is this one.
fn has_highest<L: Library + HasTrees>(
    rt: &impl Abort,
    library: &mut L,
    schema: &Schema,
    n: u64,
) -> u64
    requires { IsOpenWith (L.shown.world library.old) 0 schema.now }
    ensures { IsOpenWith (L.shown.world library.new) 0 schema.now }
{
    let value = key_of(schema, 0, n).expect(rt, "a key");
    let most = most_to_seek(library, 0);
    let highest = tops(library, 0, schema).expect(rt, "an answer");
    assert_that(rt, is_same_key(&highest, &Some(value)));
    asked_at_most(rt, library, schema, most)
}

/// Makes the file, and removes records of it once it was shut and opened. It answers the pages that were
/// asked for.
fn fills<L: Library + HasTrees>(rt: &impl Abort, library: &mut L, schema: &Schema) -> u64
    requires { IsNotOpen (L.shown.world library.old) 0 }
    ensures { IsOpenWith (L.shown.world library.new) 0 schema.now }
{
    creates(library, 0, schema).expect(rt, "a new file");
    let added = adds_all(rt, library, schema);
    shuts(library, 0, schema).expect(rt, "shut");
    opens_sound(rt, library, 0, schema);
    restarts(library, 0, schema);
    let removed = removes_even(rt, library, schema);
    added.saturating_add(removed)
}

/// Reads the file by both keys to its end: a thousand records in a row, with less than 3,000 pages.
fn reads_both<L: Library + HasTrees>(rt: &impl Abort, library: &mut L, schema: &Schema) -> u64
    requires { IsOpenWith (L.shown.world library.old) 0 schema.now }
    ensures { IsOpenWith (L.shown.world library.new) 0 schema.now }
{
    let read = reads_odd(rt, library, schema, 0);
    assert_equal_for(rt, read, read < 3000, true);
    let by_value = reads_odd(rt, library, schema, 1);
    let ends = ends_by(rt, library, schema, 0, 1999);
    let ends_by_value = ends_by(rt, library, schema, 1, 6);
    read.saturating_add(by_value)
        .saturating_add(ends)
        .saturating_add(ends_by_value)
}

/// Calls of each kind. It answers the pages that they asked for.
fn runs<L: Library + HasTrees>(rt: &impl Abort, library: &mut L, schema: &Schema) -> u64
    requires { IsNotOpen (L.shown.world library.old) 0 }
{
    let filled = fills(rt, library, schema);
    let read = reads_both(rt, library, schema);
    let found = finds_some(rt, library, schema);
    let highest = has_highest(rt, library, schema, 1999);
    let changed = changes_some(rt, library, schema);
    shuts(library, 0, schema).expect(rt, "shut");
    filled
        .saturating_add(read)
        .saturating_add(found)
        .saturating_add(highest)
        .saturating_add(changed)
}

/// Opens the file, reads a record by its number, and answers the height of the tree of numbers.
fn reads_one<L: Library + HasTrees>(rt: &impl Abort, library: &mut L, schema: &Schema, n: u64) -> u8
    requires { IsNotOpen (L.shown.world library.old) 0 }
{
    opens_sound(rt, library, 0, schema);
    let number = key_of(schema, 0, n).expect(rt, "a key");
    let read = finds(library, 0, schema, 0, number.as_slice()).expect(rt, "an answer");
    assert_that(rt, read.has(record(schema, n).as_slice()));
    library.tree_height(0)
}

/// Calls of each kind on a file of this shelf. It answers the shelf, and the pages that they asked for.
fn runs_over<S: Shelf + Drop>(
    rt: &impl Abort,
    alloc: Global,
    shelf: S,
    frames: usize,
    schema: &Schema,
) -> (S, u64) {
    let mut library = library_over(alloc, shelf, 4000, frames).expect(rt, "a library");
    let pages = runs(rt, &mut library, schema);
    (library.into_shelf(), pages)
}

/// The calls of a file that has so many frames, and the pages that are read off its shelf.
fn reads_no_more(rt: &impl Abort, alloc: Global, frames: usize) {
    let schema = two_long_keys().expect(rt, "a schema");
    let fuse = FuseShelf::new(MemShelf::new(alloc), Kind::Reads, 0, false, false);
    let (shelf, pages) = runs_over(rt, alloc, fuse, frames, &schema);
    let reads = shelf.calls(Kind::Reads);
    // The file was opened twice.
    assert_equal_for(rt, (reads, pages), reads <= pages.saturating_add(6), true);
    reads_few(rt, alloc, shelf, frames, &schema);
}

/// A file is opened, and a record is read: pages are read off its shelf by the height of one tree.
fn reads_few(
    rt: &impl Abort,
    alloc: Global,
    shelf: FuseShelf<MemShelf>,
    frames: usize,
    schema: &Schema,
) {
    let reads = shelf.calls(Kind::Reads);
    let mut library = library_over(alloc, shelf, 4000, frames).expect(rt, "a library");
    let height = u64::from(reads_one(rt, &mut library, schema, 1999));
    assert_equal(rt, height, 3);
    let more = library
        .into_shelf()
        .calls(Kind::Reads)
        .saturating_sub(reads);
    assert_equal_for(rt, (more, height), more <= 5 * height + 4, true);
}

// Each page that is asked for, and is not the one before, is read off the shelf.
#[test]
fn calls_ask_for_few_pages(rt: HostRuntime) {
    reads_no_more(&rt, rt.alloc(), 1);
    reads_no_more(&rt, rt.alloc(), 4096);
}

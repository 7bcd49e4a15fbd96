//! Files that are damaged behind a first page that is accepted: each call asks for no more pages, and makes
//! no more calls of the shelf, than over a sound file of the heights that the first page tells.

ghost use Rattle.indexed_file.specs.Clients.{IsOpenWith, IsNotOpen};

use crate::bounds::asked_at_most;
use crate::checks::{assert_equal, assert_equal_for, assert_that};
use crate::opening::opens_sound;
use indexed_file::Library;
use io_state::{Key, Position, Relation};
use memory_shelf::{FuseShelf, Kind, MemShelf};
use record_layout::Schema;
use std::alloc::Global;
use std::process::Abort;
use unit_calls::{
    HasTrees, adds_numbers, bytes_of, creates, finds, goes_on, key_of, library_over,
    most_to_change, most_to_read, most_to_seek, put, puts, record_of, removes, replaces, restarts,
    seeks, shuts, tops, two_long_keys,
};

/// Bytes that are put into a file, and where.
type Edit = (usize, &'static [u8]);

/// Page 1 is the leaf of the first key, page 2 that of the second, and page 3 the heap's, whose slots have
/// 249 bytes.
const DAMAGES: [(&str, &[Edit]); 8] = [
    ("nothing", &[]),
    (
        "a free slot leads to itself",
        &[
            (28, &[0, 0, 0, 3, 0, 1]),
            (12288 + 16 + 249, &[0, 0, 0, 0, 3, 0, 1]),
        ],
    ),
    (
        "two free slots lead to each other",
        &[
            (28, &[0, 0, 0, 3, 0, 4]),
            (12288 + 16 + 4 * 249, &[0, 0, 0, 0, 3, 0, 5]),
            (12288 + 16 + 5 * 249, &[0, 0, 0, 0, 3, 0, 4]),
        ],
    ),
    ("a heap page is behind itself", &[(12292, &[0, 0, 0, 3])]),
    (
        "the root of the first key is its own child, 20 levels deep",
        &[(69, &[20]), (4096, &[73, 0, 0, 0]), (4112, &[0, 0, 0, 1])],
    ),
    (
        "the root of the second key is its own child, 20 levels deep",
        &[(85, &[20]), (8192, &[73, 1, 0, 0]), (8208, &[0, 0, 0, 2])],
    ),
    (
        "a free page is behind itself",
        &[
            (12, &[0, 0, 0, 5, 0, 0, 0, 4, 0, 0, 0, 4]),
            (16384, b"F\0\0\0\0\0\0\x04"),
        ],
    ),
    (
        "counts at their greatest",
        &[(40, &[128, 0, 0, 0, 0, 0, 0, 0]), (48, &[255; 8])],
    ),
];

/// How many kinds of calls `makes` knows.
const CALLS: u8 = 10;

/// A file of three records, one of which was removed.
fn fills<L: Library>(rt: &impl Abort, library: &mut L, schema: &Schema)
    requires { IsOpenWith (L.shown.world library.old) 0 schema.now }
    ensures { IsOpenWith (L.shown.world library.new) 0 schema.now }
{
    adds_numbers(library, 0, schema, &[1, 1]).expect(rt, "an answer");
    adds_numbers(library, 0, schema, &[2, 1]).expect(rt, "an answer");
    adds_numbers(library, 0, schema, &[3, 2]).expect(rt, "an answer");
    let number = key_of(schema, 0, 2).expect(rt, "a key");
    let removed = removes(library, 0, schema, number.as_slice()).expect(rt, "an answer");
    assert_that(rt, removed);
}

/// The bytes of such a file, and a page of zeros.
fn made(rt: &impl Abort, alloc: Global, schema: &Schema) -> Vec<u8> {
    let mut library = library_over(alloc, MemShelf::new(alloc), 100, 64).expect(rt, "a library");
    creates(&mut library, 0, schema).expect(rt, "a new file");
    fills(rt, &mut library, schema);
    shuts(&mut library, 0, schema).expect(rt, "shut");
    let mut shelf = library.into_shelf();
    let mut bytes = bytes_of(alloc, &mut shelf).expect(rt, "its bytes");
    bytes.extend_from_slice(&[0; 4096]).expect(rt, "memory");
    assert_equal(rt, bytes.len(), 5 * 4096);
    bytes
}

/// Makes a call of one kind, and answers the most pages that it may ask for. What it says of the file is not
/// looked at.
fn makes<L: Library + HasTrees>(rt: &impl Abort, library: &mut L, schema: &Schema, call: u8) -> u64
    requires { IsOpenWith (L.shown.world library.old) 0 schema.now }
    ensures { IsOpenWith (L.shown.world library.new) 0 schema.now }
{
    let k = call % 2;
    match call / 2 {
        0..3 => reads(rt, library, schema, k, call / 2),
        3 => adds_or_removes(rt, library, schema, k),
        _ => replaces_or_tops(library, schema, k),
    }
}

/// Reads by a key, by its value or what comes next, or seeks the value.
fn reads<L: Library + HasTrees>(
    rt: &impl Abort,
    library: &mut L,
    schema: &Schema,
    k: u8,
    kind: u8,
) -> u64
    requires { IsOpenWith (L.shown.world library.old) 0 schema.now }
    ensures { IsOpenWith (L.shown.world library.new) 0 schema.now }
{
    let value = key_of(schema, k, 1).expect(rt, "a key");
    match kind {
        0 => {
            let most = most_to_read(library, k);
            let _ = finds(library, 0, schema, k, value.as_slice());
            most
        }
        1 => {
            let most = most_to_read(library, k);
            let _ = goes_on(library, 0, schema, k, &Position::From(Key::new()));
            most
        }
        _ => {
            let most = most_to_seek(library, k);
            let _ = seeks(library, 0, schema, k, value.as_slice(), Relation::Equal);
            most
        }
    }
}

/// Adds a record, or removes one.
fn adds_or_removes<L: Library + HasTrees>(
    rt: &impl Abort,
    library: &mut L,
    schema: &Schema,
    k: u8,
) -> u64
    requires { IsOpenWith (L.shown.world library.old) 0 schema.now }
    ensures { IsOpenWith (L.shown.world library.new) 0 schema.now }
{
    let most = most_to_change(library);
    if k == 0 {
        let _ = adds_numbers(library, 0, schema, &[5, 1]);
    } else {
        let number = key_of(schema, 0, 1).expect(rt, "a key");
        let _ = removes(library, 0, schema, number.as_slice());
    }
    most
}

/// Replaces a record, or looks for the greatest number.
fn replaces_or_tops<L: Library + HasTrees>(library: &mut L, schema: &Schema, k: u8) -> u64
    requires { IsOpenWith (L.shown.world library.old) 0 schema.now }
    ensures { IsOpenWith (L.shown.world library.new) 0 schema.now }
{
    if k == 0 {
        let most = most_to_change(library);
        let record = record_of(schema, &[1, 9], 240);
        let _ = replaces(library, 0, schema, record.as_slice());
        most
    } else {
        let most = most_to_seek(library, 0);
        let _ = tops(library, 0, schema);
        most
    }
}

/// Opens the file and makes a call. It answers the pages that the call asked for.
fn opens_and_makes<L: Library + HasTrees>(
    rt: &impl Abort,
    library: &mut L,
    schema: &Schema,
    call: u8,
) -> u64
    requires { IsNotOpen (L.shown.world library.old) 0 }
{
    opens_sound(rt, library, 0, schema);
    restarts(library, 0, schema);
    let most = makes(rt, library, schema, call);
    asked_at_most(rt, library, schema, most)
}

/// Opens a file of these bytes and makes a call. It asks for as many pages at most as over a sound file, and
/// each of them is read at most once, and written at most once.
fn is_bounded(rt: &impl Abort, alloc: Global, schema: &Schema, bytes: &[u8], call: u8, what: &str) {
    let mut shelf = MemShelf::new(alloc);
    puts(&mut shelf, bytes).expect(rt, "a file");
    let fuse = FuseShelf::new(shelf, Kind::Reads, 0, false, false);
    let mut library = library_over(alloc, fuse, 100, 1).expect(rt, "a library");
    let pages = opens_and_makes(rt, &mut library, schema, call);
    let shelf = library.into_shelf();
    let reads = shelf.calls(Kind::Reads);
    let writes = shelf.calls(Kind::Writes);
    // Three reads are those of OPEN, and a write is the gate's.
    let is_read_once = reads <= pages.saturating_add(3);
    assert_equal_for(rt, (what, call, reads), is_read_once, true);
    let is_written_once = writes <= pages.saturating_add(1);
    assert_equal_for(rt, (what, call, writes), is_written_once, true);
}

/// Each call over a file with these edits.
fn are_bounded(rt: &impl Abort, alloc: Global, schema: &Schema, edits: &[Edit], what: &str) {
    let mut bytes = made(rt, alloc, schema);
    for (at, new) in edits {
        put(&mut bytes, *at, new);
    }
    for call in 0..CALLS {
        is_bounded(rt, alloc, schema, &bytes, call, what);
    }
}

// No loop goes on where pages or slots lead to themselves: what a call asks for is told by the heights alone.
#[test]
fn damage_takes_no_more_calls_of_the_shelf(rt: HostRuntime) {
    let schema = two_long_keys().expect(&rt, "a schema");
    for &(what, edits) in &DAMAGES {
        are_bounded(&rt, rt.alloc(), &schema, edits, what);
    }
}

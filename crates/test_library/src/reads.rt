//! The pages that a READ by key asks for, over a file with keys of 120 bytes.

ghost use Rattle.indexed_file.specs.Clients.{IsOpenWith};

use crate::checks::{assert_equal, assert_equal_for};
use indexed_file::{Added, Library};
use memory_shelf::MemShelf;
use record_layout::{KeyKind, KeyPart, Schema};
use std::process::Abort;
use unit_calls::{adds_numbers, asked, creates, finds, key_of, library_over, restarts, schema};

const RECORDS: u64 = 1500;

/// The records below this number have one value of the last key in twos, and the others each its own.
const PAIRED: u64 = 400;

/// Records of 360 bytes: a number, a value that is of one alone, and one that several may have, each a key of
/// 120 bytes.
const KEYS: [KeyPart; 3] = [
    KeyPart {
        offset: 0,
        length: 120,
        kind: KeyKind::Prime,
    },
    KeyPart {
        offset: 120,
        length: 120,
        kind: KeyKind::Unique,
    },
    KeyPart {
        offset: 240,
        length: 120,
        kind: KeyKind::Duplicates,
    },
];

/// The values of a record.
fn values(n: u64) -> [u64; 3] {
    let value = if n < PAIRED { n / 2 } else { n };
    [n, RECORDS.saturating_sub(n), value]
}

/// Adds the record of a number.
fn adds<L: Library>(rt: &impl Abort, library: &mut L, schema: &Schema, n: u64)
    requires { IsOpenWith (L.shown.world library.old) 0 schema.now }
    ensures { IsOpenWith (L.shown.world library.new) 0 schema.now }
{
    let added = adds_numbers(library, 0, schema, &values(n)).expect(rt, "an answer");
    assert_equal_for(rt, n, matches!(added, Added::Done { .. }), true);
}

/// Adds all records, not in the order of their numbers.
fn adds_all<L: Library>(rt: &impl Abort, library: &mut L, schema: &Schema)
    requires { IsOpenWith (L.shown.world library.old) 0 schema.now }
    ensures { IsOpenWith (L.shown.world library.new) 0 schema.now }
{
    for i in 0..RECORDS {
        adds(rt, library, schema, i.wrapping_mul(1237) % RECORDS);
    }
}

/// The pages that a READ asks for, and whether a later record has the value too; none where no record has it.
fn reads<L: Library>(
    rt: &impl Abort,
    library: &mut L,
    schema: &Schema,
    k: u8,
    value: u64,
) -> (u64, Option<bool>)
    requires { IsOpenWith (L.shown.world library.old) 0 schema.now }
    ensures { IsOpenWith (L.shown.world library.new) 0 schema.now }
{
    let value = key_of(schema, k, value).expect(rt, "a key");
    restarts(library, 0, schema);
    let read = finds(library, 0, schema, k, value.as_slice()).expect(rt, "an answer");
    let repeated = match &read.found {
        Some(found) => Some(found.repeated),
        None => None,
    };
    (asked(library, 0, schema), repeated)
}

/// Reads a record by the keys that one alone can have.
fn reads_one<L: Library>(
    rt: &impl Abort,
    library: &mut L,
    schema: &Schema,
    n: u64,
    prime: u64,
    unique: u64,
)
    requires { IsOpenWith (L.shown.world library.old) 0 schema.now }
    ensures { IsOpenWith (L.shown.world library.new) 0 schema.now }
{
    let [number, other, _] = values(n);
    let by_number = reads(rt, library, schema, 0, number);
    assert_equal_for(rt, n, by_number, (prime.saturating_add(1), Some(false)));
    let by_other = reads(rt, library, schema, 1, other);
    let pages = unique.saturating_add(prime).saturating_add(1);
    assert_equal_for(rt, n, by_other, (pages, Some(false)));
}

/// Reads each record by the keys that one alone can have: one page for each level of the key's tree, one for
/// each of the prime key's, and the record's.
fn reads_unique<L: Library>(rt: &impl Abort, library: &mut L, schema: &Schema, heights: [u8; 3])
    requires { IsOpenWith (L.shown.world library.old) 0 schema.now }
    ensures { IsOpenWith (L.shown.world library.new) 0 schema.now }
{
    let prime = u64::from(heights[0]);
    let unique = u64::from(heights[1]);
    for n in 0..RECORDS {
        reads_one(rt, library, schema, n, prime, unique);
    }
    assert_equal(rt, reads(rt, library, schema, 0, RECORDS), (prime, None));
    assert_equal(rt, reads(rt, library, schema, 1, 0), (unique, None));
}

/// Reads a record by the key that several can have, and answers whether a second leaf was looked into.
fn reads_one_shared<L: Library>(
    rt: &impl Abort,
    library: &mut L,
    schema: &Schema,
    n: u64,
    prime: u64,
    shared: u64,
) -> bool
    requires { IsOpenWith (L.shown.world library.old) 0 schema.now }
    ensures { IsOpenWith (L.shown.world library.new) 0 schema.now }
{
    let [_, _, value] = values(n);
    let (pages, repeated) = reads(rt, library, schema, 2, value);
    assert_equal_for(rt, n, repeated, Some(n < PAIRED));
    let least = shared.saturating_add(prime).saturating_add(1);
    let is_within = pages >= least && pages <= least.saturating_add(shared);
    assert_equal_for(rt, (n, pages), is_within, true);
    pages > least
}

/// Reads each record by the key that several can have. As many pages are asked for, but where the first
/// record of the value is the first of a leaf: then the leaf before it is looked into too. That is once a
/// leaf at most, and a leaf has eight entries at least.
fn reads_shared<L: Library>(rt: &impl Abort, library: &mut L, schema: &Schema, heights: [u8; 3])
    requires { IsOpenWith (L.shown.world library.old) 0 schema.now }
    ensures { IsOpenWith (L.shown.world library.new) 0 schema.now }
{
    let prime = u64::from(heights[0]);
    let shared = u64::from(heights[2]);
    let mut more = 0u64;
    for n in 0..RECORDS {
        let asks_for_more = reads_one_shared(rt, library, schema, n, prime, shared);
        more = more.saturating_add(u64::from(n >= PAIRED && asks_for_more));
    }
    assert_equal_for(rt, more, more <= (RECORDS - PAIRED) / 8 + 1, true);
    for value in PAIRED / 2..PAIRED {
        let found = reads(rt, library, schema, 2, value);
        assert_equal_for(rt, value, found, (shared, None));
    }
}

// READ statement by key: no page is asked for twice.
#[test]
fn a_read_by_key_asks_for_a_page_a_level(rt: HostRuntime) {
    let alloc = rt.alloc();
    let mut library = library_over(alloc, MemShelf::new(alloc), 5000, 64).expect(&rt, "a library");
    let schema = schema(360, 360, &KEYS).expect(&rt, "a schema");
    creates(&mut library, 0, &schema).expect(&rt, "a new file");
    adds_all(&rt, &mut library, &schema);
    let heights = [
        library.height(0, 0),
        library.height(0, 1),
        library.height(0, 2),
    ];
    assert_equal(&rt, heights, [3, 3, 3]);
    reads_unique(&rt, &mut library, &schema, heights);
    reads_shared(&rt, &mut library, &schema, heights);
}

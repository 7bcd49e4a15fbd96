//! The least and the greatest lengths, and as many keys as a file can have, in a library over a shelf and in
//! one in lists.

ghost use Rattle.test_library.specs.Alike.{AreAlike};

use crate::alike::{adds, creates, finds, reads_all, removes, reopens, replaces, seeks, tops};
use arrayvec::ArrayVec;
use indexed_file::Library;
use list_library::ListLibrary;
use memory_shelf::MemShelf;
use record_layout::{KeyKind, KeyPart, Schema};
use std::alloc::Global;
use std::process::Abort;
use unit_calls::{attaches, library_over, part, record_of, schema, value_of};

/// Records are found by a key, where there is such a one.
fn finds_by<L: Library, M: Library>(
    rt: &impl Abort,
    library: &mut L,
    other: &mut M,
    schema: &Schema,
    k: u8,
)
    requires { AreAlike (L.shown.world library.old) (M.shown.world other.old) 1 schema.now }
    ensures { AreAlike (L.shown.world library.new) (M.shown.world other.new) 1 schema.now }
{
    if usize::from(k) >= schema.key_count() {
        return;
    }
    let value = value_of(schema.part(k), 1);
    reads_all(rt, library, other, 1, schema, k);
    finds(rt, library, other, 1, schema, k, value.as_slice());
    seeks(rt, library, other, 1, schema, k, value.as_slice());
}

/// The record of a number is added twice.
fn adds_twice<L: Library, M: Library>(
    rt: &impl Abort,
    library: &mut L,
    other: &mut M,
    schema: &Schema,
    number: u64,
    length: usize,
)
    requires { AreAlike (L.shown.world library.old) (M.shown.world other.old) 1 schema.now }
    ensures { AreAlike (L.shown.world library.new) (M.shown.world other.new) 1 schema.now }
{
    let record = record_of(schema, &[number; 9], length);
    adds(rt, library, other, 1, schema, record.as_slice());
    adds(rt, library, other, 1, schema, record.as_slice());
}

/// Records of these lengths are added, and found by each key.
fn adds_all<L: Library, M: Library>(
    rt: &impl Abort,
    library: &mut L,
    other: &mut M,
    schema: &Schema,
    lengths: &[usize],
)
    requires { AreAlike (L.shown.world library.old) (M.shown.world other.old) 1 schema.now }
    ensures { AreAlike (L.shown.world library.new) (M.shown.world other.new) 1 schema.now }
{
    let mut number = 0u64;
    for length in lengths {
        number = number.wrapping_add(1);
        adds_twice(rt, library, other, schema, number, *length);
    }
    for k in 0..9 {
        finds_by(rt, library, other, schema, k);
    }
    tops(rt, library, other, 1, schema);
}

/// The record of number 1 is replaced by one of another length, and found.
fn replaces_first<L: Library, M: Library>(
    rt: &impl Abort,
    library: &mut L,
    other: &mut M,
    schema: &Schema,
    length: usize,
)
    requires { AreAlike (L.shown.world library.old) (M.shown.world other.old) 1 schema.now }
    ensures { AreAlike (L.shown.world library.new) (M.shown.world other.new) 1 schema.now }
{
    let record = record_of(schema, &[1, 7, 7, 7, 7, 7, 7, 7, 7], length);
    replaces(rt, library, other, 1, schema, record.as_slice());
    finds_by(rt, library, other, schema, 0);
}

/// It is removed twice, and not found.
fn removes_first<L: Library, M: Library>(
    rt: &impl Abort,
    library: &mut L,
    other: &mut M,
    schema: &Schema,
)
    requires { AreAlike (L.shown.world library.old) (M.shown.world other.old) 1 schema.now }
    ensures { AreAlike (L.shown.world library.new) (M.shown.world other.new) 1 schema.now }
{
    assert!(rt; schema.key_count() > 0);
    let value = value_of(schema.part(0), 1);
    removes(rt, library, other, 1, schema, value.as_slice());
    removes(rt, library, other, 1, schema, value.as_slice());
    finds_by(rt, library, other, schema, 0);
}

/// Records of these lengths are added, found by each key, and replaced; one is removed.
fn goes_round<L: Library, M: Library>(
    rt: &impl Abort,
    library: &mut L,
    other: &mut M,
    schema: &Schema,
    lengths: &[usize],
)
    requires { AreAlike (L.shown.world library.old) (M.shown.world other.old) 1 schema.now }
    ensures { AreAlike (L.shown.world library.new) (M.shown.world other.new) 1 schema.now }
{
    adds_all(rt, library, other, schema, lengths);
    for length in lengths {
        replaces_first(rt, library, other, schema, *length);
    }
    removes_first(rt, library, other, schema);
}

/// A new file, and records of these lengths; it is shut then, and opened again.
fn runs_on<L: Library, M: Library>(
    rt: &impl Abort,
    library: &mut L,
    other: &mut M,
    schema: &Schema,
    lengths: &[usize],
) {
    attaches(library).expect(rt, "attached");
    attaches(other).expect(rt, "attached");
    creates(rt, library, other, 1, schema);
    goes_round(rt, library, other, schema, lengths);
    reopens(rt, library, other, 1, schema);
    finds_by(rt, library, other, schema, 1);
}

/// Where a key begins in a record, its length, and its kind.
type Key = (u16, u16, KeyKind);

fn parts_of(keys: &[Key]) -> ArrayVec<KeyPart, 9> {
    let mut parts = ArrayVec::new();
    for &(offset, length, kind) in keys {
        let _ = parts.try_push(part(offset, length, kind));
    }
    parts
}

/// The same in both libraries, with this schema.
fn runs(
    rt: &impl Abort,
    alloc: Global,
    least: u16,
    greatest: u16,
    keys: &[Key],
    lengths: &[usize],
) {
    let keys = parts_of(keys);
    let schema = schema(least, greatest, keys.as_slice()).expect(rt, "a schema");
    let mut library = library_over(alloc, MemShelf::new(alloc), 200, 2).expect(rt, "a library");
    let mut lists = ListLibrary::new(alloc);
    runs_on(rt, &mut library, &mut lists, &schema, lengths);
}

const EIGHT_STAMPS: [Key; 9] = [
    (0, 2, KeyKind::Prime),
    (1, 250, KeyKind::Duplicates),
    (2, 2, KeyKind::Duplicates),
    (300, 1, KeyKind::Duplicates),
    (400, 250, KeyKind::Duplicates),
    (600, 9, KeyKind::Duplicates),
    (1000, 250, KeyKind::Duplicates),
    (2000, 3, KeyKind::Duplicates),
    (3990, 10, KeyKind::Duplicates),
];

#[test]
fn a_record_may_be_4000_bytes_with_eight_stamps(rt: HostRuntime) {
    runs(
        &rt,
        rt.alloc(),
        4000,
        4000,
        &EIGHT_STAMPS,
        &[4000, 4000, 4000],
    );
}

const ONE_BYTE: [Key; 1] = [(0, 1, KeyKind::Prime)];

const ONE_TO_4000: [usize; 6] = [1, 4000, 2, 4000, 3999, 1];

#[test]
fn a_record_may_be_one_byte_beside_others_of_4000(rt: HostRuntime) {
    runs(&rt, rt.alloc(), 1, 1, &ONE_BYTE, &[1, 1, 1]);
    runs(&rt, rt.alloc(), 1, 4000, &ONE_BYTE, &ONE_TO_4000);
}

const NINE_OF_250: [Key; 9] = [
    (2000, 250, KeyKind::Prime),
    (0, 250, KeyKind::Duplicates),
    (250, 250, KeyKind::Unique),
    (500, 250, KeyKind::Duplicates),
    (750, 250, KeyKind::Unique),
    (1000, 250, KeyKind::Duplicates),
    (1250, 250, KeyKind::Unique),
    (1500, 250, KeyKind::Duplicates),
    (1750, 250, KeyKind::Unique),
];

const LENGTHS_OF_NINE: [usize; 12] = [
    2250, 2251, 2252, 2250, 2255, 2260, 2250, 2250, 2250, 2250, 2250, 2250,
];

#[test]
fn nine_keys_of_250_bytes_follow_each_change(rt: HostRuntime) {
    runs(&rt, rt.alloc(), 2250, 2260, &NINE_OF_250, &LENGTHS_OF_NINE);
}

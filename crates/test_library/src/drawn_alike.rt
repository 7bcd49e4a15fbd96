//! Calls that are drawn, to a library over a shelf and to one in lists, with the file shut and opened in
//! between.

ghost use Rattle.test_library.specs.Alike.{AreAlike};

use crate::alike::{
    adds, creates, finds, goes_on, reads_all, removes, reopens, replaces, seeks, tops,
};
use crate::checks::assert_equal;
use indexed_file::Library;
use io_state::Position;
use list_library::ListLibrary;
use memory_shelf::MemShelf;
use record_layout::{KeyPart, Schema};
use std::alloc::Global;
use std::process::Abort;
use unit_calls::{Draw, NARROW, WIDE, attaches, draws_record, library_over, schema, value_of};

/// One call that changes both files, or shuts and opens them.
fn changes<L: Library, M: Library>(
    rt: &impl Abort,
    library: &mut L,
    other: &mut M,
    schema: &Schema,
    draw: &mut Draw,
    primes: u64,
)
    requires { AreAlike (L.shown.world library.old) (M.shown.world other.old) 1 schema.now }
    ensures { AreAlike (L.shown.world library.new) (M.shown.world other.new) 1 schema.now }
{
    let record = draws_record(schema, draw, primes);
    match draw.below(9) {
        0..4 => adds(rt, library, other, 1, schema, record.as_slice()),
        4..6 => replaces(rt, library, other, 1, schema, record.as_slice()),
        6..8 => {
            assert!(rt; schema.key_count() > 0);
            let value = value_of(schema.part(0), draw.below(primes));
            removes(rt, library, other, 1, schema, value.as_slice())
        }
        _ => reopens(rt, library, other, 1, schema),
    }
}

/// Reads in both what comes next, and what comes behind it.
fn goes_on_twice<L: Library, M: Library>(
    rt: &impl Abort,
    library: &mut L,
    other: &mut M,
    schema: &Schema,
    k: u8,
    position: &Position,
)
    requires { AreAlike (L.shown.world library.old) (M.shown.world other.old) 1 schema.now }
    ensures { AreAlike (L.shown.world library.new) (M.shown.world other.new) 1 schema.now }
{
    if let Some(behind) = goes_on(rt, library, other, 1, schema, k, position) {
        goes_on(rt, library, other, 1, schema, k, &behind);
    }
}

/// One call of each kind that changes nothing.
fn reads<L: Library, M: Library>(
    rt: &impl Abort,
    library: &mut L,
    other: &mut M,
    schema: &Schema,
    draw: &mut Draw,
    primes: u64,
)
    requires { AreAlike (L.shown.world library.old) (M.shown.world other.old) 1 schema.now }
    ensures { AreAlike (L.shown.world library.new) (M.shown.world other.new) 1 schema.now }
{
    let k = draw.below(4) as u8;
    assert!(rt; usize::from(k) < schema.key_count());
    let value = value_of(schema.part(k), draw.below(primes));
    let begins = draw.below(251) as usize;
    finds(rt, library, other, 1, schema, k, value.as_slice());
    let operand = &value.as_slice()[..begins.min(value.len())];
    seeks(rt, library, other, 1, schema, k, operand);
    tops(rt, library, other, 1, schema);
    let position = Position::After(value, draw.below(50));
    goes_on_twice(rt, library, other, schema, k, &position);
}

/// Both have the same records by each of four keys.
fn compares<L: Library, M: Library>(
    rt: &impl Abort,
    library: &mut L,
    other: &mut M,
    schema: &Schema,
)
    requires { AreAlike (L.shown.world library.old) (M.shown.world other.old) 1 schema.now }
    ensures { AreAlike (L.shown.world library.new) (M.shown.world other.new) 1 schema.now }
{
    let count = reads_all(rt, library, other, 1, schema, 0);
    for k in 1..4 {
        let others = reads_all(rt, library, other, 1, schema, k);
        assert_equal(rt, others, count);
    }
}

/// One call that changes, one of each kind that does not, and where they are compared, all records.
fn takes_turn<L: Library, M: Library>(
    rt: &impl Abort,
    library: &mut L,
    other: &mut M,
    schema: &Schema,
    draw: &mut Draw,
    primes: u64,
    are_compared: bool,
)
    requires { AreAlike (L.shown.world library.old) (M.shown.world other.old) 1 schema.now }
    ensures { AreAlike (L.shown.world library.new) (M.shown.world other.new) 1 schema.now }
{
    changes(rt, library, other, schema, draw, primes);
    reads(rt, library, other, schema, draw, primes);
    if are_compared {
        compares(rt, library, other, schema);
    }
}

/// So many drawn calls of each kind on a new file.
fn runs<L: Library, M: Library>(
    rt: &impl Abort,
    library: &mut L,
    other: &mut M,
    schema: &Schema,
    seed: u64,
    calls: u32,
    primes: u64,
) {
    attaches(library).expect(rt, "attached");
    attaches(other).expect(rt, "attached");
    creates(rt, library, other, 1, schema);
    let mut draw = Draw { last: seed };
    for call in 0..calls {
        takes_turn(
            rt,
            library,
            other,
            schema,
            &mut draw,
            primes,
            call % 20 == 19,
        );
    }
}

/// Records of two lengths, their keys, and how many prime values there are.
struct Shape {
    least: u16,
    greatest: u16,
    keys: [KeyPart; 4],
    primes: u64,
}

const NARROW_RECORDS: Shape = Shape {
    least: 12,
    greatest: 19,
    keys: NARROW,
    primes: 20,
};

const WIDE_RECORDS: Shape = Shape {
    least: 1000,
    greatest: 1010,
    keys: WIDE,
    primes: 240,
};

/// So many drawn calls of each kind answer over pages, with so many frames, as those of lists.
fn answer_alike(
    rt: &impl Abort,
    alloc: Global,
    shape: &Shape,
    seed: u64,
    frames: usize,
    calls: u32,
) {
    let schema = schema(shape.least, shape.greatest, &shape.keys).expect(rt, "a schema");
    let mut library = library_over(alloc, MemShelf::new(alloc), 4000, frames).expect(
        rt,
        "a library",
    );
    let mut lists = ListLibrary::new(alloc);
    runs(
        rt,
        &mut library,
        &mut lists,
        &schema,
        seed,
        calls,
        shape.primes,
    );
}

#[test]
fn drawn_calls_answer_as_those_of_lists(rt: HostRuntime) {
    let alloc = rt.alloc();
    answer_alike(&rt, alloc, &NARROW_RECORDS, 1974, 1, 1000);
    answer_alike(&rt, alloc, &NARROW_RECORDS, 1985, 3, 1000);
    answer_alike(&rt, alloc, &NARROW_RECORDS, 2002, 64, 1000);
    answer_alike(&rt, alloc, &WIDE_RECORDS, 2023, 2, 600);
}

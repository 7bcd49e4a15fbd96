//! Calls that are given to two libraries, and the answers of both.

ghost use Rattle.indexed_file.specs.Clients.{IsNotOpen};
ghost use Rattle.test_library.specs.Alike.{AreAlike};

use crate::checks::{assert_equal, assert_equal_for, assert_that};
use crate::opening::opens_sound;
use indexed_file::Library;
use io_state::{Key, Position, Relation};
use record_layout::Schema;
use std::process::Abort;

/// Opens a new file in both.
pub fn creates<L: Library, M: Library>(
    rt: &impl Abort,
    library: &mut L,
    other: &mut M,
    u: usize,
    schema: &Schema,
)
    requires one { IsNotOpen (L.shown.world library.old) u }
    requires another { IsNotOpen (M.shown.world other.old) u }
    ensures { AreAlike (L.shown.world library.new) (M.shown.world other.new) u schema.now }
{
    unit_calls::creates(library, u, schema).expect(rt, "a new file");
    unit_calls::creates(other, u, schema).expect(rt, "another new file");
}

/// Shuts the file in both, and opens it again.
pub fn reopens<L: Library, M: Library>(
    rt: &impl Abort,
    library: &mut L,
    other: &mut M,
    u: usize,
    schema: &Schema,
)
    requires { AreAlike (L.shown.world library.old) (M.shown.world other.old) u schema.now }
    ensures { AreAlike (L.shown.world library.new) (M.shown.world other.new) u schema.now }
{
    unit_calls::shuts(library, u, schema).expect(rt, "shut");
    unit_calls::shuts(other, u, schema).expect(rt, "shut");
    opens_sound(rt, library, u, schema);
    opens_sound(rt, other, u, schema);
}

/// Adds a record to both.
pub fn adds<L: Library, M: Library>(
    rt: &impl Abort,
    library: &mut L,
    other: &mut M,
    u: usize,
    schema: &Schema,
    record: &[u8],
)
    requires { AreAlike (L.shown.world library.old) (M.shown.world other.old) u schema.now }
    ensures { AreAlike (L.shown.world library.new) (M.shown.world other.new) u schema.now }
{
    let answer = unit_calls::adds(library, u, schema, record).expect(rt, "an answer");
    let expected = unit_calls::adds(other, u, schema, record).expect(rt, "another answer");
    assert_equal(rt, answer, expected);
}

/// Replaces a record in both.
pub fn replaces<L: Library, M: Library>(
    rt: &impl Abort,
    library: &mut L,
    other: &mut M,
    u: usize,
    schema: &Schema,
    record: &[u8],
)
    requires { AreAlike (L.shown.world library.old) (M.shown.world other.old) u schema.now }
    ensures { AreAlike (L.shown.world library.new) (M.shown.world other.new) u schema.now }
{
    let answer = unit_calls::replaces(library, u, schema, record).expect(rt, "an answer");
    let expected = unit_calls::replaces(other, u, schema, record).expect(rt, "another answer");
    assert_equal(rt, answer, expected);
}

/// Removes a record from both.
pub fn removes<L: Library, M: Library>(
    rt: &impl Abort,
    library: &mut L,
    other: &mut M,
    u: usize,
    schema: &Schema,
    prime: &[u8],
)
    requires { AreAlike (L.shown.world library.old) (M.shown.world other.old) u schema.now }
    ensures { AreAlike (L.shown.world library.new) (M.shown.world other.new) u schema.now }
{
    let answer = unit_calls::removes(library, u, schema, prime).expect(rt, "an answer");
    let expected = unit_calls::removes(other, u, schema, prime).expect(rt, "another answer");
    assert_equal(rt, answer, expected);
}

/// Reads a record by a value in both.
pub fn finds<L: Library, M: Library>(
    rt: &impl Abort,
    library: &mut L,
    other: &mut M,
    u: usize,
    schema: &Schema,
    k: u8,
    value: &[u8],
)
    requires { AreAlike (L.shown.world library.old) (M.shown.world other.old) u schema.now }
    ensures { AreAlike (L.shown.world library.new) (M.shown.world other.new) u schema.now }
{
    let answer = unit_calls::finds(library, u, schema, k, value).expect(rt, "an answer");
    let expected = unit_calls::finds(other, u, schema, k, value).expect(rt, "another answer");
    assert_equal_for(rt, k, answer.is_same(&expected), true);
}

/// Reads in both what comes next. It answers the position behind it.
pub fn goes_on<L: Library, M: Library>(
    rt: &impl Abort,
    library: &mut L,
    other: &mut M,
    u: usize,
    schema: &Schema,
    k: u8,
    position: &Position,
) -> Option<Position>
    requires { AreAlike (L.shown.world library.old) (M.shown.world other.old) u schema.now }
    ensures { AreAlike (L.shown.world library.new) (M.shown.world other.new) u schema.now }
{
    let answer = unit_calls::goes_on(library, u, schema, k, position).expect(rt, "an answer");
    let expected = unit_calls::goes_on(other, u, schema, k, position).expect(rt, "another answer");
    assert_equal_for(rt, k, answer.is_same(&expected), true);
    answer.behind()
}

/// Reads in both all records by a key. It answers how many.
pub fn reads_all<L: Library, M: Library>(
    rt: &impl Abort,
    library: &mut L,
    other: &mut M,
    u: usize,
    schema: &Schema,
    k: u8,
) -> u32
    requires { AreAlike (L.shown.world library.old) (M.shown.world other.old) u schema.now }
    ensures { AreAlike (L.shown.world library.new) (M.shown.world other.new) u schema.now }
{
    let mut position = Position::From(Key::new());
    for count in 0..10_000u32 {
        match goes_on(rt, library, other, u, schema, k, &position) {
            Some(behind) => position = behind,
            None => return count,
        }
    }
    10_000
}

/// Whether both are the same key, or none.
pub fn is_same_key(one: &Option<Key>, other: &Option<Key>) -> bool {
    match (one, other) {
        (None, None) => true,
        (Some(one), Some(other)) => one.as_slice() == other.as_slice(),
        _ => false,
    }
}

/// The first value in both that begins so related to the operand.
fn seeks_by<L: Library, M: Library>(
    rt: &impl Abort,
    library: &mut L,
    other: &mut M,
    u: usize,
    schema: &Schema,
    k: u8,
    operand: &[u8],
    relation: Relation,
)
    requires { AreAlike (L.shown.world library.old) (M.shown.world other.old) u schema.now }
    ensures { AreAlike (L.shown.world library.new) (M.shown.world other.new) u schema.now }
{
    let answer = unit_calls::seeks(library, u, schema, k, operand, relation).expect(
        rt,
        "an answer",
    );
    let expected = unit_calls::seeks(other, u, schema, k, operand, relation).expect(
        rt,
        "another answer",
    );
    assert_equal_for(rt, k, is_same_key(&answer, &expected), true);
}

/// The first value in both that begins so related to the operand, by each relation.
pub fn seeks<L: Library, M: Library>(
    rt: &impl Abort,
    library: &mut L,
    other: &mut M,
    u: usize,
    schema: &Schema,
    k: u8,
    operand: &[u8],
)
    requires { AreAlike (L.shown.world library.old) (M.shown.world other.old) u schema.now }
    ensures { AreAlike (L.shown.world library.new) (M.shown.world other.new) u schema.now }
{
    for &relation in &[Relation::Equal, Relation::Greater, Relation::NotLess] {
        seeks_by(rt, library, other, u, schema, k, operand, relation);
    }
}

/// The greatest prime value in both.
pub fn tops<L: Library, M: Library>(
    rt: &impl Abort,
    library: &mut L,
    other: &mut M,
    u: usize,
    schema: &Schema,
)
    requires { AreAlike (L.shown.world library.old) (M.shown.world other.old) u schema.now }
    ensures { AreAlike (L.shown.world library.new) (M.shown.world other.new) u schema.now }
{
    let answer = unit_calls::tops(library, u, schema).expect(rt, "an answer");
    let expected = unit_calls::tops(other, u, schema).expect(rt, "another answer");
    assert_that(rt, is_same_key(&answer, &expected));
}

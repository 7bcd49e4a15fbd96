//! The rows that a call looks for.
ghost use Rattle.std.specs.Prelude.{◌≡◌, ◌<◌};
ghost use Rattle.std.specs.Ordering.{is_lt};
ghost use Rattle.record_layout.specs.Schema.{value_of};
ghost use Rattle.indexed_file.specs.Rank.{admits, satisfies, is_related, row_cmp};
ghost use Rattle.list_library.specs.Wanted.{is_wanted};

use crate::list_row::ListRow;
use io_state::{Position, Relation};
use record_layout::Schema;
use std::cmp::Ordering;

/// The rows that a call looks for by a key.
#[derive(Clone, Copy)]
pub enum Wanted<'a> {
    /// Those that the position admits.
    Admitted(&'a Position),
    /// Those of this value.
    Equal(&'a [u8]),
    /// Those whose first bytes are so related to the operand.
    Related(Relation, &'a [u8]),
}

/// The value of a key of a record: nothing where there is no such key.
pub fn value<'a>(schema: &Schema, k: u8, bytes: &'a [u8]) -> &'a [u8]
    ensures { result.now ≡ value_of schema.now k bytes.now }
{
    match schema.keys().get(usize::from(k)) {
        Some(part) => part.of(bytes),
        None => &bytes[..0],
    }
}

/// Whether a row comes before another, by key k.
pub fn comes_before(schema: &Schema, k: u8, first: &ListRow, second: &ListRow) -> bool
    ensures { result ≡ is_lt (row_cmp schema.now k first.now second.now) }
{
    match value(schema, k, first.bytes()).cmp(value(schema, k, second.bytes())) {
        Ordering::Less => true,
        Ordering::Equal => first.stamp(k) < second.stamp(k),
        Ordering::Greater => false,
    }
}

/// Whether the position admits the row, by key k.
fn is_admitted(schema: &Schema, k: u8, position: &Position, row: &ListRow) -> bool
    ensures { result ≡ admits schema.now k position.now row.now }
{
    match position {
        Position::Invalid | Position::Missing => false,
        Position::From(from) => value(schema, k, row.bytes()).cmp(from.as_slice()).is_ge(),
        Position::After(after, stamp) => match value(schema, k, row.bytes()).cmp(after.as_slice()) {
            Ordering::Less => false,
            Ordering::Equal => row.stamp(k) > *stamp,
            Ordering::Greater => true,
        },
    }
}

/// Whether the first bytes of a value, as many as the operand has, are so related to the operand.
fn is_so_related(relation: Relation, value: &[u8], operand: &[u8]) -> bool
    ensures { result ≡ is_related relation value.now operand.now }
{
    match relation {
        Relation::Equal => value == operand,
        Relation::Greater => value.cmp(operand).is_gt(),
        Relation::NotLess => value.cmp(operand).is_ge(),
    }
}

/// Whether a row satisfies a START.
fn is_satisfying(schema: &Schema, k: u8, relation: Relation, operand: &[u8], row: &ListRow) -> bool
    ensures { result ≡ satisfies schema.now k relation operand.now row.now }
{
    let value = value(schema, k, row.bytes());
    is_so_related(relation, &value[..operand.len().min(value.len())], operand)
}

impl Wanted<'_> {
    /// Whether a row is one of those, by key k.
    pub fn has(&self, schema: &Schema, k: u8, row: &ListRow) -> bool
        ensures { result ≡ is_wanted schema.now k self.now row.now }
    {
        match self {
            Wanted::Admitted(position) => is_admitted(schema, k, position, row),
            Wanted::Equal(wanted) => value(schema, k, row.bytes()) == *wanted,
            Wanted::Related(relation, operand) => is_satisfying(schema, k, *relation, operand, row),
        }
    }
}

//! Conditions on a record.
ghost use Rattle.std.specs.Prelude.{◌≡◌, List, ℕ};
ghost use Rattle.record_listing.specs.Condition.{all_hold, holds, is_met};

use std::cmp::Ordering;

/// How the bytes of an item have to be related to a value.
#[derive(Clone, Copy, Debug, PartialEq, Eq)]
pub enum Operator {
    Equal,
    Less,
    NotGreater,
    Greater,
    NotLess,
}

/// A condition on a record: its bytes from an offset on, as many as the value has, are so related to
/// the value. It does not hold of a record that ends before them.
#[derive(Drop)]
pub struct Condition {
    pub offset: u16,
    pub operator: Operator,
    pub value: Vec<u8>,
}

/// Whether bytes that compare so with others are so related to them.
fn is_met(operator: Operator, order: Ordering) -> bool
    ensures { result ≡ is_met operator order }
{
    match operator {
        Operator::Equal => order.is_eq(),
        Operator::Less => order.is_lt(),
        Operator::NotGreater => order.is_le(),
        Operator::Greater => order.is_gt(),
        Operator::NotLess => order.is_ge(),
    }
}

/// Whether a condition holds of a record of these bytes.
pub fn holds(condition: &Condition, bytes: &[u8]) -> bool
    ensures { result ≡ holds bytes.now condition.now }
{
    let start = usize::from(condition.offset).min(bytes.len());
    let rest = &bytes[start..];
    let value = condition.value.as_slice();
    if rest.len() < value.len() {
        return false;
    }
    is_met(condition.operator, rest[..value.len()].cmp(value))
}

/// Whether each of these conditions holds of a record of these bytes.
pub fn all_hold(conditions: &[Condition], bytes: &[u8]) -> bool
    ensures { result ≡ all_hold conditions.now bytes.now }
{
    conditions.iter().all(|condition| holds(condition, bytes))
}

//! What tells slots apart.
ghost use Rattle.std.specs.Prelude.{◌≤◌};

use crate::values::ValuesInOrder;
use record_layout::KeyPart;

/// What tells slots apart: the part of a record that is the prime key, the values that several slots
/// have, the entries of the prime key that have these values, and the values of which entries lead to
/// several slots.
#[derive(Drop)]
pub struct Doubts {
    pub prime: KeyPart,
    pub doubled: ValuesInOrder,
    pub entries: ValuesInOrder,
    pub led_twice: ValuesInOrder,
    ghost short: { prime.length ≤ 250 },
}

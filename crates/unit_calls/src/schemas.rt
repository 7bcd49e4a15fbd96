//! Schemas by their numbers.

ghost use Rattle.std.specs.Prelude.{◌≡◌, IfOk, length};
ghost use Rattle.record_layout.specs.Schema.{schema_of_fields};

use io_state::Fault;
use record_layout::{KeyKind, KeyPart, Schema};

/// A part of a record.
pub fn part(offset: u16, length: u16, kind: KeyKind) -> KeyPart {
    KeyPart {
        offset,
        length,
        kind,
    }
}

/// The schema of these numbers. Numbers that make none are `Damage`.
pub fn schema(least: u16, greatest: u16, keys: &[KeyPart]) -> Result<Schema, Fault>
    ensures { IfOk result (λ schema. schema ≡ schema_of_fields least greatest keys.now) }
{
    Schema::from_parts(least, greatest, keys).ok_or(Fault::Damage)
}

/// Records of 240 bytes: a number, and a value that several may have, each a key of 120 bytes.
pub fn two_long_keys() -> Result<Schema, Fault>
    ensures long { IfOk result (λ schema. schema.greatest ≡ 240) }
    ensures two { IfOk result (λ schema. length schema.keys ≡ 2) }
{
    schema(
        240,
        240,
        &[
            part(0, 120, KeyKind::Prime),
            part(120, 120, KeyKind::Duplicates),
        ],
    )
}

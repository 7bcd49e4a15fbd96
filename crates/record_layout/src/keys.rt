//! The keys that RECORD KEY and ALTERNATE RECORD KEY clauses name.
ghost use Rattle.std.specs.Prelude.{◌≡◌, ◌<◌, length, map, take, drop, IsPermutation};
ghost use Rattle.std.specs.List.Sorted.{IsNonDecreasingBy};
ghost use Rattle.record_layout.specs.Layout.{field_of};
ghost use Rattle.record_layout.specs.Schema.{alternate_kind};
ghost use Rattle.record_layout.specs.SchemaFault.{clause_of, begins_one, key_of_item, AnswersKeys};

use crate::fault::SchemaFault;
use crate::item::Field;
use crate::layout::Layout;
use crate::schema::{KeyKind, KeyPart};
use arrayvec::ArrayVec;
use io_state::Name;

/// The keys in the order of their clauses, the prime key first.
pub fn keys_in_order(
    layout: &Layout,
    least: u16,
    prime: &str,
    alternates: &[(Name, bool)],
) -> Result<ArrayVec<KeyPart, 9>, SchemaFault>
    ensures { AnswersKeys layout.now least prime.now (map clause_of alternates.now) result }
{
    if alternates.len() > 8 {
        return Err(SchemaFault::TooManyKeys);
    }
    let mut keys = ArrayVec::new();
    let key = key_part(layout, least, &[], prime, KeyKind::Prime)?;
    keys.push(key);
    for (name, duplicates) in alternates {
        let key = key_part(layout, least, &keys, name, alternate_kind(*duplicates))?;
        keys.push(key);
    }
    Ok(keys)
}

/// The kind of an alternate key, by whether its clause says WITH DUPLICATES.
fn alternate_kind(duplicates: bool) -> KeyKind
    ensures { result ≡ alternate_kind duplicates }
{
    if duplicates {
        KeyKind::Duplicates
    } else {
        KeyKind::Unique
    }
}

/// The key that the item of a name is, behind other keys.
fn key_part(
    layout: &Layout,
    least: u16,
    keys: &[KeyPart],
    name: &str,
    kind: KeyKind,
) -> Result<KeyPart, SchemaFault>
    ensures { result ≡ key_of_item least keys.now kind (field_of layout.now name.now) }
{
    let field = layout.field(name).ok_or(SchemaFault::NoSuchField)?;
    if field.length > 250 {
        return Err(SchemaFault::KeyTooLong);
    }
    if begins_key(keys, field) {
        return Err(SchemaFault::SameLeftmost);
    }
    if field.offset + field.length > least {
        return Err(SchemaFault::KeyPastLeast);
    }
    Ok(KeyPart {
        offset: field.offset,
        length: field.length,
        kind,
    })
}

/// Whether a key begins with the item's leftmost character.
fn begins_key(keys: &[KeyPart], field: Field) -> bool
    ensures { result ≡ begins_one keys.now field }
{
    keys.iter().any(|key| key.offset == field.offset)
}

/// Puts the alternate keys, which stand behind the prime key, in the order of their offsets.
pub fn sort_alternates(keys: &mut [KeyPart])
    requires { 0 < length keys.old }
    ensures prime { take 1 keys.new ≡ take 1 keys.old }
    ensures alternates { IsPermutation (drop 1 keys.old) (drop 1 keys.new) }
    ensures rising { IsNonDecreasingBy (λ key. key.offset) (drop 1 keys.new) }
{
    keys[1..].sort_unstable_by_key(|key| key.offset);
}

//! The keys of a file.
ghost use Rattle.std.specs.Prelude.{◌≡◌, ◌==◌, ◌&&◌, nat_le};
ghost use Rattle.std.specs.Cmp.Lexicographic.{pointwise};
ghost use Rattle.record_layout.specs.Schema.{IsFirstPart, same_part};

use crate::fault::SchemaFault;
use crate::item::Field;
use crate::keys::{keys_in_order, sort_alternates};
use crate::layout::Layout;
use crate::parts::are_keys;
use arrayvec::ArrayVec;
use io_state::{Key, Name};
use std::marker::Model;

/// What a key is in its file.
#[derive(Clone, Copy, Debug, PartialEq, Eq, Default)]
pub enum KeyKind {
    /// The prime record key, whose values are unique.
    #[default]
    Prime,
    /// An alternate record key whose values are unique.
    Unique,
    /// An alternate record key that may have duplicates, WITH DUPLICATES.
    Duplicates,
}

/// A part of a record that is a key: bytes from the record's first on, and its kind.
#[derive(Clone, Copy, Debug, PartialEq, Eq, Default)]
pub struct KeyPart {
    pub offset: u16,
    pub length: u16,
    pub kind: KeyKind,
}

/// The least and the greatest length of a file's records, in bytes, and the keys: key 0 is the
/// prime record key, and the alternate record keys follow by rising offset.
#[derive(Drop)]
pub struct Schema {
    least: u16,
    greatest: u16,
    keys: ArrayVec<KeyPart, 9>,
}

impl Model for Schema {
    ghost use Rattle.record_layout.specs.Schema.{Schema as Keys, IsSchema, schema_of_fields};

    ghost Value = { Keys };

    ghost view = { λ s. schema_of_fields s.least s.greatest s.keys.items };

    ghost invariant = { λ s. IsSchema (schema_of_fields s.least s.greatest s.keys.items) };
}

impl KeyPart {
    ghost use Rattle.std.specs.Prelude.{◌≡◌};
    ghost use Rattle.record_layout.specs.Schema.{part_of, has_duplicates};

    /// Its bytes in a record, as many as the record has of them.
    pub fn of<'a>(&self, bytes: &'a [u8]) -> &'a [u8]
        ensures { result.now ≡ part_of self.now bytes.now }
    {
        let start = usize::from(self.offset).min(bytes.len());
        let rest = &bytes[start..];
        &rest[..usize::from(self.length).min(rest.len())]
    }

    /// Whether it may have duplicates.
    pub fn has_duplicates(&self) -> bool
        ensures { result ≡ has_duplicates self.now }
    {
        match self.kind {
            KeyKind::Prime | KeyKind::Unique => false,
            KeyKind::Duplicates => true,
        }
    }
}

impl Schema {
    ghost use Rattle.std.specs.Prelude.{◌≡◌, ◌<◌, ◌≤◌, ◌↔◌, length, IsTrue, IsSome, IfSome, IfOk, IfErr, map};
    ghost use Rattle.std.specs.Prelude.{option_map, ℕ};
    ghost use Rattle.record_layout.specs.Layout.{length_of};
    ghost use Rattle.record_layout.specs.SchemaFault.{clause_of, GivesFault, GivesSchema};
    ghost use Rattle.record_layout.specs.Schema.{IsSchema, IsKey, schema_of_fields, key_at, value_of};
    ghost use Rattle.record_layout.specs.Schema.{same_schema, key_of_field, key_led_by};

    /// The schema of records that are all as long as the layout, with these items for their keys.
    /// An alternate key is an item's name, and whether its clause says WITH DUPLICATES.
    pub fn new(
        layout: &Layout,
        prime: &str,
        alternates: &[(Name, bool)],
    ) -> Result<Schema, SchemaFault>
        ensures given { IfOk result (GivesSchema layout.now (length_of layout.now) prime.now
            (map clause_of alternates.now)) }
        ensures fault { IfErr result (GivesFault layout.now (length_of layout.now) prime.now
            (map clause_of alternates.now)) }
    {
        Schema::varying(layout, layout.length(), prime, alternates)
    }

    /// The schema of records of `least` bytes up to the layout's length, with these items for their
    /// keys, as `new` has them. `TooManyKeys` is looked at first, for more than 8 alternates. Then
    /// the fault is that of the first key that has one, the prime key first: no item has its name,
    /// the item is past 250 bytes, begins where an earlier key does, or ends past `least`.
    pub fn varying(
        layout: &Layout,
        least: u16,
        prime: &str,
        alternates: &[(Name, bool)],
    ) -> Result<Schema, SchemaFault>
        requires some { 1 ≤ least }
        requires within { least ≤ length_of layout.now }
        ensures given { IfOk result (GivesSchema layout.now least prime.now (map clause_of alternates.now)) }
        ensures fault { IfErr result (GivesFault layout.now least prime.now (map clause_of alternates.now)) }
    {
        let greatest = layout.length();
        let mut keys = keys_in_order(layout, least, prime, alternates)?;
        sort_alternates(&mut keys);
        Ok(Schema {
            least,
            greatest,
            keys,
        })
    }

    /// The schema of these numbers, as a file's header has them, where they make one.
    pub fn from_parts(least: u16, greatest: u16, keys: &[KeyPart]) -> Option<Schema>
        ensures schema { IfSome result (λ schema. schema ≡ schema_of_fields least greatest keys.now) }
        ensures exact { IsSome result ↔ IsSchema (schema_of_fields least greatest keys.now) }
    {
        let fits = 1 <= least && least <= greatest && greatest <= 4000 && keys.len() <= 9;
        if !fits || !are_keys(least, keys) {
            return None;
        }
        let mut parts = ArrayVec::new();
        let _ = parts.try_extend_from_slice(keys);
        Some(Schema {
            least,
            greatest,
            keys: parts,
        })
    }

    /// The least length of a record, in bytes.
    pub fn least(&self) -> u16
        ensures least { result ≡ self.now.least }
        ensures schema { IsSchema self.now }
    {
        self.least
    }

    /// The greatest length of a record, in bytes: that of the record area.
    pub fn greatest(&self) -> u16
        ensures greatest { result ≡ self.now.greatest }
        ensures schema { IsSchema self.now }
    {
        self.greatest
    }

    /// How many keys there are, the prime key among them.
    pub fn key_count(&self) -> usize
        ensures count { result ≡ length self.now.keys }
        ensures schema { IsSchema self.now }
    {
        self.keys.len()
    }

    /// All keys, the prime key first.
    pub fn keys(&self) -> &[KeyPart]
        ensures { result.now ≡ self.now.keys }
    {
        self.keys.as_slice()
    }

    /// The part of a record that a key is.
    pub fn part(&self, k: u8) -> KeyPart
        requires { k < length self.now.keys }
        ensures part { result ≡ key_at self.now k }
        ensures whole { IsKey self.now.least result }
    {
        self.keys[usize::from(k)]
    }

    /// The value of a key of a record.
    pub fn value<'a>(&self, record: &'a [u8], k: u8) -> &'a [u8]
        requires key { k < length self.now.keys }
        requires whole { self.now.least ≤ length «record».now }
        ensures value { result.now ≡ value_of self.now k «record».now }
        ensures short { length result.now ≤ 250 }
    {
        let part = self.part(k);
        let start = usize::from(part.offset);
        &record[start..start + usize::from(part.length)]
    }

    /// A copy of the value of a key of a record.
    pub fn extract(&self, record: &[u8], k: u8) -> Key
        requires key { k < length self.now.keys }
        requires whole { self.now.least ≤ length «record».now }
        ensures { result.items ≡ value_of self.now k «record».now }
    {
        let mut key = Key::new();
        let _ = key.try_extend_from_slice(self.value(record, k));
        key
    }

    /// The key that is this item's very bytes.
    pub fn key_of(&self, field: Field) -> Option<u8>
        ensures { result ≡ key_of_field self.now field }
    {
        equal_key(&self.keys, field).map(|k| k as u8)
    }

    /// The key that begins with this item's bytes, and how many they are.
    pub fn partial(&self, field: Field) -> Option<(u8, u16)>
        ensures { result ≡ option_map {U = ℕ × ℕ} (λ k. (k, field.length)) (key_led_by self.now field) }
    {
        leading_key(&self.keys, field).map(|k| (k as u8, field.length))
    }

    /// Whether both have the same lengths of records and the same keys.
    pub fn same(&self, other: &Schema) -> bool
        ensures same { result ≡ same_schema self.now other.now }
        ensures equal { IsTrue result ↔ (self.now ≡ other.now) }
    {
        let same_lengths = self.least == other.least && self.greatest == other.greatest;
        same_lengths && same_keys(&self.keys, &other.keys)
    }

    /// A copy, which takes no memory.
    pub fn copy(&self) -> Schema
        ensures { result ≡ self.now }
    {
        let mut keys = ArrayVec::new();
        let _ = keys.try_extend_from_slice(self.keys.as_slice());
        Schema {
            least: self.least,
            greatest: self.greatest,
            keys,
        }
    }
}

/// Whether both have the same keys, of the same kinds.
fn same_keys(keys: &[KeyPart], others: &[KeyPart]) -> bool
    ensures { result ≡ pointwise same_part keys.now others.now }
{
    keys == others
}

/// Which key is the item's very bytes.
fn equal_key(keys: &[KeyPart], field: Field) -> Option<usize>
    ensures { IsFirstPart (λ part. (part.offset == field.offset) && (part.length == field.length)) keys.now
        result }
{
    keys.iter().position(|part| part.offset == field.offset && part.length == field.length)
}

/// Which key begins with the item's bytes.
fn leading_key(keys: &[KeyPart], field: Field) -> Option<usize>
    ensures { IsFirstPart (λ part. (part.offset == field.offset) && nat_le field.length part.length) keys.now
        result }
{
    keys.iter().position(|part| part.offset == field.offset && field.length <= part.length)
}

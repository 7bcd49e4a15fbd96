//! Schemas and records that are drawn.

ghost use Rattle.std.specs.Prelude.{◌≤◌, ◌<◌};

use crate::checks::assert_equal_for;
use arrayvec::ArrayVec;
use record_layout::{KeyKind, KeyPart, Schema};
use std::process::Abort;

/// A record of 1 to 300 bytes.
pub type Record = ArrayVec<u8, 300>;

/// Numbers, one after another, that look as if they were drawn.
#[derive(Drop)]
pub struct Draw {
    pub last: u64,
}

impl Draw {
    /// A number below this one.
    pub fn below(&mut self, end: u64) -> u64
        ensures { 1 ≤ end → result < end }
    {
        self.last = self
            .last
            .wrapping_mul(6_364_136_223_846_793_005)
            .wrapping_add(1_442_695_040_888_963_407);
        (self.last >> 33) % end.max(1)
    }

    /// A number from one up to another.
    fn between(&mut self, least: u16, most: u16) -> u16 {
        let many = u64::from(most.saturating_sub(least)).saturating_add(1);
        least.saturating_add(self.below(many) as u16)
    }

    /// A letter, one of so many.
    fn letter(&mut self, many: u8) -> u8 {
        b'a' + (self.below(u64::from(many)) % 26) as u8
    }
}

/// A key that begins there, of at most 250 bytes, in records of so many bytes.
fn draws_part(draw: &mut Draw, offset: u16, least: u16) -> KeyPart {
    KeyPart {
        offset,
        length: draw.between(1, least.saturating_sub(offset).min(250)),
        kind: match draw.below(2) {
            0 => KeyKind::Duplicates,
            _ => KeyKind::Unique,
        },
    }
}

/// One to four keys in records of so many bytes: the alternates by rising offset.
fn draws_parts(draw: &mut Draw, least: u16) -> ArrayVec<KeyPart, 4> {
    let mut parts = ArrayVec::new();
    let begin = draw.between(0, least.saturating_sub(1));
    let prime = KeyPart {
        kind: KeyKind::Prime,
        ..draws_part(draw, begin, least)
    };
    let _ = parts.try_push(prime);
    let mut offset = 0u16;
    for _ in 0..draw.below(4) {
        offset = offset.saturating_add(draw.between(0, least / 3));
        if offset < least && offset != begin {
            let _ = parts.try_push(draws_part(draw, offset, least));
        }
        offset = offset.saturating_add(1);
    }
    parts
}

/// The schema of records of 1 to 300 bytes, of one length or of several, with one to four keys.
pub fn draws_schema(rt: &impl Abort, draw: &mut Draw) -> Schema {
    let least = draw.between(1, 300);
    let greatest = match draw.below(2) {
        0 => least,
        _ => draw.between(least, 300),
    };
    let parts = draws_parts(draw, least);
    let schema = Schema::from_parts(least, greatest, parts.as_slice());
    assert_equal_for(rt, (least, greatest), schema.is_some(), true);
    schema.expect(rt, "a schema")
}

/// A record of one of twenty letters, with another letter in each duplicates key, and some bytes changed.
pub fn draws_record(draw: &mut Draw, schema: &Schema) -> Record {
    let letter = draw.letter(20);
    let mut record = Record::new();
    for _ in 0..draw.between(schema.least(), schema.greatest()) {
        let _ = record.try_push(letter);
    }
    for part in schema.keys() {
        if part.has_duplicates() {
            let shared = draw.letter(3);
            put(&mut record, part.offset, shared);
        }
    }
    for _ in 0..draw.below(3) {
        let at = draw.between(0, schema.greatest());
        let other = draw.letter(26);
        put(&mut record, at, other);
    }
    record
}

/// Puts a byte into a record, where it is as long.
fn put(record: &mut Record, at: u16, byte: u8) {
    if let Some(place) = record.as_mut_slice().get_mut(usize::from(at)) {
        *place = byte;
    }
}

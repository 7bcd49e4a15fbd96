//! Numbers that are drawn, records of them, and keys of such records.

ghost use Rattle.std.specs.Prelude.{◌≤◌, ◌<◌};

use crate::records::{Record, record_of};
use record_layout::{KeyKind, KeyPart, Schema};

/// Numbers, one after another, that look as if they were drawn.
#[derive(Drop)]
pub struct Draw {
    pub last: u64,
}

impl Draw {
    /// A number below this one.
    pub fn below(&mut self, end: u64) -> u64
        ensures { 1 ≤ end → result < end }
    {
        self.last = self
            .last
            .wrapping_mul(6_364_136_223_846_793_005)
            .wrapping_add(1_442_695_040_888_963_407);
        (self.last >> 33) % end.max(1)
    }
}

/// A record with a number and a code that are one record's alone.
pub fn draws_record(schema: &Schema, draw: &mut Draw, primes: u64) -> Record {
    let least = u64::from(schema.least());
    let greatest = u64::from(schema.greatest());
    let prime = draw.below(primes);
    let code = draw.below(primes.saturating_mul(2));
    let numbers = [prime, code, code / 10 % 100, draw.below(7)];
    let lengths = greatest.saturating_sub(least).saturating_add(1);
    let length = least.saturating_add(draw.below(lengths));
    record_of(schema, &numbers, length as usize)
}

/// Records of 12 to 19 bytes: a code of four digits, its tens and hundreds, and one of seven values.
pub const NARROW: [KeyPart; 4] = [
    KeyPart {
        offset: 2,
        length: 3,
        kind: KeyKind::Prime,
    },
    KeyPart {
        offset: 5,
        length: 4,
        kind: KeyKind::Unique,
    },
    KeyPart {
        offset: 6,
        length: 2,
        kind: KeyKind::Duplicates,
    },
    KeyPart {
        offset: 9,
        length: 3,
        kind: KeyKind::Duplicates,
    },
];

/// Keys of 250 bytes, of which a leaf holds eight.
pub const WIDE: [KeyPart; 4] = [
    KeyPart {
        offset: 0,
        length: 250,
        kind: KeyKind::Prime,
    },
    KeyPart {
        offset: 250,
        length: 250,
        kind: KeyKind::Unique,
    },
    KeyPart {
        offset: 500,
        length: 250,
        kind: KeyKind::Duplicates,
    },
    KeyPart {
        offset: 750,
        length: 250,
        kind: KeyKind::Duplicates,
    },
];

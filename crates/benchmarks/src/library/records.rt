//! The records of the measured file: 100 bytes, with a number of eight digits, another of eight,
//! and one of four that several records have.

ghost use Rattle.std.specs.Prelude.{◌≤◌};

use io_state::Key;
use record_layout::{KeyKind, KeyPart, Schema};

/// The number, by which the file is in order.
pub const NUMBER: u8 = 0;

/// Another number that one record alone has.
pub const OTHER: u8 = 1;

/// A number that several records have.
pub const GROUP: u8 = 2;

/// How many records there are, and in how many groups.
#[derive(Clone, Copy)]
pub struct Records {
    pub count: u32,
    pub groups: u32,
}

/// Their schema.
pub fn schema() -> Option<Schema> {
    let part = |offset, length, kind| KeyPart {
        offset,
        length,
        kind,
    };
    Schema::from_parts(
        100,
        100,
        &[
            part(0, 8, KeyKind::Prime),
            part(8, 8, KeyKind::Unique),
            part(16, 4, KeyKind::Duplicates),
        ],
    )
}

/// No two of the first hundred million have the same.
fn mixed(i: u64) -> u64 {
    const PRIME: u64 = 99_999_989;
    let i = i % PRIME;
    i.wrapping_mul(i) % PRIME * i % PRIME
}

fn put_digits(record: &mut [u8; 100], start: usize, end: usize, number: u64)
    requires order { start ≤ end }
    requires within { end ≤ 100 }
{
    let mut rest = number;
    for digit in record[start..end].iter_mut().rev() {
        *digit = b'0' + (rest % 10) as u8;
        rest /= 10;
    }
}

impl Records {
    /// The record of a place, from 0 on, whose group is that of its other number and so many more.
    pub fn record(&self, i: u32, more: u64) -> [u8; 100] {
        let mut record = [b'.'; 100];
        let other = mixed(u64::from(i) + 87_654_321);
        let group = other.wrapping_add(more) % u64::from(self.groups.max(1));
        put_digits(&mut record, 0, 8, mixed(u64::from(i) + 12_345_678));
        put_digits(&mut record, 8, 16, other);
        put_digits(&mut record, 16, 20, group);
        record
    }

    /// The value of a key in the record of a place.
    pub fn value(&self, i: u32, k: u8) -> Key {
        let record = self.record(i, 0);
        let value = match k {
            NUMBER => &record[0..8],
            OTHER => &record[8..16],
            _ => &record[16..20],
        };
        let mut key = Key::new();
        let _ = key.try_extend_from_slice(value);
        key
    }

    /// The places in a mixed order.
    pub fn mixed_place(&self, turn: u32) -> u32 {
        turn.wrapping_mul(7919).wrapping_add(13) % self.count.max(1)
    }
}

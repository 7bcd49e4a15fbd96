//! The entry of a record in an alternate key, by its parts.

ghost use Rattle.std.specs.Prelude.{◌≡◌, ◌<◌, ◌^◌, ℕ, slice_index};
ghost use Rattle.file_building.specs.ValueLead.{lead_of_value};

use crate::stamps::stamp_by;
use crate::value_lead::lead_of_value;
use byteorder::{BigEndian, ByteOrder};
use key_index::AltEntry;
use record_layout::Schema;

/// The value of a record, its stamp, and its prime value, by which entries are ordered. What the value
/// begins with tells most of them apart, with no look at bytes that lie elsewhere.
#[derive(Clone, Copy, PartialEq, Eq, PartialOrd, Ord)]
pub struct Ranked<'a> {
    pub lead: u64,
    pub value: &'a [u8],
    pub stamp: u64,
    pub prime: &'a [u8],
    ghost led: { lead ≡ lead_of_value value.now },
    ghost bytes: { (i : ℕ) → slice_index value.now i < 256 },
    ghost counted: { stamp < 2 ^ 64 },
}

impl<'a> Ranked<'a> {
    ghost use Rattle.std.specs.Prelude.{◌≤◌, length};
    ghost use Rattle.file_building.specs.Entries.{entry_in, entry_of_new};
    ghost use Rattle.file_building.specs.Ranks.{is_lower};
    ghost use Rattle.key_index.specs.Stored.{HasAltLength, alt_entry_in, entry_to};

    /// The entry of a value, a stamp and a prime value.
    fn of_parts(value: &'a [u8], stamp: u64, prime: &'a [u8]) -> Ranked<'a>
        ensures { entry_in result ≡ entry_to value.now stamp prime.now }
    {
        Ranked {
            lead: lead_of_value(value),
            value,
            stamp,
            prime,
        }
    }

    /// The entry that key `k` has of a new record.
    pub fn of_record(schema: &Schema, k: u8, record: &'a [u8], stamp: u64) -> Ranked<'a>
        requires key { k < length schema.now.keys }
        requires whole { schema.now.least ≤ length «record».now }
        ensures { entry_in result ≡ entry_of_new schema.now k stamp «record».now }
    {
        let stamp = stamp_by(schema, k, stamp);
        Ranked::of_parts(schema.value(record, k), stamp, schema.value(record, 0))
    }

    /// The entry of bytes whose first `width` are the value, and the last `prime` the prime value.
    pub fn of_bytes(bytes: &'a [u8], width: usize, prime: usize) -> Ranked<'a>
        requires { HasAltLength width prime bytes.now }
        ensures { entry_in result ≡ alt_entry_in width bytes.now }
    {
        let stamp = BigEndian::read_u64(&bytes[width..]);
        Ranked::of_parts(&bytes[..width], stamp, &bytes[width + 8..])
    }

    /// An entry, seen in its parts.
    pub fn of_entry(entry: &'a AltEntry) -> Ranked<'a>
        ensures { entry_in result ≡ entry.now }
    {
        Ranked::of_parts(entry.value.as_slice(), entry.stamp, entry.prime.as_slice())
    }

    /// It is of a lower rank than another entry.
    pub fn is_lower(&self, other: &Ranked<'_>) -> bool
        ensures { result ≡ is_lower (entry_in self.now) (entry_in other.now) }
    {
        self.value
            .cmp(other.value)
            .then(self.stamp.cmp(&other.stamp))
            .is_lt()
    }
}

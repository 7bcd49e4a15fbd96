//! The slots of a file's heap, and the stamps of a new record, which they have in front of it.

ghost use Rattle.std.specs.Prelude.{◌≡◌, ◌≤◌, ◌<◌, ◌+◌, ◌++◌, length};
ghost use Rattle.byteorder.specs.Endian.{big_bytes};
ghost use Rattle.record_layout.specs.Schema.{IsSchema};
ghost use Rattle.file_building.specs.Entries.{stamp_of_key};
ghost use Rattle.file_building.specs.Opening.{IsShapeFor};
ghost use Rattle.file_building.specs.Stamps.{AreStampsOf};

use arrayvec::ArrayVec;
use byteorder::{BigEndian, ByteOrder};
use record_heap::SlotShape;
use record_layout::Schema;

/// What the slots of a file's heap have in common: each has a stamp for each alternate key that may
/// have duplicates.
pub fn heap_shape(schema: &Schema) -> SlotShape
    ensures shape { IsShapeFor schema.now result }
    ensures schema { IsSchema schema.now }
{
    let least = schema.least();
    let stamped = schema
        .keys()
        .iter()
        .filter(|part| part.has_duplicates())
        .count();
    SlotShape {
        stamps: 8 * stamped as u16,
        least,
        greatest: schema.greatest(),
    }
}

/// The stamps of a new record, eight bytes for each alternate key of duplicates.
pub fn new_stamps(schema: &Schema, stamp: u64) -> ArrayVec<u8, 64>
    ensures stamps { AreStampsOf schema.now stamp result.items }
    ensures schema { IsSchema schema.now }
{
    let alternates = schema.key_count() - 1;
    let mut stamps = ArrayVec::new();
    for j in 0..alternates {
        if schema.part(j as u8 + 1).has_duplicates() {
            push_stamp(&mut stamps, stamp);
        }
    }
    stamps
}

/// Puts one more stamp behind others.
fn push_stamp(stamps: &mut ArrayVec<u8, 64>, stamp: u64)
    requires { length stamps.old.items + 8 ≤ 64 }
    ensures { stamps.new.items ≡ stamps.old.items ++ big_bytes 8 stamp }
{
    let mut bytes = [0; 8];
    BigEndian::write_u64(&mut bytes, stamp);
    let _ = stamps.try_extend_from_slice(&bytes);
}

/// The stamp that a new record has in key `k`.
pub fn stamp_by(schema: &Schema, k: u8, stamp: u64) -> u64
    requires { k < length schema.now.keys }
    ensures { result ≡ stamp_of_key schema.now k stamp }
{
    if schema.part(k).has_duplicates() {
        stamp
    } else {
        0
    }
}

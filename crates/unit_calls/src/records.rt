//! Records whose values of the keys are numbers.

use arrayvec::ArrayVec;
use io_state::{Fault, Key};
use record_layout::{KeyPart, Schema};

/// A record that outlives the call that made it.
pub type Record = ArrayVec<u8, 4000>;

/// A value that ends with a number.
pub fn value_of(part: KeyPart, number: u64) -> ArrayVec<u8, 250> {
    let mut value = ArrayVec::new();
    for _ in 0..part.length.min(250) {
        let _ = value.try_push(b'0');
    }
    let mut rest = number;
    for digit in value.as_mut_slice().iter_mut().rev() {
        *digit = b'0' + (rest % 10) as u8;
        rest /= 10;
    }
    value
}

/// The value of key k that ends with a number. A key that the schema does not have is `Damage`.
pub fn key_of(schema: &Schema, k: u8, number: u64) -> Result<Key, Fault> {
    if usize::from(k) >= schema.key_count() {
        return Err(Fault::Damage);
    }
    Ok(value_of(schema.part(k), number))
}

/// A record of so many bytes with this number for each key.
pub fn record_of(schema: &Schema, numbers: &[u64], length: usize) -> Record {
    let mut record = ArrayVec::new();
    for _ in 0..length.min(4000) {
        let _ = record.try_push(b'.');
    }
    for (part, number) in schema.keys().iter().zip(numbers) {
        let value = value_of(*part, *number);
        put(
            record.as_mut_slice(),
            usize::from(part.offset),
            value.as_slice(),
        );
    }
    record
}

/// Writes these bytes over others, as many as there is room for.
pub fn put(record: &mut [u8], offset: usize, bytes: &[u8]) {
    for (i, byte) in bytes.iter().enumerate() {
        if let Some(place) = record.get_mut(offset.saturating_add(i)) {
            *place = *byte;
        }
    }
}

/// A value.
pub fn key(bytes: &[u8]) -> Key {
    let mut key = Key::new();
    let _ = key.try_extend_from_slice(bytes);
    key
}

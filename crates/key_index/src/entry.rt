//! What an index has of a record, and its bytes in a leaf.
//!
//! | Bytes of a prime entry, for values of w bytes | Content |
//! |---|---|
//! | 0 to w - 1 | value |
//! | w to w + 3, w + 4 to w + 5 | place: page, slot |
//!
//! | Bytes of an alternate entry | Content |
//! |---|---|
//! | 0 to w - 1 | value |
//! | w to w + 7 | stamp |
//! | from w + 8 | prime value of the record |

ghost use Rattle.std.specs.Prelude.{◌≡◌, ◌+◌, ◌^◌, ◌<◌, ◌≤◌, ◌++◌, [], length};
ghost use Rattle.byteorder.specs.Endian.{big_bytes};
ghost use Rattle.key_index.specs.Stored.{place_in};

use byteorder::{BigEndian, ByteOrder};
use io_state::Key;
use record_heap::Place;
use tree_node::Entry;

/// The value of the prime key, and the place of the record.
#[derive(Drop)]
pub struct PrimeEntry {
    pub value: Key,
    pub place: Place,
}

/// A value of an alternate key and its stamp, and the prime value of the record.
#[derive(Drop)]
pub struct AltEntry {
    pub value: Key,
    pub stamp: u64,
    pub prime: Key,
}

/// The first entry of a value of an alternate key, and whether the next entry has the value too.
#[derive(Drop)]
pub struct AltFirst {
    pub entry: AltEntry,
    pub followed: bool,
}

impl PrimeEntry {
    ghost use Rattle.key_index.specs.Stored.{prime_entry_in};

    /// The bytes of an entry.
    pub fn bytes(value: &[u8], place: Place) -> Entry
        requires { length value.now ≤ 250 }
        ensures bytes { result.items ≡ value.now ++ (big_bytes 4 place.page ++ big_bytes 2 place.slot) }
        ensures page { place.page < 2 ^ 32 }
        ensures slot { place.slot < 2 ^ 16 }
    {
        let mut target = [0; 6];
        BigEndian::write_u32(&mut target, place.page);
        BigEndian::write_u16(&mut target[4..], place.slot);
        let mut bytes = Entry::new();
        let _ = bytes.try_extend_from_slice(value);
        let _ = bytes.try_extend_from_slice(&target);
        bytes
    }

    /// An entry to be filled.
    pub fn blank() -> PrimeEntry
        ensures { result.value.items ≡ [] }
    {
        PrimeEntry {
            value: Key::new(),
            place: Place { page: 0, slot: 0 },
        }
    }

    /// Makes it the entry of bytes whose first `width` are the value.
    pub fn fill(&mut self, bytes: &[u8], width: usize)
        requires width { width ≤ 250 }
        requires long { length bytes.now ≡ width + 6 }
        ensures { self.new ≡ prime_entry_in width bytes.now }
    {
        put_bytes(&mut self.value, &bytes[..width]);
        self.place = Place {
            page: BigEndian::read_u32(&bytes[width..]),
            slot: BigEndian::read_u16(&bytes[width + 4..]),
        };
    }

    /// The entry of bytes whose first `width` are the value.
    pub fn read(bytes: &[u8], width: usize) -> PrimeEntry
        requires width { width ≤ 250 }
        requires long { length bytes.now ≡ width + 6 }
        ensures { result ≡ prime_entry_in width bytes.now }
    {
        PrimeEntry {
            value: key_of(&bytes[..width]),
            place: Place {
                page: BigEndian::read_u32(&bytes[width..]),
                slot: BigEndian::read_u16(&bytes[width + 4..]),
            },
        }
    }
}

/// The place that stands behind the value in the bytes of a prime entry.
pub fn place_in(bytes: &[u8; 6]) -> Place
    ensures { result ≡ place_in bytes.now }
{
    Place {
        page: BigEndian::read_u32(bytes),
        slot: BigEndian::read_u16(&bytes[4..]),
    }
}

impl AltEntry {
    ghost use Rattle.key_index.specs.Stored.{alt_entry_in, entry_to, HasAltLength};

    /// The bytes of an entry.
    pub fn bytes(value: &[u8], stamp: u64, prime: &[u8]) -> Entry
        requires value { length value.now ≤ 250 }
        requires prime { length prime.now ≤ 250 }
        ensures { result.items ≡ value.now ++ (big_bytes 8 stamp ++ prime.now) }
    {
        let mut order = [0; 8];
        BigEndian::write_u64(&mut order, stamp);
        let mut bytes = Entry::new();
        let _ = bytes.try_extend_from_slice(value);
        let _ = bytes.try_extend_from_slice(&order);
        let _ = bytes.try_extend_from_slice(prime);
        bytes
    }

    /// An entry to be filled.
    pub fn blank() -> AltEntry
        ensures value { result.value.items ≡ [] }
        ensures prime { result.prime.items ≡ [] }
    {
        AltEntry {
            value: Key::new(),
            stamp: 0,
            prime: Key::new(),
        }
    }

    /// Makes it the entry of bytes whose first `width` are the value, and the last `prime` the
    /// prime value.
    pub fn fill(&mut self, bytes: &[u8], width: usize, prime: usize)
        requires { HasAltLength width prime bytes.now }
        ensures { self.new ≡ alt_entry_in width bytes.now }
    {
        put_bytes(&mut self.value, &bytes[..width]);
        self.stamp = BigEndian::read_u64(&bytes[width..]);
        put_bytes(&mut self.prime, &bytes[width + 8..]);
    }

    /// Makes it the entry of a value, a stamp and a prime value.
    pub fn set(&mut self, value: &[u8], stamp: u64, prime: &[u8])
        requires value { length value.now ≤ 250 }
        requires prime { length prime.now ≤ 250 }
        ensures { self.new ≡ entry_to value.now stamp prime.now }
    {
        put_bytes(&mut self.value, value);
        self.stamp = stamp;
        put_bytes(&mut self.prime, prime);
    }

    /// The entry of bytes whose first `width` are the value, and the last `prime` the prime value.
    pub fn read(bytes: &[u8], width: usize, prime: usize) -> AltEntry
        requires { HasAltLength width prime bytes.now }
        ensures { result ≡ alt_entry_in width bytes.now }
    {
        AltEntry {
            value: key_of(&bytes[..width]),
            stamp: BigEndian::read_u64(&bytes[width..]),
            prime: key_of(&bytes[width + 8..]),
        }
    }
}

impl AltFirst {
    /// A first entry to be filled.
    pub fn blank() -> AltFirst {
        AltFirst {
            entry: AltEntry::blank(),
            followed: false,
        }
    }
}

/// Makes a value these bytes, in its place.
fn put_bytes(value: &mut Key, bytes: &[u8])
    requires { length bytes.now ≤ 250 }
    ensures { value.new.items ≡ bytes.now }
{
    if value.len() == bytes.len() {
        value.as_mut_slice().copy_from_slice(bytes);
        return;
    }
    value.clear();
    let _ = value.try_extend_from_slice(bytes);
}

/// A value that outlives its page.
pub(crate) fn key_of(value: &[u8]) -> Key
    requires { length value.now ≤ 250 }
    ensures { result.items ≡ value.now }
{
    let mut key = Key::new();
    let _ = key.try_extend_from_slice(value);
    key
}

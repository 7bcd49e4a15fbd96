//! The parts of an open file.

use crate::path::Path;
use arrayvec::ArrayVec;
use key_index::{AltIndex, PrimeIndex};
use record_heap::Heap;
use record_layout::{KeyPart, Schema};

/// An indexed file that is open.
#[derive(Drop)]
pub struct OpenFile {
    pub(crate) schema: Schema,
    pub(crate) next_stamp: u64,
    pub(crate) prime: PrimeIndex,
    // The index of each alternate key, in their order.
    pub(crate) alternates: ArrayVec<AltIndex, 8>,
    pub(crate) heap: Heap,
    // Where the last READ NEXT left off.
    pub(crate) path: Option<Path>,
    // An earlier change failed: every call answers Broken.
    pub(crate) broken: bool,
}

impl OpenFile {
    ghost use Rattle.std.specs.Prelude.{◌≡◌, ◌-◌, ◌≤◌, ◌<◌, length, slice_index_or};
    ghost use Rattle.record_layout.specs.Schema.{IsSchema, IsKey, key_at, value_of};
    ghost use Rattle.key_index.specs.Standing.{prime_height};
    ghost use Rattle.open_file.specs.Fields.{file_schema, next_stamp_of, prime_index_of, alternates_of};
    ghost use Rattle.open_file.specs.Fields.{heap_of, has_broken};

    /// Whether an earlier change failed, so that every call answers Broken.
    pub fn is_broken(&self) -> bool
        ensures { result ≡ has_broken self.now }
    {
        self.broken
    }

    /// The stamp of the next record.
    pub fn next_stamp(&self) -> u64
        ensures { result ≡ next_stamp_of self.now }
    {
        self.next_stamp
    }

    /// Its schema.
    pub fn schema(&self) -> &Schema
        ensures { result.now ≡ file_schema self.now }
    {
        &self.schema
    }

    /// How many keys its schema has, the prime key among them.
    pub fn key_count(&self) -> usize
        ensures count { result ≡ length (file_schema self.now).keys }
        ensures schema { IsSchema (file_schema self.now) }
    {
        self.schema.key_count()
    }

    /// The keys of its schema, the prime key first.
    pub fn keys(&self) -> &[KeyPart]
        ensures { result.now ≡ (file_schema self.now).keys }
    {
        self.schema.keys()
    }

    /// The part of a record that a key is.
    pub fn part(&self, k: u8) -> KeyPart
        requires { k < length (file_schema self.now).keys }
        ensures part { result ≡ key_at (file_schema self.now) k }
        ensures whole { IsKey (file_schema self.now).least result }
    {
        self.schema.part(k)
    }

    /// The value of a key of a record.
    pub fn value<'a>(&self, bytes: &'a [u8], k: u8) -> &'a [u8]
        requires key { k < length (file_schema self.now).keys }
        requires whole { (file_schema self.now).least ≤ length bytes.now }
        ensures value { result.now ≡ value_of (file_schema self.now) k bytes.now }
        ensures short { length result.now ≤ 250 }
    {
        self.schema.value(bytes, k)
    }

    /// The index of the prime key.
    pub fn prime(&self) -> &PrimeIndex
        ensures { result.now ≡ prime_index_of self.now }
    {
        &self.prime
    }

    /// How many levels its tree has.
    pub fn prime_height(&self) -> u8
        ensures { result ≡ prime_height (prime_index_of self.now) }
    {
        self.prime.height()
    }

    /// The indexes of the alternate keys, in their order.
    pub fn alternates(&self) -> &[AltIndex]
        ensures value { result.now ≡ alternates_of self.now }
        ensures fits { length result.now ≤ 8 }
    {
        self.alternates.as_slice()
    }

    /// How many alternate keys there are.
    pub fn alternate_count(&self) -> usize
        ensures value { result ≡ length (alternates_of self.now) }
        ensures fits { result ≤ 8 }
    {
        self.alternates.len()
    }

    /// The index of an alternate key, by its number: the first is 1. It is a copy.
    pub fn alternate(&self, k: usize) -> AltIndex
        requires some { 1 ≤ k }
        requires within { k ≤ length (alternates_of self.now) }
        ensures { result ≡ slice_index_or (alternates_of self.now) (k - 1) result }
    {
        self.alternates[k - 1]
    }

    /// Its heap.
    pub fn heap(&self) -> &Heap
        ensures { result.now ≡ heap_of self.now }
    {
        &self.heap
    }
}

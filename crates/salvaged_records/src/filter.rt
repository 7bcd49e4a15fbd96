//! A filter of values, which never misses one that it has met.
ghost use Rattle.std.specs.Prelude.{◌≡◌, ◌≢◌, ◌==◌, ◌&&◌, ℕ, ◌*◌, ◌<◌, ◌≤◌, true, length};
ghost use Rattle.std.specs.Int.{bit_at};
ghost use Rattle.salvaged_records.specs.Filter.{MeetsNumber, is_marked, bit_by, filter_number, number_with};

use std::alloc::{AllocError, Global};

/// The words of the filter for each page of a file, 512 bits.
const WORDS_A_PAGE: usize = 8;

/// The most words: those of so many pages as a file has at most.
const MOST_WORDS: usize = 1 << 35;

/// Values that were met, as three bits for each: where one of them is not marked, the value was not
/// met. Where all are, it may have been.
#[derive(Drop)]
pub struct ValueFilter {
    pub words: Vec<u64>,
    ghost some: { 1 ≤ length words.items },
    ghost few: { length words.items ≤ 34359738368 },
}

/// The word with bit `k`.
fn with_bit(word: u64, k: usize) -> u64
    requires { k < 64 }
    ensures here { bit_at result k ≡ 1 }
    ensures others { (j : ℕ) → j < 64 → j ≢ k → bit_at result j ≡ bit_at word j }
{
    word | (1u64 << k)
}

/// Whether a word has bit `k`.
fn has_bit(word: u64, k: usize) -> bool
    requires { k < 64 }
    ensures { result ≡ (bit_at word k == 1) }
{
    (word >> k) & 1 == 1
}

/// Marks a bit, and answers whether it was marked before.
fn mark_bit(words: &mut [u64], i: usize) -> bool
    requires { i < 64 * length words.old }
    ensures before { result ≡ is_marked words.old i }
    ensures here { is_marked words.new i ≡ true }
    ensures others { (j : ℕ) → j ≢ i → is_marked words.new j ≡ is_marked words.old j }
    ensures long { length words.new ≡ length words.old }
{
    let word = words[i / 64];
    words[i / 64] = with_bit(word, i % 64);
    has_bit(word, i % 64)
}

/// The number of a value with one byte more.
fn number_with(number: u64, byte: u8) -> u64
    ensures { result ≡ number_with number byte }
{
    number
        .wrapping_mul(1_099_511_628_211)
        .wrapping_add(u64::from(byte) + 1)
}

/// The number of a value, by which its bits are found.
fn filter_number(value: &[u8]) -> u64
    ensures { result ≡ filter_number value.now }
{
    let mut number = 14_695_981_039_346_656_037;
    for byte in value {
        number = number_with(number, *byte);
    }
    number
}

/// The bit of a number, among so many, by a factor.
fn bit_by(factor: u64, number: u64, bits: usize) -> usize
    requires { 1 ≤ bits }
    ensures value { result ≡ bit_by factor number bits }
    ensures within { result < bits }
{
    (number.wrapping_mul(factor) >> 20) as usize % bits
}

/// All of these are true.
fn all_of(first: bool, second: bool, third: bool) -> bool
    ensures { result ≡ (first && (second && third)) }
{
    first && second && third
}

/// Marks the bits of a number, and answers whether all of them were marked before.
fn meet_number(words: &mut [u64], number: u64) -> bool
    requires some { 1 ≤ length words.old }
    requires few { length words.old ≤ 34359738368 }
    ensures { MeetsNumber words.old words.new number result }
{
    let bits = 64 * words.len();
    let first = mark_bit(words, bit_by(11_400_714_819_323_198_485, number, bits));
    let second = mark_bit(words, bit_by(14_181_476_777_654_086_739, number, bits));
    let third = mark_bit(words, bit_by(9_650_029_242_287_828_579, number, bits));
    all_of(first, second, third)
}

impl ValueFilter {
    /// A filter that has met no value, for a file of so many pages.
    pub fn for_pages(alloc: Global, pages: usize) -> Result<ValueFilter, AllocError> {
        let words = pages.min(MOST_WORDS / WORDS_A_PAGE) * WORDS_A_PAGE;
        Ok(ValueFilter {
            words: vec![in alloc; 0; words.max(1)]?,
        })
    }

    /// Meets a value, and answers whether it may have been met before.
    pub fn meet(&mut self, value: &[u8]) -> bool
        ensures { MeetsNumber self.old.words.items self.new.words.items (filter_number value.now) result }
    {
        meet_number(self.words.as_mut_slice(), filter_number(value))
    }
}

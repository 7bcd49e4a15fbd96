//! Bits, in words of 64.

ghost use Rattle.std.specs.Prelude.{◌≡◌, ◌≢◌, ℕ, ◌*◌, ◌<◌, ◌≤◌, false, IsFalse, IsTrue, IfOk, length};
ghost use Rattle.std.specs.Prelude.{if◌then◌else◌};
ghost use Rattle.std.specs.Int.{bit_at};
ghost use Rattle.page_walks.specs.Bits.{bit_of};

use std::alloc::{AllocError, Global};

/// Bits by number, 64 of them in each word.
#[derive(Drop)]
pub struct Bits {
    pub words: Vec<u64>,
}

impl Bits {
    /// At least so many bits, none of them set.
    pub fn none(alloc: Global, count: usize) -> Result<Bits, AllocError>
        ensures clear { IfOk result (λ bits. (i : ℕ) → bit_of bits.words.items i ≡ false) }
        ensures many { IfOk result (λ bits. count ≤ 64 * length bits.words.items) }
    {
        Ok(Bits {
            words: vec![in alloc; 0; count.div_ceil(64)]?,
        })
    }

    /// Bit `i` is set.
    pub fn has(&self, i: usize) -> bool
        ensures { result ≡ bit_of self.now.words.items i }
    {
        match self.words.get(i / 64) {
            Some(word) => (word >> (i % 64)) & 1 == 1,
            None => false,
        }
    }

    /// Sets bit `i`, or takes it, and answers whether there is such a bit.
    pub fn put(&mut self, i: usize, to: bool) -> bool
        ensures here { IsTrue result → bit_of self.new.words.items i ≡ to }
        ensures there { IsFalse result → 64 * length self.old.words.items ≤ i }
        ensures long { length self.new.words.items ≡ length self.old.words.items }
        ensures others { (j : ℕ) → j ≢ i → bit_of self.new.words.items j ≡ bit_of self.old.words.items j }
    {
        if i / 64 >= self.words.len() {
            return false;
        }
        self.words[i / 64] = with_bit(self.words[i / 64], i % 64, to);
        true
    }

    /// No bit is set.
    pub fn are_none(&self) -> bool
        ensures { IsTrue result → (i : ℕ) → bit_of self.now.words.items i ≡ false }
    {
        self.words.iter().all(|&word| word == 0)
    }
}

/// The word with bit `k`, or without it.
fn with_bit(word: u64, k: usize, to: bool) -> u64
    requires { k < 64 }
    ensures here { bit_at result k ≡ (if to then 1 else 0) }
    ensures others { (j : ℕ) → j < 64 → j ≢ k → bit_at result j ≡ bit_at word j }
{
    let bit = 1u64 << k;
    if to { word | bit } else { word & !bit }
}

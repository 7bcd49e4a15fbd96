//! Entries of an alternate key, held in memory.

ghost use Rattle.std.specs.Prelude.{◌≡◌, ◌≤◌, ◌<◌, ◌+◌, ◌*◌, ◌/◌, length};

use crate::entries::sort_ranks;
use crate::ranked::Ranked;
use io_state::Fault;
use key_index::AltEntry;
use std::alloc::Global;

/// So many bytes has the stamp of an entry.
const STAMP_BYTES: usize = 8;

/// Entries of an alternate key, their bytes one behind another as in a leaf.
#[derive(Drop)]
pub struct HeldEntries {
    /// The length of a value, and that of a prime value, in bytes.
    pub(crate) width: usize,
    pub(crate) prime: usize,
    pub(crate) bytes: Vec<u8>,
    ghost wide: { width ≤ 250 },
    ghost narrow: { prime ≤ 250 },
    ghost whole: { length bytes.items ≡ length bytes.items / (width + 8 + prime) * (width + 8 + prime) },
}

impl HeldEntries {
    ghost use Rattle.std.specs.Prelude.{[], ◌∷◌, ◌++◌, IfOk, OnOk, IsOkUnless, None, IfSome, slice_range};
    ghost use Rattle.key_index.specs.Stored.{alt_entry_in};
    ghost use Rattle.file_building.specs.Entries.{entry_in, ranked_entries};
    ghost use Rattle.file_building.specs.Ranks.{AreUntied, is_lower, IsSortedOf};
    ghost use Rattle.file_building.specs.Held.{IsHeldFor, FitsHeld, held_entries, held_count, held_size};
    ghost use Rattle.file_building.specs.Held.{entries_up_to};

    /// None yet, for values of `width` bytes and prime values of `prime` bytes.
    pub fn new(alloc: Global, width: usize, prime: usize) -> HeldEntries
        requires wide { width ≤ 250 }
        requires narrow { prime ≤ 250 }
        ensures none { held_entries result ≡ [] }
        ensures of { IsHeldFor width prime result }
    {
        HeldEntries {
            width,
            prime,
            bytes: Vec::new(alloc),
        }
    }

    /// So many bytes has each.
    fn size(&self) -> usize
        ensures { result ≡ held_size self.now }
    {
        self.width + STAMP_BYTES + self.prime
    }

    /// How many there are.
    pub fn len(&self) -> usize
        ensures { result ≡ held_count self.now }
    {
        self.bytes.len() / self.size()
    }

    /// Puts one behind all others.
    pub fn push(&mut self, entry: &Ranked<'_>) -> Result<(), Fault>
        requires fits { FitsHeld self.old (entry_in entry.now) }
        ensures pushed { OnOk result
            (held_entries self.new ≡ held_entries self.old ++ entry_in entry.now ∷ []) }
        ensures same { IsHeldFor self.old.width self.old.prime self.new }
        ensures only_memory { IsOkUnless result Fault.Memory }
    {
        let bytes = AltEntry::bytes(entry.value, entry.stamp, entry.prime);
        if self.bytes.extend_from_slice(bytes.as_slice()).is_err() {
            return Err(Fault::Memory);
        }
        Ok(())
    }

    /// The entry of a number, counted from 0.
    fn at(&self, i: usize) -> Ranked<'_>
        requires { i < held_count self.now }
        ensures { entry_in result ≡ alt_entry_in self.now.width
            (slice_range self.now.bytes.items (i * held_size self.now) ((i + 1) * held_size self.now)) }
    {
        let size = self.size();
        Ranked::of_bytes(
            &self.bytes[i * size..(i + 1) * size],
            self.width,
            self.prime,
        )
    }

    /// All of them, in the order in which they came.
    fn ranked(&self, alloc: Global) -> Result<Vec<Ranked<'_>>, Fault>
        ensures entries { IfOk result (λ entries. ranked_entries entries.items ≡ held_entries self.now) }
        ensures only_memory { IsOkUnless result Fault.Memory }
    {
        let count = self.len();
        let mut entries = Vec::new(alloc);
        for i in 0..count {
            if entries.push(self.at(i)).is_err() {
                return Err(Fault::Memory);
            }
        }
        Ok(entries)
    }

    /// All of them, in the order of their ranks. None where two have one rank.
    pub fn sorted(&self, alloc: Global) -> Result<Option<Vec<Ranked<'_>>>, Fault>
        ensures sorted { IfOk result (λ found. IfSome found (λ sorted.
            IsSortedOf (held_entries self.now) (ranked_entries sorted.items))) }
        ensures tied { IfOk result (λ found. found ≡ None → AreUntied is_lower (held_entries self.now) → ⊥) }
        ensures only_memory { IsOkUnless result Fault.Memory }
    {
        let mut entries = self.ranked(alloc)?;
        if sort_ranks(&mut entries) {
            Ok(Some(entries))
        } else {
            Ok(None)
        }
    }

    /// Those that are of no higher rank than this one, in their order.
    pub fn up_to(&self, alloc: Global, top: &Ranked<'_>) -> Result<HeldEntries, Fault>
        ensures entries { IfOk result (λ held.
            held_entries held ≡ entries_up_to (entry_in top.now) (held_entries self.now)) }
        ensures same { IfOk result (IsHeldFor self.now.width self.now.prime) }
        ensures only_memory { IsOkUnless result Fault.Memory }
    {
        let count = self.len();
        let mut held = HeldEntries::new(alloc, self.width, self.prime);
        for i in 0..count {
            let entry = self.at(i);
            if !top.is_lower(&entry) {
                held.push(&entry)?;
            }
        }
        Ok(held)
    }
}

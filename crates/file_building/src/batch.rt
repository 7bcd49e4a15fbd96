//! The entries of an alternate key that are of the least ranks above one.

ghost use Rattle.std.specs.Prelude.{◌≡◌, ◌≤◌};

use crate::held_entries::HeldEntries;
use crate::ranked::Ranked;
use io_state::Fault;
use key_index::AltEntry;
use std::alloc::Global;

/// Those of the entries that came one after another which are of a higher rank than one. Where they are
/// too many, those of the least ranks are held, and where the others begin is told by the top.
#[derive(Drop)]
pub struct Batch {
    pub(crate) above: AltEntry,
    /// The greatest rank that is held, where entries of greater ones came.
    pub(crate) top: Option<AltEntry>,
    pub(crate) held: HeldEntries,
    /// So many are held at least, where as many came, and never twice as many.
    pub(crate) most: usize,
    ghost some: { 1 ≤ most },
}

/// Entries up to one, and this one.
#[derive(Drop)]
pub struct LowerPart {
    pub(crate) top: AltEntry,
    pub(crate) held: HeldEntries,
}

impl Batch {
    ghost use Rattle.std.specs.Prelude.{IfOk, IsOkUnless};
    ghost use Rattle.file_building.specs.Entries.{entry_in};
    ghost use Rattle.file_building.specs.Held.{FitsHeld, held_count};
    ghost use Rattle.file_building.specs.Within.{is_below_top, is_between};
    ghost use Rattle.file_building.specs.Batches.{BeginsBatch, OffersEntry, CutsBatch, EndsLowerPart};

    /// None yet, of those that are of a higher rank than `above`.
    pub fn new(alloc: Global, above: AltEntry, width: usize, prime: usize, most: usize) -> Batch
        requires wide { width ≤ 250 }
        requires narrow { prime ≤ 250 }
        requires some { 1 ≤ most }
        ensures { BeginsBatch above width prime result }
    {
        Batch {
            above,
            top: None,
            held: HeldEntries::new(alloc, width, prime),
            most,
        }
    }

    /// Takes the next entry. False where two entries have one rank.
    ///
    /// Memory. After it nothing is known of the entries.
    pub fn offer(&mut self, alloc: Global, entry: &Ranked<'_>) -> Result<bool, Fault>
        requires fits { FitsHeld self.old.held (entry_in entry.now) }
        ensures offers { OffersEntry self.old self.new (entry_in entry.now) result }
        ensures only_memory { IsOkUnless result Fault.Memory }
    {
        if !self.takes(entry) {
            return Ok(true);
        }
        self.held.push(entry)?;
        if self.held.len() / 2 < self.most {
            return Ok(true);
        }
        self.cut(alloc)
    }

    /// An entry is of a rank that is held.
    fn takes(&self, entry: &Ranked<'_>) -> bool
        ensures { result ≡ is_between self.now.above self.now.top (entry_in entry.now) }
    {
        Ranked::of_entry(&self.above).is_lower(entry) && self.is_below_top(entry)
    }

    /// An entry is of no higher rank than the top.
    fn is_below_top(&self, entry: &Ranked<'_>) -> bool
        ensures { result ≡ is_below_top self.now.top (entry_in entry.now) }
    {
        match &self.top {
            Some(top) => !Ranked::of_entry(top).is_lower(entry),
            None => true,
        }
    }

    /// Gives up the entries of the greatest ranks. False where two have one rank.
    fn cut(&mut self, alloc: Global) -> Result<bool, Fault>
        requires many { self.old.most ≤ held_count self.old.held }
        ensures cuts { CutsBatch self.old self.new result }
        ensures only_memory { IsOkUnless result Fault.Memory }
    {
        match self.lower_part(alloc)? {
            Some(part) => {
                let LowerPart { top, held } = part;
                self.top = Some(top);
                self.held = held;
                Ok(true)
            }
            None => Ok(false),
        }
    }

    /// The entries of the least ranks, so many as are to be held. None where two have one rank.
    fn lower_part(&self, alloc: Global) -> Result<Option<LowerPart>, Fault>
        requires many { self.now.most ≤ held_count self.now.held }
        ensures parts { IfOk result (EndsLowerPart self.now.held) }
        ensures only_memory { IsOkUnless result Fault.Memory }
    {
        let Some(sorted) = self.held.sorted(alloc)? else {
            return Ok(None);
        };
        let entries = sorted.as_slice();
        let last = self.most - 1;
        let least = entries[last];
        let held = self.held.up_to(alloc, &least)?;
        let mut top = AltEntry::blank();
        top.set(least.value, least.stamp, least.prime);
        Ok(Some(LowerPart { top, held }))
    }
}

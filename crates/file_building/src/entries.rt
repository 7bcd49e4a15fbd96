//! The entries of an alternate key.

ghost use Rattle.std.specs.Prelude.{◌≡◌, ◌<◌, ◌↔◌, length, IfOk, IsOkUnless, IsTrue};
ghost use Rattle.file_building.specs.Entries.{ranked_entries, entries_of_fronts};
ghost use Rattle.file_building.specs.Ranks.{RanksRise, SortsRanks};

use crate::ranked::Ranked;
use io_state::Fault;
use record_layout::Schema;
use std::alloc::Global;

/// The entry that key `k` has of each record, in the order of the records, by their fronts.
pub fn entries_of<'a>(
    alloc: Global,
    schema: &Schema,
    k: u8,
    fronts: &'a [u8],
) -> Result<Vec<Ranked<'a>>, Fault>
    requires { k < length schema.now.keys }
    ensures entries { IfOk result (λ entries.
        ranked_entries entries.items ≡ entries_of_fronts schema.now k fronts.now) }
    ensures only_memory { IsOkUnless result Fault.Memory }
{
    let least = usize::from(schema.least());
    let count = fronts.len() / least;
    let mut entries = Vec::new(alloc);
    for i in 0..count {
        let front = &fronts[i * least..(i + 1) * least];
        let entry = Ranked::of_record(schema, k, front, i as u64 + 1);
        if entries.push(entry).is_err() {
            return Err(Fault::Memory);
        }
    }
    Ok(entries)
}

/// Each entry is of a lower rank than the next, and so than all behind it.
pub fn rise(entries: &[Ranked<'_>]) -> bool
    ensures { IsTrue result ↔ RanksRise (ranked_entries entries.now) }
{
    for i in 1..entries.len() {
        if !entries[i - 1].is_lower(&entries[i]) {
            return false;
        }
    }
    true
}

/// Puts entries in the order of their ranks. False where two have one rank.
pub fn sort_ranks(entries: &mut Vec<Ranked<'_>>) -> bool
    ensures { SortsRanks (ranked_entries entries.old.items) (ranked_entries entries.new.items) result }
{
    entries.sort_unstable();
    rise(entries.as_slice())
}

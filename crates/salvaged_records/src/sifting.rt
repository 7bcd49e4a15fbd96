//! The values that may come twice, sifted out of those of all slots.
ghost use Rattle.std.specs.Prelude.{◌≡◌, ◌≤◌, ◌^◌, length, IfOk};
ghost use Rattle.pages.specs.Source.{KeepsItsPages, OfItsPages};
ghost use Rattle.salvaged_records.specs.Doubt.{prime_values};
ghost use Rattle.salvaged_records.specs.Sifting.{HasCandidates};
ghost use Rattle.salvaged_records.specs.Slots.{used_slots_in};

use crate::filter::ValueFilter;
use crate::used_slot::UsedSlot;
use crate::values::{ValuesInOrder, add_value, no_values};
use crate::visiting::{TakesSlots, visit_all};
use pages::PageSource;
use record_heap::SlotShape;
use record_layout::KeyPart;
use std::alloc::{AllocError, Global};

/// The values of a part of the records in slots that were met, and those of them that may have come
/// twice.
#[derive(Drop)]
pub struct Sifting {
    alloc: Global,
    pub prime: KeyPart,
    pub filter: ValueFilter,
    pub candidates: ValuesInOrder,
}

impl TakesSlots for Sifting {
    ghost use Rattle.salvaged_records.specs.Sifting.{SiftsSlots};
    ghost use Rattle.salvaged_records.specs.TakingLaws.{sifts_none, sifts_on};

    ghost takes = { λ old new slots. SiftsSlots old new slots };

    fn take(&mut self, slot: &UsedSlot<'_>) -> Result<(), AllocError> {
        let value = self.prime.of(slot.bytes);
        if self.filter.meet(value) {
            return add_value(self.alloc, &mut self.candidates, value);
        }
        Ok(())
    }

    ghost takes_none = { λ a. sifts_none a };

    ghost takes_on = { λ a b c first more ab bc. sifts_on a b c first more ab bc };
}

/// The values of a part of the records in all slots that may come twice: each that does, and few that
/// do not. There are so many pages, or about so many.
pub fn candidates_of<P: PageSource>(
    alloc: Global,
    pages: &mut P,
    count: usize,
    shape: SlotShape,
    prime: KeyPart,
) -> Result<ValuesInOrder, AllocError>
    requires few { OfItsPages P.has pages.old (λ list. length list ≤ 2 ^ 32) }
    ensures found { OfItsPages P.has pages.new
        (λ list. IfOk result (λ set. HasCandidates set (prime_values prime (used_slots_in shape list)))) }
    ensures before { KeepsItsPages P.has pages.old pages.new }
{
    let mut sifting = Sifting {
        alloc,
        prime,
        filter: ValueFilter::for_pages(alloc, count)?,
        candidates: no_values(alloc),
    };
    visit_all(pages, shape, &mut sifting)?;
    let Sifting {
        alloc: _,
        prime: _,
        filter: _,
        candidates,
    } = sifting;
    Ok(candidates)
}

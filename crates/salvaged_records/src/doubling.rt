//! The values that several of the slots have that are picked out.
ghost use Rattle.std.specs.Prelude.{◌≡◌, ◌≤◌, ◌^◌, length, IfOk};
ghost use Rattle.pages.specs.Source.{KeepsItsPages, OfItsPages};
ghost use Rattle.salvaged_records.specs.Picking.{picked_values};
ghost use Rattle.salvaged_records.specs.Slots.{used_slots_in};
ghost use Rattle.salvaged_records.specs.Values.{HasDoubles};

use crate::noting::Noting;
use crate::picking::Picks;
use crate::values::{ValuesInOrder, no_values};
use crate::visiting::visit_all;
use pages::PageSource;
use record_heap::SlotShape;
use record_layout::KeyPart;
use std::alloc::{AllocError, Global};

/// The values of a part of the records that several of the slots have that are picked out.
pub fn doubled_of<P: PageSource>(
    alloc: Global,
    pages: &mut P,
    shape: SlotShape,
    prime: KeyPart,
    picks: Picks<'_>,
) -> Result<ValuesInOrder, AllocError>
    requires short { prime.length ≤ 250 }
    requires few { OfItsPages P.has pages.old (λ list. length list ≤ 2 ^ 32) }
    ensures doubled { OfItsPages P.has pages.new
        (λ list. IfOk result (λ set. HasDoubles set (picked_values picks.entry prime (used_slots_in shape list)))) }
    ensures before { KeepsItsPages P.has pages.old pages.new }
{
    let mut noting = Noting {
        alloc,
        prime,
        picks,
        seen: no_values(alloc),
        twice: no_values(alloc),
    };
    visit_all(pages, shape, &mut noting)?;
    let Noting {
        alloc: _,
        prime: _,
        picks: _,
        seen: _,
        twice,
    } = noting;
    Ok(twice)
}

//! What tells slots in use apart.
ghost use Rattle.std.specs.Prelude.{◌≡◌, ◌≤◌, ◌^◌, length, IfOk, [], ℕ, List};
ghost use Rattle.pages.specs.Source.{KeepsItsPages, OfItsPages};
ghost use Rattle.salvaged_records.specs.Doubt.{prime_values};
ghost use Rattle.salvaged_records.specs.Leaves.{leaf_entries_in};
ghost use Rattle.salvaged_records.specs.Slots.{found_slot, used_slots_in};
ghost use Rattle.salvaged_records.specs.Values.{HasDoubles, is_in_set};
ghost use Rattle.salvaged_records.specs.Telling.{TellApart, is_kept_by, is_told_by};

use crate::doubling::doubled_of;
use crate::doubts::Doubts;
use crate::leaves::leaf_entries;
use crate::picking::{Picks, is_led_to};
use crate::sifting::candidates_of;
use crate::used_slot::UsedSlot;
use crate::values::{ValuesInOrder, has_value, no_values};
use pages::PageSource;
use record_heap::SlotShape;
use record_layout::KeyPart;
use std::alloc::{AllocError, Global};
use tree_node::NodeShape;

/// The values that several slots have.
fn doubled_values<P: PageSource>(
    alloc: Global,
    pages: &mut P,
    count: usize,
    shape: SlotShape,
    prime: KeyPart,
) -> Result<ValuesInOrder, AllocError>
    requires short { prime.length ≤ 250 }
    requires few { OfItsPages P.has pages.old (λ list. length list ≤ 2 ^ 32) }
    ensures doubled { OfItsPages P.has pages.new
        (λ list. IfOk result (λ set. HasDoubles set (prime_values prime (used_slots_in shape list)))) }
    ensures before { KeepsItsPages P.has pages.old pages.new }
{
    let candidates = candidates_of(alloc, pages, count, shape, prime)?;
    if candidates.is_empty() {
        return Ok(candidates);
    }
    doubled_of(alloc, pages, shape, prime, Picks::Values(&candidates))
}

/// What tells slots apart whose value several have, by the entries in all leaves.
fn doubts_by_entries<P: PageSource>(
    alloc: Global,
    pages: &mut P,
    shape: SlotShape,
    prime: KeyPart,
    nodes: NodeShape,
    doubled: ValuesInOrder,
) -> Result<Doubts, AllocError>
    requires short { prime.length ≤ 250 }
    requires few { OfItsPages P.has pages.old (λ list. length list ≤ 2 ^ 32) }
    requires doubled { OfItsPages P.has pages.old
        (λ list. HasDoubles doubled (prime_values prime (used_slots_in shape list))) }
    ensures apart { OfItsPages P.has pages.new
        (λ list. IfOk result (TellApart prime (leaf_entries_in nodes list) (used_slots_in shape list))) }
    ensures before { KeepsItsPages P.has pages.old pages.new }
{
    let entries = leaf_entries(alloc, pages, nodes, &doubled)?;
    let led_twice = doubled_of(alloc, pages, shape, prime, Picks::Led(&entries))?;
    Ok(Doubts {
        prime,
        doubled,
        entries,
        led_twice,
    })
}

/// What tells slots apart, of all pages. Where no two have one value the entries are not looked at.
/// There are so many pages, or about so many.
pub fn doubts_of<P: PageSource>(
    alloc: Global,
    pages: &mut P,
    count: usize,
    shape: SlotShape,
    prime: KeyPart,
    nodes: NodeShape,
) -> Result<Doubts, AllocError>
    requires short { prime.length ≤ 250 }
    requires few { OfItsPages P.has pages.old (λ list. length list ≤ 2 ^ 32) }
    ensures apart { OfItsPages P.has pages.new
        (λ list. IfOk result (TellApart prime (leaf_entries_in nodes list) (used_slots_in shape list))) }
    ensures before { KeepsItsPages P.has pages.old pages.new }
{
    let doubled = doubled_values(alloc, pages, count, shape, prime)?;
    if doubled.is_empty() {
        return Ok(Doubts {
            prime,
            doubled,
            entries: no_values(alloc),
            led_twice: no_values(alloc),
        });
    }
    doubts_by_entries(alloc, pages, shape, prime, nodes, doubled)
}

/// Whether other slots have the value of this one.
pub fn is_told(doubts: &Doubts, slot: &UsedSlot<'_>) -> bool
    ensures { result ≡ is_told_by doubts.now (found_slot slot.now) }
{
    has_value(&doubts.doubled, doubts.prime.of(slot.bytes))
}

/// Whether a slot is kept.
pub fn is_slot_kept(doubts: &Doubts, slot: &UsedSlot<'_>) -> bool
    ensures { result ≡ is_kept_by doubts.now (found_slot slot.now) }
{
    if !is_told(doubts, slot) {
        return true;
    }
    is_led_to(&doubts.entries, doubts.prime, slot)
        && !has_value(&doubts.led_twice, doubts.prime.of(slot.bytes))
}

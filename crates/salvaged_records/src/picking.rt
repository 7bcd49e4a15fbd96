//! Slots that are picked out.
ghost use Rattle.std.specs.Prelude.{◌≡◌, ◌≤◌};
ghost use Rattle.salvaged_records.specs.Doubt.{entry_leading_to};
ghost use Rattle.salvaged_records.specs.Picking.{is_picked};
ghost use Rattle.salvaged_records.specs.Slots.{found_slot};
ghost use Rattle.salvaged_records.specs.Telling.{is_led_by};

use crate::used_slot::UsedSlot;
use crate::values::{ValuesInOrder, has_value};
use key_index::PrimeEntry;
use record_heap::Place;
use record_layout::KeyPart;
use tree_node::Entry;

/// By what slots are picked out: their value is one of these, or one of these entries leads to them.
#[derive(Clone, Copy)]
pub enum Picks<'a> {
    Values(&'a ValuesInOrder),
    Led(&'a ValuesInOrder),
}

/// The entry of the prime key that leads to a slot in the page of this number.
fn entry_leading_to(prime: KeyPart, page: u32, slot: &UsedSlot<'_>) -> Entry
    requires short { prime.length ≤ 250 }
    requires page { page ≡ slot.now.page }
    ensures { result.items ≡ entry_leading_to prime (found_slot slot.now) }
{
    let place = Place {
        page,
        slot: slot.slot,
    };
    PrimeEntry::bytes(prime.of(slot.bytes), place)
}

/// Whether one of the entries leads to a slot.
pub fn is_led_to(entries: &ValuesInOrder, prime: KeyPart, slot: &UsedSlot<'_>) -> bool
    requires short { prime.length ≤ 250 }
    ensures { result ≡ is_led_by prime entries.now (found_slot slot.now) }
{
    match u32::try_from(slot.page) {
        Ok(page) => has_value(entries, entry_leading_to(prime, page, slot).as_slice()),
        Err(_) => false,
    }
}

/// Whether a slot is picked out.
pub fn is_picked(picks: &Picks<'_>, prime: KeyPart, slot: &UsedSlot<'_>) -> bool
    requires short { prime.length ≤ 250 }
    ensures { result ≡ is_picked picks.now prime (found_slot slot.now) }
{
    match picks {
        Picks::Values(values) => has_value(values, prime.of(slot.bytes)),
        Picks::Led(entries) => is_led_to(entries, prime, slot),
    }
}

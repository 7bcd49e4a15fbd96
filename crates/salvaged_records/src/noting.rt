//! The values that slots have that are picked out.
ghost use Rattle.std.specs.Prelude.{◌≤◌};

use crate::picking::{Picks, is_picked};
use crate::used_slot::UsedSlot;
use crate::values::{ValuesInOrder, note};
use crate::visiting::TakesSlots;
use record_layout::KeyPart;
use std::alloc::{AllocError, Global};

/// The values of a part of the records in slots that are picked out, and those that came twice.
#[derive(Drop)]
pub struct Noting<'a> {
    pub alloc: Global,
    pub prime: KeyPart,
    pub picks: Picks<'a>,
    pub seen: ValuesInOrder,
    pub twice: ValuesInOrder,
    ghost short: { prime.length ≤ 250 },
}

impl<'a> TakesSlots for Noting<'a> {
    ghost use Rattle.salvaged_records.specs.Picking.{NotesSlots};
    ghost use Rattle.salvaged_records.specs.TakingLaws.{notes_none, notes_on};

    ghost takes = { λ old new slots. NotesSlots old new slots };

    fn take(&mut self, slot: &UsedSlot<'_>) -> Result<(), AllocError> {
        if is_picked(&self.picks, self.prime, slot) {
            let value = self.prime.of(slot.bytes);
            return note(self.alloc, &mut self.seen, &mut self.twice, value);
        }
        Ok(())
    }

    ghost takes_none = { λ a. notes_none a };

    ghost takes_on = { λ a b c first more ab bc. notes_on a b c first more ab bc };
}

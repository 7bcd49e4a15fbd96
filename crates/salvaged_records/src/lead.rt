//! What stands before the line of a record.
ghost use Rattle.std.specs.Prelude.{◌≡◌, ◌≤◌, ◌+◌, ◌++◌, length, decimal};
ghost use Rattle.salvaged_records.specs.Slots.{found_slot};
ghost use Rattle.salvaged_records.specs.Leads.{lead_header, lead_text_of, place_between};

use crate::used_slot::UsedSlot;
use arrayvec::ArrayVec;
use itoa::Buffer;
use record_text::Form;

/// What stands before the line of a record.
#[derive(Clone, Copy, Debug, PartialEq, Eq)]
pub enum Lead {
    /// Nothing.
    Bare,
    /// The page and the slot of the record, with a space behind each; in CSV with a comma.
    Place,
    /// The words that tell of a slot in doubt, with its page and its number.
    Doubt,
}

/// A text that stands before a line.
pub type LeadText = ArrayVec<u8, 128>;

/// Adds a number, and what stands behind it.
fn add_number(text: &mut LeadText, n: usize, behind: &[u8])
    requires room { length text.old.items + (40 + length behind.now) ≤ 128 }
    ensures added { text.new.items ≡ text.old.items ++ (decimal n ++ behind.now) }
    ensures few { length text.new.items ≤ length text.old.items + (40 + length behind.now) }
{
    let mut buffer = Buffer::new();
    let _ = text.try_extend_from_slice(buffer.format(n).as_bytes());
    let _ = text.try_extend_from_slice(behind);
}

/// The page and the number of a slot, between texts.
fn place_between(slot: &UsedSlot<'_>, before: &[u8], between: &[u8], behind: &[u8]) -> LeadText
    requires before { length before.now ≤ 8 }
    requires between { length between.now ≤ 8 }
    requires behind { length behind.now ≤ 8 }
    ensures { result.items ≡ place_between before.now between.now behind.now (found_slot slot.now) }
{
    let mut text = LeadText::new();
    let _ = text.try_extend_from_slice(before);
    add_number(&mut text, slot.page, between);
    add_number(&mut text, usize::from(slot.slot), behind);
    text
}

/// What stands before the line of the record in a slot.
pub fn lead_text_of(lead: Lead, form: &Form, slot: &UsedSlot<'_>) -> LeadText
    ensures { result.items ≡ lead_text_of lead form.now (found_slot slot.now) }
{
    match lead {
        Lead::Bare => LeadText::new(),
        Lead::Place => match form {
            Form::Csv(_) => place_between(slot, b"", b",", b","),
            Form::Text | Form::Json(_) => place_between(slot, b"", b" ", b" "),
        },
        Lead::Doubt => place_between(slot, b"page ", b" slot ", b": "),
    }
}

/// What stands before the line of the names of columns.
pub fn lead_header(lead: Lead, form: &Form) -> &'static [u8]
    ensures { result.now ≡ lead_header lead form.now }
{
    match (lead, form) {
        (Lead::Place, Form::Csv(_)) => b"\"page\",\"slot\",",
        _ => b"",
    }
}

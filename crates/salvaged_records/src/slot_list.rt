//! Which slots are written, and how.

use crate::doubts::Doubts;
use crate::lead::Lead;
use record_text::Form;

/// Slots that are written: those that are kept, or those that are told.
#[derive(Clone, Copy, Debug, PartialEq, Eq)]
pub enum SlotKind {
    Kept,
    Told,
}

/// Which slots are written, by what tells them apart, and how.
#[derive(Clone, Copy)]
pub struct SlotList<'a> {
    pub kind: SlotKind,
    pub doubts: &'a Doubts,
    pub form: &'a Form,
    pub lead: Lead,
}

//! Columns that are a whole record.
ghost use Rattle.record_text.specs.Whole.{AreItemsWhole};

/// The columns of the elementary items of a record stand one behind the other, from its first byte
/// to its last.
pub fn items_are_whole()
    ensures { AreItemsWhole }
{}

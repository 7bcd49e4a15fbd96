//! What is true of the slots that are kept.
ghost use Rattle.salvaged_records.specs.Doubt.{EachValueOnce};

/// No prime value is kept twice.
pub fn each_value_once()
    ensures { EachValueOnce }
{}

//! Values in their order, and those of them that come twice.
ghost use Rattle.std.specs.Prelude.{◌≡◌, [], OnOk};
ghost use Rattle.salvaged_records.specs.Values.{AddsValue, HasDoubles, HasValues, NotesValue, is_in_set};

use std::alloc::{AllocError, Global};
use std::collections::BTreeSet;

/// Values, in their order.
pub type ValuesInOrder = BTreeSet<Vec<u8>>;

/// No values.
pub fn no_values(alloc: Global) -> ValuesInOrder
    ensures values { HasValues result [] }
    ensures doubles { HasDoubles result [] }
{
    BTreeSet::new(alloc)
}

/// Adds a value.
pub fn add_value(alloc: Global, values: &mut ValuesInOrder, value: &[u8]) -> Result<(), AllocError>
    ensures { OnOk result (AddsValue values.old values.new value.now) }
{
    let owned = Vec::from_slice(alloc, value)?;
    match values.insert(owned) {
        Ok(_) => Ok(()),
        Err(_) => Err(AllocError),
    }
}

/// Whether a value is one of these.
pub fn has_value(values: &ValuesInOrder, value: &[u8]) -> bool
    ensures { result ≡ is_in_set values.now value.now }
{
    values.contains(value)
}

/// Notes one more value: as one that came, or, where it came before, as one that came twice.
pub fn note(
    alloc: Global,
    seen: &mut ValuesInOrder,
    twice: &mut ValuesInOrder,
    value: &[u8],
) -> Result<(), AllocError>
    ensures { OnOk result (NotesValue value.now seen.old seen.new twice.old twice.new) }
{
    if has_value(seen, value) {
        return add_value(alloc, twice, value);
    }
    add_value(alloc, seen, value)
}

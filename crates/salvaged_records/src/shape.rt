//! What the slots of a file have in common.
ghost use Rattle.salvaged_records.specs.Shapes.{IsShapeOf};

use record_heap::SlotShape;
use record_layout::Schema;

/// What the slots of a file of this schema have in common: each has a stamp for each alternate key
/// that may have duplicates.
pub fn shape_of(schema: &Schema) -> SlotShape
    ensures { IsShapeOf schema.now result }
{
    let least = schema.least();
    let stamped = schema
        .keys()
        .iter()
        .filter(|part| part.has_duplicates())
        .count();
    SlotShape {
        stamps: 8 * stamped as u16,
        least,
        greatest: schema.greatest(),
    }
}

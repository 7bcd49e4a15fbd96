//! Where an index and the records do not agree.

ghost use Rattle.std.specs.Prelude.{◌≡◌};

use page_walks::LeafSpot;
use pages::{Damage, FaultPlace, WalkFault};
use record_heap::Place;

/// The entry that stands there is that of no row.
pub fn entry_of_no_row(spot: LeafSpot) -> WalkFault
    ensures { result ≡ WalkFault.At Damage.Index (FaultPlace.Entry spot.page spot.place) }
{
    WalkFault::At(
        Damage::Index,
        FaultPlace::Entry {
            page: spot.page,
            entry: u32::from(spot.place),
        },
    )
}

/// The slot is in use, and has no entry.
pub fn slot_without_entry(place: Place) -> WalkFault
    ensures { result ≡ WalkFault.At Damage.Index (FaultPlace.Entry place.page place.slot) }
{
    WalkFault::At(
        Damage::Index,
        FaultPlace::Entry {
            page: place.page,
            entry: u32::from(place.slot),
        },
    )
}

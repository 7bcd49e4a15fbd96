//! Files of bytes on a device that may fail and that a crash may stop, their pages of 4,096 bytes,
//! and the gate.
//!
//! A `Shelf` has a file for each name: what reads give, and the log of what was asked of it. What a
//! crash may leave of a file, now and at each moment of a call, follows from its log. `GrowingShelf`
//! adds units one by one, and lets the file of a unit go. `Store` reads and writes pages: a page read
//! is the page last written, and only the gate protocol writes byte 0, so that a crash leaves the old
//! file, the new one, or one that is refused.
//!
//! What lies in the pages is the business of the layers above. Read `specs/DeviceFile.antt` and
//! `specs/Images.antt` first, then `Shelf`, then `Store`.
#![tactic(auto)]

mod gate;
mod growing_shelf;
mod page_facts;
mod quiet;
mod shelf;
mod store;

pub use growing_shelf::GrowingShelf;
pub use page_facts::page_laws;
pub use quiet::quiet_laws;
pub use shelf::Shelf;
pub use store::{PAGE, Store};

//! How a load over the files of a shelf ends.
ghost use Rattle.std.specs.Prelude.{◌≡◌};
ghost use Rattle.record_loading.specs.Loaded.{load_end_of, fault_by, is_compared};

use crate::end::{LoadEnd, LoadFault};
use io_state::{Fault, Status};
use thiserror::Error;

/// What became of a load.
#[derive(Clone, Copy, Debug, PartialEq, Eq)]
pub enum ShelfEnd {
    /// A new file was wanted, and the name has one, sound or not. Nothing was written.
    IsThere,
    /// Records were loaded, or OPEN was no success, as this says.
    Loaded(LoadEnd),
}

/// Why nothing was loaded.
#[derive(Clone, Copy, Debug, PartialEq, Eq, Error)]
pub enum ShelfFault {
    #[error("the folder cannot be read")]
    Input,
    #[error("out of memory")]
    Memory,
}

/// What became of a load over a library.
pub fn end_of(end: Result<LoadEnd, LoadFault>) -> Result<ShelfEnd, ShelfFault>
    ensures { result ≡ load_end_of end }
{
    match end {
        Ok(end) => Ok(ShelfEnd::Loaded(end)),
        Err(LoadFault::Memory) => Err(ShelfFault::Memory),
    }
}

/// What a fault of the shelf makes of a load. Where a shelf is asked whether a file is there, it
/// answers no other than the first two.
pub fn fault_by(fault: Fault) -> ShelfFault
    ensures { result ≡ fault_by fault }
{
    match fault {
        Fault::Memory => ShelfFault::Memory,
        Fault::Device | Fault::Full | Fault::Damage | Fault::Broken => ShelfFault::Input,
    }
}

/// Whether the schema of the file is to be held against that of the load: OPEN answered 39, or a new
/// file was wanted and the name has one.
pub fn is_compared(end: ShelfEnd) -> bool
    ensures { result ≡ is_compared end }
{
    match end {
        ShelfEnd::IsThere => true,
        ShelfEnd::Loaded(LoadEnd::NotOpened { status }) => {
            matches!(status, Status::AttributeConflict)
        }
        ShelfEnd::Loaded(LoadEnd::Opened { .. }) => false,
    }
}

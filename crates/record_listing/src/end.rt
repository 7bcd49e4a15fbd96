//! How a list ends.
ghost use Rattle.std.specs.Prelude.{◌≡◌};
ghost use Rattle.record_listing.specs.Listing.{end_by};

use io_state::Fault;
use thiserror::Error;

/// What became of a list.
#[derive(Clone, Copy, Debug, PartialEq, Eq)]
pub enum ListEnd {
    /// The lines were written.
    Listed,
    /// There is no file of the name.
    Absent,
    /// The first page of the file is refused.
    Unsound,
    /// The file does not have the key.
    NoKey,
    /// A page that was read is not what its place requires. Some lines may have been written.
    Damaged,
}

/// Why a list ended before its end. The first lines may have been written, the last of them in part
/// where the writer failed.
#[derive(Clone, Copy, Debug, PartialEq, Eq, Error)]
pub enum ListFault {
    #[error("the file cannot be read")]
    Input,
    #[error("the lines cannot be written")]
    Output,
    #[error("out of memory")]
    Memory,
}

/// What a fault of the library makes of a list. No call that reads answers `Full`, and none
/// `Broken` of a file that was just opened.
pub fn end_by(fault: Fault) -> Result<ListEnd, ListFault>
    ensures { result ≡ end_by fault }
{
    match fault {
        Fault::Damage => Ok(ListEnd::Damaged),
        Fault::Memory => Err(ListFault::Memory),
        Fault::Device | Fault::Full | Fault::Broken => Err(ListFault::Input),
    }
}

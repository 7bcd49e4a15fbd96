//! How the building of a new file ended.

use io_state::Fault;

/// What became of records of which a new file was to be made.
#[derive(Clone, Copy, Debug, PartialEq, Eq)]
pub enum FileBuilt {
    /// The file has them all, so many, and is closed.
    Closed { records: u64 },
    /// The file has them all, so many, and its closing failed, as this fault tells: it is refused, or
    /// closed.
    Unclosed { records: u64, fault: Fault },
    /// The prime value of the last one does not come after that of the one before it. The file is
    /// refused.
    OutOfOrder,
    /// One of them has the value of another in an alternate key that is to be unique. The file is
    /// refused.
    Clash,
}

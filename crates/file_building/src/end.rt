//! How a copy ended, for who asked for it.

use crate::fault::Copied;

/// What became of a copy.
#[derive(Clone, Copy, Debug, PartialEq, Eq)]
pub enum CopyEnd {
    /// The new file is whole, closed and on the disk.
    Whole(Copied),
    /// The first page of the file is refused, or the file is shorter than that page tells. Nothing was
    /// written.
    Refused,
    /// The file has no key of the number that was asked for. Nothing was written.
    NoKey,
    /// An entry or a record of the file is not what its place requires. What is there of the new file is
    /// refused.
    Damaged,
    /// The new file is there already. Nothing was written.
    IsThere,
    /// The new file needs more pages than it may have, and what is there of it is refused.
    Full,
}

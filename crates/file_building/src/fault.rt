//! How a copy ended, and why one gave up.

use io_state::Fault;
use thiserror::Error;

/// What a file has that was copied: so many records, in so many pages.
#[derive(Clone, Copy, Debug, PartialEq, Eq)]
pub struct Copied {
    pub records: u64,
    pub pages: u32,
}

/// Why a file was not copied.
#[derive(Clone, Copy, Debug, PartialEq, Eq, Error)]
pub enum CopyingFault {
    /// There is no file to be copied. Nothing was written.
    #[error("there is no file to be copied")]
    NoneToCopy,
    /// The first page of the file is refused, or it is shorter than that page tells. Nothing was
    /// written.
    #[error("the file that is to be copied is refused")]
    NotAccepted,
    /// The file has no key of this number. Nothing was written.
    #[error("the file that is to be copied has no such key")]
    NoKey,
    /// The new file is there already. Nothing was written.
    #[error("the new file is there already")]
    IsThere,
    /// The file that is copied was not read.
    #[error("the file that is copied: {0}")]
    Reading(Fault),
    /// The new file was not written.
    #[error("the new file: {0}")]
    Writing(Fault),
}

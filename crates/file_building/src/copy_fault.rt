//! Why a copy gave up.

use io_state::Fault;
use thiserror::Error;

/// Why a copy of a file gave up.
#[derive(Clone, Copy, Debug, PartialEq, Eq, Error)]
pub enum CopyFault {
    /// The file that is copied was not read.
    #[error("the file that is copied: {0}")]
    Reading(Fault),
    /// The new file was not written.
    #[error("the new file: {0}")]
    Writing(Fault),
}

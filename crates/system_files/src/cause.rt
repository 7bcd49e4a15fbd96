//! Why a call on a file failed, in plain words.

use std::io::{self, ErrorKind};
use thiserror::Error;

/// Why a file, or the folder that holds it, did not do what was asked.
#[derive(Clone, Copy, Debug, PartialEq, Eq, Error)]
pub enum Cause {
    #[error("another run has it")]
    InUse,
    #[error("another run changed it")]
    Changed,
    #[error("is no longer the file of this name")]
    Replaced,
    #[error("is no file")]
    NoFile,
    #[error("is a link")]
    Link,
    #[error("the folder cannot be read")]
    Folder,
    #[error("no space left on device")]
    NoSpace,
    #[error("permission denied")]
    Permission,
    #[error("read-only file system")]
    ReadOnly,
    #[error("too many open files")]
    TooManyFiles,
    #[error("input/output error")]
    Device,
    #[error("{0}")]
    Other(ErrorKind),
}

// The numbers of errors that have no kind of their own: of the system, of the process, of the device.
const TOO_MANY_IN_ALL: i32 = 23;

const TOO_MANY_HERE: i32 = 24;

const INPUT_OUTPUT: i32 = 5;

impl Cause {
    /// The cause that an error of the system is.
    pub(crate) fn of(error: io::Error) -> Cause {
        match error.raw_os_error() {
            Some(TOO_MANY_IN_ALL | TOO_MANY_HERE) => Cause::TooManyFiles,
            Some(INPUT_OUTPUT) => Cause::Device,
            _ => Cause::of_kind(error.kind()),
        }
    }

    fn of_kind(kind: ErrorKind) -> Cause {
        match kind {
            ErrorKind::StorageFull => Cause::NoSpace,
            ErrorKind::PermissionDenied => Cause::Permission,
            ErrorKind::ReadOnlyFilesystem => Cause::ReadOnly,
            other => Cause::Other(other),
        }
    }

    /// Whether a file was not opened for writing, and may be for reading.
    pub(crate) fn refuses_writing(self) -> bool {
        matches!(self, Cause::Permission | Cause::ReadOnly)
    }
}

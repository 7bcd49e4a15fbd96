//! What was asked for by its path and did not come, and why.

use std::alloc::Global;
use std::io::ErrorKind;
use system_files::{Cause, ReadFault};

/// A file or a folder of which nothing was told, or what is no folder, and why.
#[derive(Drop)]
pub struct Unread {
    pub path: String,
    pub cause: Cause,
}

/// Why bytes did not come, if it was not for want of memory.
pub(crate) fn cause_of<T>(answer: &Result<T, ReadFault>) -> Option<Cause> {
    match answer {
        Err(ReadFault::Device(cause)) => Some(*cause),
        _ => None,
    }
}

/// Why nothing was told, if that is so.
pub(crate) fn why_not<T>(answer: &Result<T, Cause>) -> Option<Cause> {
    match answer {
        Err(cause) => Some(*cause),
        Ok(_) => None,
    }
}

/// Why a path is not that of a folder.
pub(crate) fn cause_of_folder(told: &Result<bool, Cause>) -> Option<Cause> {
    match told {
        Ok(true) => None,
        Ok(false) => Some(Cause::Other(ErrorKind::NotADirectory)),
        Err(cause) => Some(*cause),
    }
}

/// Keeps why the file or folder of a path told nothing, if that is so and memory is had.
pub(crate) fn keep_cause(
    unread: &mut Vec<Unread>,
    alloc: Global,
    path: &str,
    cause: Option<Cause>,
) {
    let Some(cause) = cause else {
        return;
    };
    if let Ok(path) = path.to_string(alloc) {
        let _ = unread.push(Unread { path, cause });
    }
}

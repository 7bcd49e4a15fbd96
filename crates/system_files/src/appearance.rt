//! What tells whether a file was changed.

use crate::calls::{again, read};
use crate::cause::Cause;
use pages::PAGE_SIZE;
use std::fs::{Metadata, OpenFile};
use std::os::unix::fs::{FileExt, MetadataExt};

/// The length of a file, the times of its last changes, and the bytes of its first page, zeros
/// where it has none.
#[derive(PartialEq, Eq, Drop)]
pub(crate) struct Appearance {
    length: u64,
    modified: (i64, i64),
    changed: (i64, i64),
    first_page: [u8; PAGE_SIZE],
}

impl Appearance {
    /// What a file looks like, if the system tells it.
    pub(crate) fn of<F: OpenFile + FileExt>(file: &F) -> Result<Appearance, Cause> {
        let found = again(|| file.metadata())?;
        let mut first_page = [0; PAGE_SIZE];
        let there = found.len().min(PAGE_SIZE as u64) as usize;
        read(file, 0, &mut first_page[..there])?;
        Ok(Appearance {
            length: found.len(),
            modified: (found.mtime(), found.mtime_nsec()),
            changed: (found.ctime(), found.ctime_nsec()),
            first_page,
        })
    }
}

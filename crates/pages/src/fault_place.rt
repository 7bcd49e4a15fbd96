//! Where a fault was met.

use std::fmt;

/// Where in a file a fault was met. Pages are numbered from 0, and so are the entries of a leaf,
/// the separators of an inner node and the slots of a heap page, each of which is an entry of its
/// page here.
#[derive(Clone, Copy, Debug, PartialEq, Eq)]
pub enum FaultPlace {
    /// The file as a whole.
    File,
    Page(u32),
    Entry { page: u32, entry: u32 },
}

impl fmt::Display for FaultPlace {
    fn fmt<W: fmt::Write>(&self, f: &mut fmt::Formatter<W>) -> fmt::Result {
        match self {
            FaultPlace::File => write!(f, "the file"),
            FaultPlace::Page(page) => write!(f, "page {page}"),
            FaultPlace::Entry { page, entry } => write!(f, "page {page}, entry {entry}"),
        }
    }
}

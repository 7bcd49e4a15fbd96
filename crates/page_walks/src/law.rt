//! What walks say of a file.

ghost use Rattle.page_walks.specs.WholeFile.{TreesStay, WalksPartTheFile};

/// Where page 0 is marked, then the free pages, and then those of each part, and none is left, the
/// parts have the pages in use between them, as they were read.
pub fn walks_part_the_file()
    ensures { WalksPartTheFile }
{}

/// A tree stands wherever its own pages are the same.
pub fn trees_stay()
    ensures { TreesStay }
{}

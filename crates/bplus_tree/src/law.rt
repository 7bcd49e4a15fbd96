//! What pages read as.

ghost use Rattle.bplus_tree.specs.Count.{HaveManyEntries};
ghost use Rattle.bplus_tree.specs.ReadOff.{ReadsItsEntries};

/// The entries that are read off the pages of a tree by a function of its height are its entries.
pub fn reads_its_entries()
    ensures { ReadsItsEntries }
{}

/// A tree with an inner root has at least two times as many entries as a child must have: four in a
/// leaf, eight times as many with each level.
pub fn have_many_entries()
    ensures { HaveManyEntries }
{}

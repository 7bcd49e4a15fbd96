//! Which lines a load takes, and what comes of a line that it cannot take.

/// Which lines of a text are loaded, whether a line that is rejected ends that, whether a record may
/// replace another one, and whether its values are filled up; and how a new file is made.
#[derive(Clone, Copy, Debug, PartialEq, Eq)]
pub struct LoadOptions {
    /// How many lines behind the header are passed over, unread.
    pub skip: u64,
    /// Whether the load goes on behind a line that is rejected.
    pub keep_going: bool,
    /// Whether a record whose WRITE is refused for its keys replaces the one of its prime value.
    pub replace: bool,
    /// Whether values that are shorter than their columns are filled up.
    pub pad: bool,
    /// How many bytes may be held for the entries of a new file that is built. Where they would not do,
    /// or are none, it is written record by record, and what is told and left is the same.
    pub memory: usize,
    /// Whether the lines are sorted by the prime values of their records before any is loaded. The numbers
    /// of lines, and those that are passed over, are then those of the sorted text.
    pub sort: bool,
}

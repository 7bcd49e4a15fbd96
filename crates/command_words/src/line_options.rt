//! Which lines of a text a load takes, and in how much memory.

/// Which lines of a text are loaded, whether a line that is rejected ends that, whether the record of a
/// line may replace one of the file, whether its values are filled up, whether the lines are sorted, and in
/// how much memory.
#[derive(Clone, Copy, Debug, PartialEq, Eq)]
pub struct LineOptions {
    /// How many lines behind the header are passed over, unread.
    pub skip: u64,
    /// Whether the load goes on behind a line that is rejected.
    pub keep_going: bool,
    /// Whether the record of a line replaces the one that has its prime value already.
    pub replace: bool,
    /// Whether values that are shorter than their columns are filled up.
    pub pad: bool,
    /// Whether the lines are sorted by the prime values of their records first.
    pub sort: bool,
    /// How many MiB of memory the entries of the keys of a new file may take while they are sorted.
    pub memory: u32,
}

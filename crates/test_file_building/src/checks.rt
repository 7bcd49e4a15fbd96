//! Comparisons that tell both values where they differ.

use std::fmt::Debug;
use std::process::Abort;

// A macro that asserts is proved anew at each place where it stands. A call of one of these is not.
pub fn assert_equal<T: PartialEq + Debug + Drop>(rt: &impl Abort, left: T, right: T) {
    assert_eq!(rt; left, right);
}

/// Tells too of what the values are.
pub fn assert_equal_for<W: Debug + Drop, T: PartialEq + Debug + Drop>(
    rt: &impl Abort,
    what: W,
    left: T,
    right: T,
) {
    assert_eq!(rt; left, right, "{what:?}");
}

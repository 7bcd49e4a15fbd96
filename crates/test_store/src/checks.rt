//! Comparisons that tell both values where they differ.

use std::fmt::Debug;
use std::io;
use std::process::Abort;

// A macro that asserts is proved anew at each place where it stands. A call of one of these is not.
pub fn assert_that(rt: &impl Abort, holds: bool) {
    assert!(rt; holds);
}

pub fn assert_equal<T: PartialEq + Debug + Drop>(rt: &impl Abort, left: T, right: T) {
    assert_eq!(rt; left, right);
}

/// Tells too of what the values are.
pub fn assert_equal_for<W: Debug + Drop, T: PartialEq + Debug + Drop>(
    rt: &impl Abort,
    what: W,
    left: T,
    right: T,
) {
    assert_eq!(rt; left, right, "{what:?}");
}

/// A file was read, and these are its bytes.
pub fn has_bytes(rt: &impl Abort, found: io::Result<Vec<u8>>, bytes: &[u8]) {
    match found {
        Ok(found) => assert_equal(rt, found.as_slice(), bytes),
        Err(_) => assert_that(rt, false),
    }
}

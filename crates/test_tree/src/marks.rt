//! What no clause says: which faults are told, and that each call can succeed.

use crate::checks::{assert_equal, assert_equal_for, assert_that};
use pages::{Damage, FaultPlace, WalkFault, all_marked, mark, marks_part_the_pages};

#[test]
fn a_page_has_one_mark(rt: HostRuntime) {
    marks_part_the_pages();
    let mut reached = [false; 2];
    assert_equal(&rt, mark(&mut reached, 1), Ok(()));
    assert_equal(&rt, reached, [false, true]);
    assert_that(&rt, !all_marked(&reached));
    for &n in &[1, 2, u32::MAX] {
        let fault = WalkFault::At(Damage::Shared, FaultPlace::Page(n));
        assert_equal_for(&rt, n, mark(&mut reached, n), Err(fault));
    }
    assert_equal(&rt, mark(&mut reached, 0), Ok(()));
    assert_that(&rt, all_marked(&reached));
}

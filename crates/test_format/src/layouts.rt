//! Records, and where their items stand.

use crate::checks::{assert_equal, assert_equal_for};
use crate::entries::{Row, items, layout_of};
use record_layout::{Field, Layout, LayoutFault};
use std::alloc::Global;
use std::process::Abort;

// The item at an offset, of a length, and whether it is numeric.
fn item_of(place: Option<(u16, u16, bool)>) -> Option<Field> {
    match place {
        None => None,
        Some((offset, length, numeric)) => Some(Field {
            offset,
            length,
            numeric,
        }),
    }
}

const ONE: &[Row] = &[(1, "R", "X(7)")];

const GROUPS: &[Row] = &[
    (1, "R", ""),
    (5, "A", ""),
    (10, "B", "X(3)"),
    (5, "C", "9(2)"),
];

const FILLER: &[Row] = &[
    (1, "R", ""),
    (5, "A", "X(2)"),
    (5, "", "X(3)"),
    (5, "B", "X(1)"),
];

const DEEP: &[Row] = &[
    (1, "R", ""),
    (5, "A", ""),
    (10, "B", "X(1)"),
    (10, "C", "X(1)"),
    (5, "D", "X(1)"),
];

// An item of a record: where it stands, and the length of the record.
const PLACES: [(&[Row], &str, Option<(u16, u16, bool)>, u16); 14] = [
    (ONE, "R", Some((0, 7, false)), 7),
    (GROUPS, "R", Some((0, 5, false)), 5),
    (GROUPS, "A", Some((0, 3, false)), 5),
    (GROUPS, "B", Some((0, 3, false)), 5),
    (GROUPS, "C", Some((3, 2, true)), 5),
    (GROUPS, "D", None, 5),
    (FILLER, "R", Some((0, 6, false)), 6),
    (FILLER, "A", Some((0, 2, false)), 6),
    (FILLER, "B", Some((5, 1, false)), 6),
    (DEEP, "R", Some((0, 3, false)), 3),
    (DEEP, "A", Some((0, 2, false)), 3),
    (DEEP, "B", Some((0, 1, false)), 3),
    (DEEP, "C", Some((1, 1, false)), 3),
    (DEEP, "D", Some((2, 1, false)), 3),
];

// Data description entry, level-number: a group is the items behind it of greater level numbers.
#[test]
fn items_stand_one_behind_another_and_groups_round_their_members(rt: HostRuntime) {
    for &(rows, name, place, length) in &PLACES {
        let layout = layout_of(&rt, rt.alloc(), rows);
        assert_equal_for(&rt, name, layout.field(name), item_of(place));
        assert_equal_for(&rt, rows, layout.length(), length);
    }
}

const FAULTY: [(&[Row], LayoutFault); 14] = [
    // Deeper than an item with a picture, a level that was never opened, and one past 49.
    (
        &[(1, "R", ""), (5, "A", "X(1)"), (10, "B", "X(1)")],
        LayoutFault::BadLevel,
    ),
    (
        &[(1, "R", ""), (10, "A", "X(1)"), (5, "B", "X(1)")],
        LayoutFault::BadLevel,
    ),
    (&[(1, "R", ""), (50, "A", "X(1)")], LayoutFault::BadLevel),
    // The first level is not 01, and a second one is.
    (&[(2, "R", "X(1)")], LayoutFault::BadLevel),
    (&[(1, "R", "X(1)"), (1, "S", "X(1)")], LayoutFault::BadLevel),
    // A group, or the record, that has no item.
    (
        &[(1, "R", ""), (5, "A", ""), (5, "B", "X(1)")],
        LayoutFault::Empty,
    ),
    (&[(1, "R", ""), (1, "S", "X(1)")], LayoutFault::Empty),
    (&[(1, "R", "")], LayoutFault::Empty),
    (&[(1, "R", ""), (5, "A", "")], LayoutFault::Empty),
    (&[], LayoutFault::Empty),
    // A name twice, and that of the record.
    (
        &[(1, "R", ""), (5, "A", "X(1)"), (5, "A", "X(1)")],
        LayoutFault::DuplicateName,
    ),
    (
        &[(1, "R", ""), (5, "R", "X(1)")],
        LayoutFault::DuplicateName,
    ),
    // No picture, and too much of one.
    (
        &[(1, "R", ""), (5, "A", "X(1)"), (5, "B", "X9")],
        LayoutFault::BadPicture,
    ),
    (
        &[(1, "R", ""), (5, "A", "X(4000)"), (5, "B", "X(1)")],
        LayoutFault::TooLong,
    ),
];

fn fault_of(rt: &impl Abort, alloc: Global, rows: &[Row]) -> Option<LayoutFault> {
    Layout::build(alloc, &items(rt, alloc, rows)).err()
}

#[test]
fn the_first_fault_of_a_description_is_told(rt: HostRuntime) {
    for &(rows, fault) in &FAULTY {
        let found = fault_of(&rt, rt.alloc(), rows);
        assert_equal_for(&rt, rows, found, Some(fault));
    }
}

const OF_TWO_KINDS: &[Row] = &[
    (1, "R", ""),
    (5, "A", "X(2)"),
    (5, "B", ""),
    (10, "C", "9(2)"),
    (10, "D", "X"),
];

#[test]
fn a_record_area_begins_with_spaces_and_zeros(rt: HostRuntime) {
    let layout = layout_of(&rt, rt.alloc(), OF_TWO_KINDS);
    let mut area = *b"......";
    assert!(rt; layout.length() == 5);
    layout.blank(&mut area[..5]);
    assert_equal(&rt, area, *b"  00 .");
}

//! What no clause says: which faults are told, and that each call can succeed. The pages are written
//! byte by byte, as the format says.

use crate::checks::{assert_equal, assert_equal_for, assert_that};
use crate::memory::{new_pages, put_byte};
use bplus_tree::Tree;
use page_walks::{Leaf, LeafSpot, trees_stay, walk_free, walk_tree, walks_part_the_file};
use pages::{Damage, FaultPlace, PageList, WalkFault, all_marked, mark};
use std::alloc::Global;
use std::process::Abort;
use tree_node::NodeShape;

// A leaf has 4 to 8 entries, and an inner node 7 to 15 separators.
const LONGEST: NodeShape = NodeShape {
    key: 2,
    width: 258,
    entry: 508,
};

// A leaf of entries whose keys begin with these bytes.
fn put_leaf(rt: &impl Abort, pages: &mut [[u8; 4096]], n: usize, keys: &[u8]) {
    put_byte(rt, pages, n, 0, b'L');
    put_byte(rt, pages, n, 1, LONGEST.key);
    assert!(rt; keys.len() <= 8);
    put_byte(rt, pages, n, 3, keys.len() as u8);
    for (i, &key) in keys.iter().enumerate() {
        assert!(rt; i < 8);
        put_byte(rt, pages, n, 16 + 508 * i, key);
    }
}

// An inner node: its first child, and separators that begin with these bytes, each with the child to
// its right.
fn put_inner(
    rt: &impl Abort,
    pages: &mut [[u8; 4096]],
    n: usize,
    first: u8,
    branches: &[(u8, u8)],
) {
    put_byte(rt, pages, n, 0, b'I');
    put_byte(rt, pages, n, 1, LONGEST.key);
    assert!(rt; branches.len() <= 15);
    put_byte(rt, pages, n, 3, branches.len() as u8);
    put_byte(rt, pages, n, 19, first);
    for (i, &(key, child)) in branches.iter().enumerate() {
        assert!(rt; i < 15);
        put_byte(rt, pages, n, 20 + 262 * i, key);
        put_byte(rt, pages, n, 20 + 262 * i + 258 + 3, child);
    }
}

// Root 1 above leaves 2 and 3.
fn two_leaves(rt: &impl Abort, alloc: Global) -> Vec<[u8; 4096]> {
    let mut pages = new_pages(rt, alloc, 3, 0).pages;
    put_inner(rt, &mut pages, 1, 2, &[(20, 3)]);
    put_leaf(rt, &mut pages, 2, &[10, 11, 12, 13]);
    put_leaf(rt, &mut pages, 3, &[20, 21, 22, 23]);
    pages
}

fn tree(rt: &impl Abort, root: u32, levels: u8, count: u64) -> Tree {
    assert!(rt; levels < 20);
    Tree::stored(LONGEST, root, levels, count)
}

// The leaves of these pages, which a walk finds.
const LEAVES: &[Leaf] = &[Leaf { page: 2, count: 4 }, Leaf { page: 3, count: 4 }];

// The first byte of an entry, which has 508.
fn first_byte(rt: &impl Abort, pages: &[[u8; 4096]], spot: LeafSpot) -> u8 {
    let entry = spot.entry(pages, LONGEST).expect(rt, "an entry");
    assert!(rt; entry.len() == 508);
    entry[0]
}

// The first bytes of the entries of a leaf, behind others.
fn add_keys(rt: &impl Abort, pages: &[[u8; 4096]], leaf: Leaf, keys: &mut Vec<u8>) {
    for place in 0..leaf.count {
        let spot = LeafSpot {
            page: leaf.page,
            place,
        };
        let key = first_byte(rt, pages, spot);
        keys.push(key).expect(rt, "memory");
    }
}

// Places where no entry is.
const NO_SPOTS: [LeafSpot; 4] = [
    LeafSpot { page: 0, place: 0 },
    LeafSpot { page: 1, place: 0 },
    LeafSpot { page: 2, place: 4 },
    LeafSpot { page: 4, place: 0 },
];

#[test]
fn the_entries_of_a_tree_are_found_in_order(rt: HostRuntime) {
    trees_stay();
    let pages = two_leaves(&rt, rt.alloc());
    let mut reached = [false; 4];
    let tree = tree(&rt, 1, 1, 8);
    let leaves = walk_tree(
        rt.alloc(),
        &mut PageList { pages: &pages },
        &tree,
        &mut reached,
    )
    .expect(&rt, "the leaves");
    assert_equal(&rt, reached, [false, true, true, true]);
    assert_equal(&rt, leaves.as_slice(), LEAVES);
    let mut keys = Vec::new(rt.alloc());
    for &leaf in leaves.iter() {
        add_keys(&rt, &pages, leaf, &mut keys);
    }
    let expected = b"\x0a\x0b\x0c\x0d\x14\x15\x16\x17".as_slice();
    assert_equal(&rt, keys.as_slice(), expected);
    for &spot in &NO_SPOTS {
        assert_that(&rt, spot.entry(&pages, LONGEST).is_none());
    }
}

// The separators of an inner node above eight leaves of four entries, and those of another one.
const BRANCHES: &[(u8, u8)] = &[
    (4, 5),
    (8, 6),
    (12, 7),
    (16, 8),
    (20, 9),
    (24, 10),
    (28, 11),
];

const OTHER_BRANCHES: &[(u8, u8)] = &[
    (36, 13),
    (40, 14),
    (44, 15),
    (48, 16),
    (52, 17),
    (56, 18),
    (60, 19),
];

// A root above two inner nodes, each above eight leaves of four entries.
fn three_levels(rt: &impl Abort, alloc: Global) -> Vec<[u8; 4096]> {
    let mut pages = new_pages(rt, alloc, 19, 0).pages;
    put_inner(rt, &mut pages, 1, 2, &[(32, 3)]);
    put_inner(rt, &mut pages, 2, 4, BRANCHES);
    put_inner(rt, &mut pages, 3, 12, OTHER_BRANCHES);
    for leaf in 0..16u8 {
        let first = 4 * leaf;
        let keys = [first, first + 1, first + 2, first + 3];
        put_leaf(rt, &mut pages, leaf as usize + 4, &keys);
    }
    pages
}

// Why a walk over these gives up.
fn fault_of_three_levels(
    rt: &impl Abort,
    alloc: Global,
    pages: &[[u8; 4096]],
    count: u64,
) -> Option<WalkFault> {
    walk_tree(
        alloc,
        &mut PageList { pages },
        &tree(rt, 1, 2, count),
        &mut [false; 20],
    )
    .err()
}

// A byte of an inner node that is changed, the separator that is told then, and what is wrong.
const DISORDERS: [(usize, usize, u8, u32, &str); 3] = [
    (3, 20, 31, 0, "a separator below the one above it"),
    (
        2,
        20 + 262 * 6,
        32,
        6,
        "a separator not below the one above it",
    ),
    (3, 20 + 262 * 2, 48, 2, "a separator twice"),
];

#[test]
fn a_tree_of_three_levels_is_walked(rt: HostRuntime) {
    let pages = three_levels(&rt, rt.alloc());
    let mut reached = [false; 20];
    assert_equal(&rt, mark(&mut reached, 0), Ok(()));
    let tree = tree(&rt, 1, 2, 64);
    let leaves = walk_tree(
        rt.alloc(),
        &mut PageList { pages: &pages },
        &tree,
        &mut reached,
    )
    .expect(&rt, "the leaves");
    let ninth = leaves.get(8).copied();
    assert_equal(&rt, ninth, Some(Leaf { page: 12, count: 4 }));
    assert_that(&rt, all_marked(&reached));
}

#[test]
fn each_damage_of_a_tree_of_three_levels_has_its_fault(rt: HostRuntime) {
    let mut pages = three_levels(&rt, rt.alloc());
    // An inner node that has too little.
    let six = put_byte(&rt, &mut pages, 2, 3, 6);
    let found = fault_of_three_levels(&rt, rt.alloc(), &pages, 60);
    assert_equal(&rt, found, Some(WalkFault::of_page(Damage::Node, 2)));
    put_byte(&rt, &mut pages, 2, 3, six);
    for &(n, at, byte, separator, what) in &DISORDERS {
        let was = put_byte(&rt, &mut pages, n, at, byte);
        let found = fault_of_three_levels(&rt, rt.alloc(), &pages, 64);
        let fault = WalkFault::of_entry(Damage::Order, n as u32, separator);
        assert_equal_for(&rt, what, found, Some(fault));
        put_byte(&rt, &mut pages, n, at, was);
    }
}

// A byte of the two leaves or their root that is changed, the fault that is told then, and what is
// wrong.
const DAMAGES: [(usize, usize, u8, Damage, FaultPlace, &str); 13] = [
    (
        1,
        0,
        b'L',
        Damage::Node,
        FaultPlace::Page(1),
        "a leaf above leaves",
    ),
    (
        2,
        0,
        b'I',
        Damage::Node,
        FaultPlace::Page(2),
        "an inner node among leaves",
    ),
    (
        3,
        1,
        3,
        Damage::Node,
        FaultPlace::Page(3),
        "a leaf of another key",
    ),
    (
        3,
        4,
        1,
        Damage::Node,
        FaultPlace::Page(3),
        "a byte that should be zero",
    ),
    (
        2,
        3,
        9,
        Damage::Node,
        FaultPlace::Page(2),
        "more entries than fit",
    ),
    (
        2,
        3,
        3,
        Damage::Node,
        FaultPlace::Page(2),
        "a leaf that has too little",
    ),
    (
        1,
        3,
        0,
        Damage::Node,
        FaultPlace::Page(1),
        "an inner root without separators",
    ),
    (
        1,
        19,
        4,
        Damage::Node,
        FaultPlace::Page(1),
        "a child that is not there",
    ),
    (
        1,
        281,
        2,
        Damage::Shared,
        FaultPlace::Page(2),
        "one child twice",
    ),
    (
        1,
        19,
        1,
        Damage::Shared,
        FaultPlace::Page(1),
        "a root that is its own child",
    ),
    (
        2,
        524,
        10,
        Damage::Order,
        FaultPlace::Entry { page: 2, entry: 0 },
        "a key twice",
    ),
    (
        2,
        1540,
        20,
        Damage::Order,
        FaultPlace::Entry { page: 2, entry: 3 },
        "a key that is not below its separator",
    ),
    (
        3,
        16,
        19,
        Damage::Order,
        FaultPlace::Entry { page: 3, entry: 0 },
        "a key below its separator",
    ),
];

// Where the root is, its levels and entries, and the fault that is told. A root that is not there is
// told at page 0.
const WRONG_ROOTS: [(u32, u8, u64, Damage, u32); 8] = [
    (1, 1, 7, Damage::Index, 1),
    (1, 1, 9, Damage::Index, 1),
    (1, 0, 8, Damage::Node, 1),
    (1, 2, 8, Damage::Node, 2),
    (2, 0, 8, Damage::Index, 2),
    (0, 0, 0, Damage::Node, 0),
    (4, 0, 0, Damage::Node, 0),
    (1, 19, 8, Damage::Node, 2),
];

#[test]
fn each_damage_of_a_tree_has_its_fault(rt: HostRuntime) {
    let mut pages = two_leaves(&rt, rt.alloc());
    let tree = tree(&rt, 1, 1, 8);
    for &(n, at, byte, fault, place, what) in &DAMAGES {
        let was = put_byte(&rt, &mut pages, n, at, byte);
        let found = walk_tree(
            rt.alloc(),
            &mut PageList { pages: &pages },
            &tree,
            &mut [false; 4],
        );
        assert_equal_for(&rt, what, found.err(), Some(WalkFault::At(fault, place)));
        put_byte(&rt, &mut pages, n, at, was);
    }
}

#[test]
fn each_wrong_root_of_a_tree_has_its_fault(rt: HostRuntime) {
    let pages = two_leaves(&rt, rt.alloc());
    for &(root, levels, count, fault, page) in &WRONG_ROOTS {
        let tree = tree(&rt, root, levels, count);
        let found = walk_tree(
            rt.alloc(),
            &mut PageList { pages: &pages },
            &tree,
            &mut [false; 4],
        );
        let fault = WalkFault::of_page(fault, page);
        assert_equal_for(&rt, (root, levels, count), found.err(), Some(fault));
    }
}

// Pages 3 and 1 are free, in this order.
fn two_free(rt: &impl Abort, alloc: Global) -> Vec<[u8; 4096]> {
    let mut pages = new_pages(rt, alloc, 3, 0).pages;
    put_byte(rt, &mut pages, 3, 0, b'F');
    put_byte(rt, &mut pages, 3, 7, 1);
    put_byte(rt, &mut pages, 1, 0, b'F');
    pages
}

// The chain is longer, or shorter, than it is told to be; or its first page is none, is not free, or
// is not there.
const WRONG_CHAINS: [(u32, u32, u32); 6] = [
    (3, 1, 3),
    (3, 3, 1),
    (3, u32::MAX, 1),
    (0, 1, 0),
    (2, 1, 2),
    (4, 1, 0),
];

#[test]
fn the_free_pages_are_walked(rt: HostRuntime) {
    walks_part_the_file();
    let pages = two_free(&rt, rt.alloc());
    let mut reached = [false; 4];
    assert_equal(
        &rt,
        walk_free(&mut PageList { pages: &pages }, 3, 2, &mut reached),
        Ok(()),
    );
    assert_equal(&rt, reached, [false, true, false, true]);
    let again = walk_free(&mut PageList { pages: &pages }, 3, 2, &mut reached);
    assert_equal(&rt, again, Err(WalkFault::of_page(Damage::Shared, 3)));
    assert_equal(
        &rt,
        walk_free(&mut PageList { pages: &pages }, 0, 0, &mut reached),
        Ok(()),
    );
    for &(first, count, page) in &WRONG_CHAINS {
        let found = walk_free(
            &mut PageList { pages: &pages },
            first,
            count,
            &mut [false; 4],
        );
        let fault = WalkFault::of_page(Damage::Heap, page);
        assert_equal_for(&rt, (first, count), found, Err(fault));
    }
}

// A byte of the free pages that is changed, the fault that is told then, and what is wrong.
const FREE_DAMAGES: [(usize, usize, u8, Damage, u32, &str); 6] = [
    (3, 7, 3, Damage::Shared, 3, "a page that leads to itself"),
    (3, 7, 2, Damage::Heap, 2, "a page that is not free"),
    (1, 1, 1, Damage::Heap, 1, "a byte that should be zero"),
    (1, 7, 4, Damage::Heap, 1, "a chain that does not end"),
    (3, 7, 4, Damage::Heap, 3, "a page that is not there"),
    (3, 7, 0, Damage::Heap, 3, "a chain that ends too early"),
];

#[test]
fn each_damage_of_the_free_pages_has_its_fault(rt: HostRuntime) {
    let mut pages = two_free(&rt, rt.alloc());
    for &(n, at, byte, fault, page, what) in &FREE_DAMAGES {
        let was = put_byte(&rt, &mut pages, n, at, byte);
        let found = walk_free(&mut PageList { pages: &pages }, 3, 2, &mut [false; 4]);
        let fault = WalkFault::of_page(fault, page);
        assert_equal_for(&rt, what, found, Err(fault));
        put_byte(&rt, &mut pages, n, at, was);
    }
}

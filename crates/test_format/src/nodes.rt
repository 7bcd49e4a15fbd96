//! The numbers and bytes of a node that a person reads off the format.

use crate::checks::{assert_equal, assert_equal_for, assert_that};
use pages::PAGE_SIZE;
use std::process::Abort;
use tree_node::{InnerView, LeafView, NodeShape, is_inner, is_leaf, is_node};

const PRIME: NodeShape = NodeShape {
    key: 0,
    width: 4,
    entry: 10,
};

const WIDE: NodeShape = NodeShape {
    key: 2,
    width: 258,
    entry: 508,
};

/// A page that begins with these bytes. What lies behind them has no meaning.
fn page_of(rt: &impl Abort, bytes: &[u8]) -> [u8; PAGE_SIZE] {
    let mut page = [0xa5; PAGE_SIZE];
    assert!(rt; bytes.len() <= PAGE_SIZE);
    page[..bytes.len()].copy_from_slice(bytes);
    page
}

const STAMPED: NodeShape = NodeShape {
    key: 1,
    width: 12,
    entry: 18,
};

const LONG: NodeShape = NodeShape {
    key: 1,
    width: 128,
    entry: 248,
};

// The greatest number of entries in a leaf, and of separators in an inner node.
const ROOMS: [(NodeShape, usize, usize); 4] = [
    (PRIME, 408, 509),
    (STAMPED, 226, 254),
    (LONG, 16, 30),
    (WIDE, 8, 15),
];

#[test]
fn the_greatest_numbers_come_out_of_the_shapes(rt: HostRuntime) {
    for &(shape, entries, separators) in &ROOMS {
        assert_equal_for(&rt, shape, shape.leaf_room(), entries);
        assert_equal_for(&rt, shape, shape.inner_room(), separators);
    }
}

const NO_NODES: [&[u8; 16]; 5] = [
    b"H\0\x01\x98\0\0\0\0\0\0\0\0\0\0\0\0",
    b"L\x01\x01\x98\0\0\0\0\0\0\0\0\0\0\0\0",
    b"L\0\x01\x99\0\0\0\0\0\0\0\0\0\0\0\0",
    b"L\0\x01\x98\x01\0\0\0\0\0\0\0\0\0\0\0",
    b"L\0\x01\x98\0\0\0\0\0\0\0\0\0\0\0\x01",
];

#[test]
fn a_page_of_another_kind_or_key_is_no_node_of_this_tree(rt: HostRuntime) {
    let node = page_of(&rt, b"L\0\x01\x98\0\0\0\0\0\0\0\0\0\0\0\0");
    assert_that(&rt, is_leaf(&node, PRIME));
    assert_that(&rt, is_node(&node, PRIME));
    assert_that(&rt, !is_inner(&node, PRIME));
    for head in &NO_NODES {
        assert_equal_for(&rt, head, is_node(&page_of(&rt, *head), PRIME), false);
    }
}

// A key: how many keys of a leaf of 0001 and 0007 are below it, and how many are not above it.
const RANKS: [(&[u8; 4], usize, usize); 5] = [
    (b"0000", 0, 0),
    (b"0001", 0, 1),
    (b"0003", 1, 1),
    (b"0007", 1, 2),
    (b"0008", 2, 2),
];

#[test]
fn a_leaf_reads_as_its_bytes_say(rt: HostRuntime) {
    let page = page_of(
        &rt,
        b"L\0\0\x02\0\0\0\0\0\0\0\0\0\0\0\x000001\0\0\0\x02\0\x000007\0\0\0\x03\0\x01",
    );
    assert!(rt; is_leaf(&page, PRIME));
    let leaf = LeafView {
        page: &page,
        shape: PRIME,
    };
    assert!(rt; leaf.count() == 2);
    assert_equal(&rt, leaf.key(0), b"0001");
    assert_equal(&rt, leaf.entry(1), b"0007\0\0\0\x03\0\x01");
    for &(key, rank, rank_after) in &RANKS {
        assert_equal_for(&rt, key, leaf.rank(key), rank);
        assert_equal_for(&rt, key, leaf.rank_after(key), rank_after);
    }
}

// A key, and the child of an inner node of 0010 and 0020 that it leads to.
const CHILDREN: [(&[u8; 4], u32); 4] = [(b"0009", 5), (b"0010", 7), (b"0011", 7), (b"0020", 256)];

#[test]
fn an_equal_key_leads_right(rt: HostRuntime) {
    let page = page_of(
        &rt,
        b"I\0\0\x02\0\0\0\0\0\0\0\0\0\0\0\0\0\0\0\x050010\0\0\0\x070020\0\0\x01\0",
    );
    assert!(rt; is_inner(&page, PRIME));
    let inner = InnerView {
        page: &page,
        shape: PRIME,
    };
    assert!(rt; inner.count() == 2);
    assert_equal(&rt, inner.separator(0), b"0010");
    assert_equal(&rt, inner.separator(1), b"0020");
    for &(key, child) in &CHILDREN {
        assert_equal_for(&rt, key, inner.child(inner.rank(key)), child);
    }
}

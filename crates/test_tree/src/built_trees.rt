//! Trees built from entries in order: every entry is found, and no page is taken but those of full
//! nodes.

use crate::checks::{assert_equal, assert_equal_for};
use crate::memory::new_pages;
use bplus_tree::Tree;
use memory_shelf::MemoryPages;
use std::alloc::Global;
use std::process::Abort;
use tree_building::TreeBuilder;
use tree_node::NodeShape;

// A leaf has room for 32 entries, and an inner node for 32 separators.
const NARROW: NodeShape = NodeShape {
    key: 0,
    width: 120,
    entry: 127,
};

// The key of a number.
fn key_of(number: u32) -> [u8; 120] {
    let mut key = [b'-'; 120];
    key[..4].copy_from_slice(&number.to_be_bytes());
    key
}

// The entry of a number.
fn entry_of(number: u32) -> [u8; 127] {
    let mut entry = [b'-'; 127];
    entry[..4].copy_from_slice(&number.to_be_bytes());
    entry
}

// The tree of the first numbers.
fn built(rt: &impl Abort, alloc: Global, pages: &mut MemoryPages, count: u32) -> Tree {
    let mut builder = TreeBuilder::new(alloc, NARROW);
    for number in 0..count {
        let entry = entry_of(number);
        builder.push(pages, &entry).expect(rt, "an entry");
    }
    builder.finish(alloc, pages).expect(rt, "a tree")
}

// Whether the entry of a number is found.
fn is_found(rt: &impl Abort, tree: &Tree, pages: &mut MemoryPages, number: u32) -> bool {
    let key = key_of(number);
    match tree.find(pages, &key).expect(rt, "the tree is read") {
        Some(found) => found.as_slice() == &entry_of(number)[..],
        None => false,
    }
}

// Each number is found, and the one behind the last is not.
fn has_all(rt: &impl Abort, tree: &Tree, pages: &mut MemoryPages, count: u32) {
    for number in 0..count.saturating_add(1) {
        assert_equal_for(
            rt,
            number,
            is_found(rt, tree, pages, number),
            number < count,
        );
    }
}

// So many numbers, how many levels are above the leaves then, and how many pages the tree has.
const BUILT: [(u32, u8, usize); 8] = [
    (0, 0, 1),
    (1, 0, 1),
    (32, 0, 1),
    (33, 1, 3),
    (64, 1, 3),
    (65, 1, 4),
    (1056, 1, 34),
    (1057, 2, 37),
];

#[test]
fn each_entry_of_a_built_tree_is_found(rt: HostRuntime) {
    for &(count, levels, taken) in &BUILT {
        let mut pages = new_pages(&rt, rt.alloc(), 0, 1000);
        let tree = built(&rt, rt.alloc(), &mut pages, count);
        assert_equal(&rt, (tree.levels(), tree.count()), (levels, count as u64));
        assert_equal_for(&rt, count, pages.taken(), taken);
        has_all(&rt, &tree, &mut pages, count);
    }
}

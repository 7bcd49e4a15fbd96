//! What no clause says: how many entries fit, that each call can succeed, and long series of changes
//! beside a list in order.

use crate::checks::{assert_equal, assert_equal_for, assert_that};
use crate::memory::{new_pages, page_of};
use bplus_tree::{Cursor, Tree, have_many_entries, reads_its_entries};
use io_state::Fault;
use memory_shelf::MemoryPages;
use std::alloc::Global;
use std::process::Abort;
use tree_node::{Entry, InnerView, LeafView, NodeShape, is_inner, is_leaf};

const SHORT: NodeShape = NodeShape {
    key: 0,
    width: 120,
    entry: 126,
};

const LONG: NodeShape = NodeShape {
    key: 1,
    width: 250,
    entry: 256,
};

const LONGEST: NodeShape = NodeShape {
    key: 2,
    width: 258,
    entry: 508,
};

// An entry whose key ends in a number, the last byte of which stands behind the key too.
fn entry_of(shape: NodeShape, number: u64) -> [u8; 508] {
    let mut entry = [b' '; 508];
    let end = shape.width as usize;
    let start = end.saturating_sub(8);
    if end - start == 8 {
        entry[start..end].copy_from_slice(&number.to_be_bytes());
    }
    entry[end..].fill((number % 256) as u8);
    entry
}

// The number of an entry.
fn number_of(entry: &Entry, shape: NodeShape) -> u64 {
    entry
        .iter()
        .take(shape.width as usize)
        .fold(0u64, |number, &byte| {
            number.wrapping_mul(256).wrapping_add(byte as u64)
        })
}

// Whether the number was not there yet.
fn put(rt: &impl Abort, tree: &mut Tree, pages: &mut MemoryPages, number: u64) -> bool {
    let entry = entry_of(tree.shape(), number);
    let size = tree.shape().entry as usize;
    let old = tree.insert(pages, &entry[..size]);
    old.expect(rt, "an entry is put in").is_none()
}

// Whether the number was there.
fn take(rt: &impl Abort, tree: &mut Tree, pages: &mut MemoryPages, number: u64) -> bool {
    let entry = entry_of(tree.shape(), number);
    let width = tree.shape().width as usize;
    let old = tree.remove(pages, &entry[..width]);
    old.expect(rt, "an entry is taken out").is_some()
}

// The number of what was found.
fn number_found(
    rt: &impl Abort,
    found: Result<Option<Entry>, Fault>,
    shape: NodeShape,
) -> Option<u64> {
    match found.expect(rt, "the tree is read") {
        None => None,
        Some(entry) => Some(number_of(&entry, shape)),
    }
}

fn find(rt: &impl Abort, tree: &Tree, pages: &mut MemoryPages, number: u64) -> Option<u64> {
    let entry = entry_of(tree.shape(), number);
    let width = tree.shape().width as usize;
    number_found(rt, tree.find(pages, &entry[..width]), tree.shape())
}

// Whether the number is there, whose entry has these bytes behind its key then.
fn is_there(rt: &impl Abort, tree: &Tree, pages: &mut MemoryPages, number: u64) -> bool {
    let entry = entry_of(tree.shape(), number);
    let (width, size) = (tree.shape().width as usize, tree.shape().entry as usize);
    let mut tail = [0; 508];
    let told = tree.find_tail(pages, &entry[..width], &mut tail[..size - width]);
    assert_equal(rt, tree.has(pages, &entry[..width]), told);
    let is_there = told.expect(rt, "the tree is read");
    if is_there {
        assert_equal(rt, &tail[..size - width], &entry[width..size]);
    }
    is_there
}

fn at_or_after(rt: &impl Abort, tree: &Tree, pages: &mut MemoryPages, number: u64) -> Option<u64> {
    let entry = entry_of(tree.shape(), number);
    let width = tree.shape().width as usize;
    number_found(rt, tree.at_or_after(pages, &entry[..width]), tree.shape())
}

// The number behind this one, or the first one.
fn after(
    rt: &impl Abort,
    tree: &Tree,
    pages: &mut MemoryPages,
    number: Option<u64>,
) -> Option<u64> {
    let entry = entry_of(tree.shape(), number.unwrap_or(0));
    let width = if number.is_none() {
        0
    } else {
        tree.shape().width as usize
    };
    number_found(rt, tree.after(pages, &entry[..width]), tree.shape())
}

fn next(rt: &impl Abort, cursor: &mut Cursor, tree: &Tree, pages: &mut MemoryPages) -> Option<u64> {
    let mut entry = Entry::new();
    let is_found = cursor.next(tree, pages, &mut entry);
    if !is_found.expect(rt, "the tree is read") {
        return None;
    }
    Some(number_of(&entry, tree.shape()))
}

// Whether the next number is this one. The cursor stays.
fn is_next(
    rt: &impl Abort,
    cursor: &Cursor,
    tree: &Tree,
    pages: &mut MemoryPages,
    number: u64,
) -> bool {
    let entry = entry_of(tree.shape(), number);
    let width = tree.shape().width as usize;
    let begins = cursor.next_begins_with(tree, pages, &entry[..width]);
    begins.expect(rt, "the tree is read")
}

// The first number from one to another, and whether the next number is one of them too.
fn first_within(
    rt: &impl Abort,
    tree: &Tree,
    pages: &mut MemoryPages,
    from: u64,
    to: u64,
) -> Option<(u64, bool)> {
    let least = entry_of(tree.shape(), from);
    let greatest = entry_of(tree.shape(), to);
    let width = tree.shape().width as usize;
    let found = tree.first_within(pages, &least[..width], &greatest[..width]);
    match found.expect(rt, "the tree is read") {
        None => None,
        Some(first) => Some((number_of(&first.entry, tree.shape()), first.followed)),
    }
}

fn last(rt: &impl Abort, tree: &Tree, pages: &mut MemoryPages) -> Option<u64> {
    number_found(rt, tree.last(pages), tree.shape())
}

// Adds the children of an inner node that has so many separators at least.
fn add_children(
    rt: &impl Abort,
    page: &[u8; 4096],
    shape: NodeShape,
    least: usize,
    below: &mut Vec<u32>,
) {
    assert!(rt; is_inner(page, shape));
    let node = InnerView { page, shape };
    let count = node.count();
    assert_that(rt, count >= least);
    for i in 0..count + 1 {
        below.push(node.child(i)).expect(rt, "memory");
    }
}

// The children of these inner nodes, which have so many separators at least.
fn children(
    rt: &impl Abort,
    alloc: Global,
    pages: &MemoryPages,
    shape: NodeShape,
    row: &[u32],
    least: usize,
) -> Vec<u32> {
    let mut below = Vec::new(alloc);
    for &page in row {
        add_children(rt, page_of(rt, pages, page), shape, least, &mut below);
    }
    below
}

// How many entries a leaf has, which are so many at least.
fn count_leaf(rt: &impl Abort, page: &[u8; 4096], shape: NodeShape, least: usize) -> usize {
    assert!(rt; is_leaf(page, shape));
    let leaf = LeafView { page, shape };
    let count = leaf.count();
    assert_that(rt, count >= least);
    count
}

// How many entries these leaves have, each of which has so many at least.
fn count_leaves(
    rt: &impl Abort,
    pages: &MemoryPages,
    shape: NodeShape,
    row: &[u32],
    least: usize,
) -> usize {
    let mut entries = 0usize;
    for &page in row {
        let count = count_leaf(rt, page_of(rt, pages, page), shape, least);
        entries = entries.saturating_add(count);
    }
    entries
}

// How many entries the leaves have. Each node but the root is half full at least.
fn count_filled(rt: &impl Abort, alloc: Global, tree: &Tree, pages: &MemoryPages) -> usize {
    let shape = tree.shape();
    let mut row = Vec::new(alloc);
    row.push(tree.root()).expect(rt, "memory");
    for level in 0..tree.levels() {
        let least = if level == 0 {
            1
        } else {
            shape.inner_room() / 2
        };
        row = children(rt, alloc, pages, shape, &row, least);
    }
    let least = if tree.levels() == 0 {
        0
    } else {
        shape.leaf_room() / 2
    };
    count_leaves(rt, pages, shape, &row, least)
}

#[derive(Clone, Copy)]
enum Order {
    Rising,
    Falling,
    Mixed,
}

// Number i of the numbers below 3,000.
fn in_order(order: Order, i: u64) -> u64 {
    match order {
        Order::Rising => i,
        Order::Falling => 2999u64.saturating_sub(i),
        Order::Mixed => i.wrapping_mul(1237) % 3000,
    }
}

// The numbers below 3,000 go in, in this order.
fn fill(rt: &impl Abort, tree: &mut Tree, pages: &mut MemoryPages, entering: Order) {
    for i in 0..3000 {
        let added = put(rt, tree, pages, in_order(entering, i));
        assert_equal_for(rt, i, added, true);
    }
}

// They come back by `after` and by a cursor.
fn come_back(rt: &impl Abort, tree: &Tree, pages: &mut MemoryPages) {
    let mut cursor = tree.cursor(b"");
    let mut number = None;
    for i in 0..3000 {
        number = after(rt, tree, pages, number);
        assert_equal(rt, number, Some(i));
        assert_equal(rt, next(rt, &mut cursor, tree, pages), Some(i));
    }
    assert_equal(rt, next(rt, &mut cursor, tree, pages), None);
}

// They go out, in this order.
fn empty(rt: &impl Abort, tree: &mut Tree, pages: &mut MemoryPages, leaving: Order) {
    for i in 0..3000 {
        let taken = take(rt, tree, pages, in_order(leaving, i));
        assert_equal_for(rt, i, taken, true);
    }
}

fn fill_and_empty(
    rt: &impl Abort,
    alloc: Global,
    shape: NodeShape,
    entering: Order,
    leaving: Order,
) {
    let mut pages = new_pages(rt, alloc, 0, 1000);
    let mut tree = Tree::empty(&mut pages, shape).expect(rt, "a tree");
    fill(rt, &mut tree, &mut pages, entering);
    assert_equal(rt, count_filled(rt, alloc, &tree, &pages), 3000);
    come_back(rt, &tree, &mut pages);
    empty(rt, &mut tree, &mut pages, leaving);
    assert_equal(rt, (tree.height(), tree.count(), pages.taken()), (1, 0, 1));
}

#[test]
fn entries_come_back_in_order_and_leave_one_leaf(rt: HostRuntime) {
    reads_its_entries();
    have_many_entries();
    fill_and_empty(&rt, rt.alloc(), SHORT, Order::Rising, Order::Mixed);
    fill_and_empty(&rt, rt.alloc(), SHORT, Order::Falling, Order::Rising);
    fill_and_empty(&rt, rt.alloc(), SHORT, Order::Mixed, Order::Falling);
}

#[test]
fn long_entries_that_come_in_rising_order_leave_in_it(rt: HostRuntime) {
    fill_and_empty(&rt, rt.alloc(), LONG, Order::Rising, Order::Rising);
}

#[test]
fn long_entries_that_come_in_falling_order_leave_in_it(rt: HostRuntime) {
    fill_and_empty(&rt, rt.alloc(), LONG, Order::Falling, Order::Falling);
}

#[test]
fn long_entries_that_come_in_mixed_order_leave_in_it(rt: HostRuntime) {
    fill_and_empty(&rt, rt.alloc(), LONG, Order::Mixed, Order::Mixed);
}

const NARROWEST: NodeShape = NodeShape {
    key: 0,
    width: 8,
    entry: 10,
};

const NARROW: NodeShape = NodeShape {
    key: 0,
    width: 12,
    entry: 18,
};

const WIDE: NodeShape = NodeShape {
    key: 0,
    width: 240,
    entry: 255,
};

const WIDEST: NodeShape = NodeShape {
    key: 0,
    width: 258,
    entry: 508,
};

// How many entries a leaf has room for.
const ROOMS: [(NodeShape, u64); 4] = [(NARROWEST, 408), (NARROW, 226), (WIDE, 16), (WIDEST, 8)];

// The numbers below `room` fill one leaf, and the next number splits it.
fn room_fills_a_leaf(rt: &impl Abort, alloc: Global, shape: NodeShape, room: u64) {
    let mut pages = new_pages(rt, alloc, 0, 3);
    let mut tree = Tree::empty(&mut pages, shape).expect(rt, "a tree");
    for i in 0..room {
        assert_equal_for(rt, i, put(rt, &mut tree, &mut pages, i), true);
    }
    assert_equal_for(rt, room, tree.height(), 1);
    assert_equal_for(rt, room, put(rt, &mut tree, &mut pages, 0), false);
    assert_equal_for(rt, room, put(rt, &mut tree, &mut pages, room), true);
    assert_equal_for(rt, room, tree.height(), 2);
}

#[test]
fn a_leaf_is_split_by_the_entry_that_it_has_no_room_for(rt: HostRuntime) {
    for &(shape, room) in &ROOMS {
        room_fills_a_leaf(&rt, rt.alloc(), shape, room);
    }
}

// A tree of the first numbers, each so many times.
fn tree_of(rt: &impl Abort, pages: &mut MemoryPages, count: u64, times: u64) -> Tree {
    let mut tree = Tree::empty(pages, LONGEST).expect(rt, "a tree");
    for i in 0..count {
        put(rt, &mut tree, pages, i.wrapping_mul(times));
    }
    tree
}

// What is done to the tree between two numbers that the cursor gives.
fn change_between(rt: &impl Abort, tree: &mut Tree, pages: &mut MemoryPages, step: u64) {
    match step % 5 {
        1 => put(rt, tree, pages, step.wrapping_mul(3)),
        3 => take(rt, tree, pages, step.wrapping_mul(4)),
        _ => true,
    };
}

#[test]
fn a_cursor_gives_what_after_gives_while_the_tree_changes(rt: HostRuntime) {
    let mut pages = new_pages(&rt, rt.alloc(), 0, 1000);
    let mut tree = tree_of(&rt, &mut pages, 500, 4);
    let mut cursor = tree.cursor(b"");
    let mut number = None;
    for step in 0..400u64 {
        number = after(&rt, &tree, &mut pages, number);
        assert_that(&rt, number.is_some());
        let found = next(&rt, &mut cursor, &tree, &mut pages);
        assert_equal_for(&rt, step, found, number);
        change_between(&rt, &mut tree, &mut pages, step);
    }
}

// The next number of a cursor is this one, and not the one behind it.
fn stands_before(
    rt: &impl Abort,
    cursor: &mut Cursor,
    tree: &Tree,
    pages: &mut MemoryPages,
    number: u64,
) {
    assert_that(rt, is_next(rt, cursor, tree, pages, number));
    assert_that(
        rt,
        !is_next(rt, cursor, tree, pages, number.wrapping_add(1)),
    );
    assert_equal(rt, next(rt, cursor, tree, pages), Some(number));
}

#[test]
fn a_cursor_tells_how_the_next_entry_begins_and_stays(rt: HostRuntime) {
    let mut pages = new_pages(&rt, rt.alloc(), 0, 1000);
    let mut tree = tree_of(&rt, &mut pages, 20, 1);
    let mut cursor = tree.cursor(b"");
    for i in 0..20 {
        stands_before(&rt, &mut cursor, &tree, &mut pages, i);
    }
    let goes_on = cursor.next_begins_with(&tree, &mut pages, b"");
    assert_equal(&rt, goes_on, Ok(false));
    assert_that(&rt, put(&rt, &mut tree, &mut pages, 20));
    let goes_on = cursor.next_begins_with(&tree, &mut pages, b"");
    assert_equal(&rt, goes_on, Ok(true));
    assert_that(&rt, is_next(&rt, &cursor, &tree, &mut pages, 20));
}

// The next number of a series that looks like chance.
fn another(random: u64) -> u64 {
    random
        .wrapping_mul(6364136223846793005)
        .wrapping_add(1442695040888963407)
}

// The first number from this one to the fourth behind it is that of the list, from this place on.
fn is_first_within(
    rt: &impl Abort,
    tree: &Tree,
    pages: &mut MemoryPages,
    list: &[u64],
    place: usize,
    number: u64,
) {
    let to = number.saturating_add(4);
    let first = match list.get(place) {
        Some(&first) if first <= to => {
            let followed = match list.get(place.saturating_add(1)) {
                Some(&next) => next <= to,
                None => false,
            };
            Some((first, followed))
        }
        _ => None,
    };
    assert_equal(rt, first_within(rt, tree, pages, number, to), first);
}

// A number is put into a tree, and into the list at its place.
fn put_into_both(
    rt: &impl Abort,
    tree: &mut Tree,
    pages: &mut MemoryPages,
    list: &mut Vec<u64>,
    place: usize,
    number: u64,
) {
    let there = list.get(place).copied() == Some(number);
    assert_equal(rt, put(rt, tree, pages, number), !there);
    if !there && place <= list.len() {
        list.insert(place, number).expect(rt, "memory");
    }
}

// A number is taken out of a tree, and out of the list at its place.
fn take_from_both(
    rt: &impl Abort,
    tree: &mut Tree,
    pages: &mut MemoryPages,
    list: &mut Vec<u64>,
    place: usize,
    number: u64,
) {
    let there = list.get(place).copied() == Some(number);
    assert_equal(rt, take(rt, tree, pages, number), there);
    if there && place < list.len() {
        list.remove(place);
    }
}

// One change or look-up of a tree and of the list beside it.
fn step(
    rt: &impl Abort,
    tree: &mut Tree,
    pages: &mut MemoryPages,
    list: &mut Vec<u64>,
    choice: u64,
    number: u64,
) {
    let place = list.partition_point(|&other| other < number);
    let behind = list.get(place).copied();
    match choice {
        0 => {
            let there = behind == Some(number);
            assert_equal(rt, find(rt, tree, pages, number).is_some(), there);
            assert_equal(rt, is_there(rt, tree, pages, number), there);
        }
        1 => assert_equal(rt, at_or_after(rt, tree, pages, number), behind),
        2 => assert_equal(rt, last(rt, tree, pages), list.last().copied()),
        3 => is_first_within(rt, tree, pages, list, place, number),
        4 | 5 | 6 => put_into_both(rt, tree, pages, list, place, number),
        _ => take_from_both(rt, tree, pages, list, place, number),
    }
}

#[test]
fn a_series_of_changes_goes_as_in_a_list_in_order(rt: HostRuntime) {
    let mut pages = new_pages(&rt, rt.alloc(), 0, 1000);
    let mut tree = Tree::empty(&mut pages, LONGEST).expect(&rt, "a tree");
    let mut list = Vec::new(rt.alloc());
    let mut random = 1u64;
    for i in 0..20000u64 {
        random = another(random);
        let (choice, number) = ((random >> 20) % 10, (random >> 33) % 700);
        step(&rt, &mut tree, &mut pages, &mut list, choice, number);
        if i % 100 == 0 {
            assert_equal(
                &rt,
                count_filled(&rt, rt.alloc(), &tree, &pages),
                list.len(),
            );
        }
    }
    assert_equal(&rt, tree.count(), list.len() as u64);
}

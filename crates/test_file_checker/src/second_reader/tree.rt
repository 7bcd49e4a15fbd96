//! The tree of a key.

use super::first_page::KeyRow;
use super::numbers::{are_below, are_zero, has, number, page_start, take};
use std::alloc::Global;
use std::process::Abort;

/// A tree: the number of its key, the bytes of a tree key, and those of an entry.
#[derive(Clone, Copy)]
pub struct Tree {
    pub key: u64,
    pub width: usize,
    pub entry: usize,
}

/// A node, and where the tree keys begin that its own lie between: not below `low`, and below `high`. At 0
/// there is none.
#[derive(Clone, Copy)]
struct Node {
    page: u64,
    low: usize,
    high: usize,
}

impl Node {
    fn is_root(self) -> bool {
        self.low == 0 && self.high == 0
    }
}

impl Tree {
    /// Whether one tree key is below another, where both are some.
    fn rises(self, bytes: &[u8], one: usize, other: usize) -> bool {
        one == 0 || other == 0 || are_below(bytes, one, other, self.width)
    }

    /// Whether one tree key is not below another, where that is some.
    fn is_from(self, bytes: &[u8], key: usize, low: usize) -> bool {
        low == 0 || !are_below(bytes, key, low, self.width)
    }

    /// How many entries or separators a page may have, each with so many bytes beside.
    fn most(room: usize, width: usize) -> usize {
        room / width.max(1)
    }
}

/// Puts the entries of the tree of a key at the end, in their order.
pub fn read_entries(
    rt: &impl Abort,
    alloc: Global,
    bytes: &[u8],
    tree: Tree,
    row: KeyRow,
    taken: &mut [bool],
    entries: &mut Vec<usize>,
) -> bool {
    let mut nodes = Vec::new(alloc);
    let root = Node {
        page: row.root,
        low: 0,
        high: 0,
    };
    nodes.push(root).expect(rt, "memory");
    for _ in 1..row.height {
        let mut below = Vec::new(alloc);
        if !read_children(rt, bytes, tree, nodes.as_slice(), taken, &mut below) {
            return false;
        }
        nodes = below;
    }
    read_leaves(rt, bytes, tree, nodes.as_slice(), taken, entries)
}

/// Puts the children of these inner nodes at the end.
fn read_children(
    rt: &impl Abort,
    bytes: &[u8],
    tree: Tree,
    nodes: &[Node],
    taken: &mut [bool],
    below: &mut Vec<Node>,
) -> bool {
    let most = Tree::most(4076, tree.width.saturating_add(4));
    for node in nodes {
        match node_count(bytes, tree, *node, b'I', most, taken) {
            Some(count) if 1 <= count && push_children(rt, bytes, tree, *node, count, below) => {}
            _ => return false,
        }
    }
    true
}

/// Puts the entries of these leaves at the end.
fn read_leaves(
    rt: &impl Abort,
    bytes: &[u8],
    tree: Tree,
    nodes: &[Node],
    taken: &mut [bool],
    entries: &mut Vec<usize>,
) -> bool {
    let most = Tree::most(4080, tree.entry);
    for node in nodes {
        match node_count(bytes, tree, *node, b'L', most, taken) {
            Some(count) if push_entries(rt, bytes, tree, *node, count, entries) => {}
            _ => return false,
        }
    }
    true
}

/// Takes the page of a node of this kind, and answers how many entries or separators it has: so many at most,
/// and half of that but for the root.
fn node_count(
    bytes: &[u8],
    tree: Tree,
    node: Node,
    kind: u8,
    most: usize,
    taken: &mut [bool],
) -> Option<usize> {
    let page = page_start(node.page);
    let count = number(bytes, page.saturating_add(2), 2) as usize;
    let least = if node.is_root() { 0 } else { most / 2 };
    if take(taken, node.page)
        && is_node(bytes, page, kind, tree.key)
        && least <= count
        && count <= most
    {
        Some(count)
    } else {
        None
    }
}

/// Whether a page is a node of this kind, in the tree of a key.
fn is_node(bytes: &[u8], page: usize, kind: u8, key: u64) -> bool {
    number(bytes, page, 1) == u64::from(kind)
        && number(bytes, page.saturating_add(1), 1) == key
        && are_zero(bytes, page.saturating_add(4), 12)
}

/// Puts the children of an inner node at the end. Their separators rise.
fn push_children(
    rt: &impl Abort,
    bytes: &[u8],
    tree: Tree,
    node: Node,
    count: usize,
    nodes: &mut Vec<Node>,
) -> bool {
    let mut low = node.low;
    let mut at = page_start(node.page).saturating_add(16);
    for _ in 0..count {
        let high = at.saturating_add(4);
        if !tree.rises(bytes, low, high) || !tree.rises(bytes, high, node.high) {
            return false;
        }
        let page = number(bytes, at, 4);
        nodes.push(Node { page, low, high }).expect(rt, "memory");
        low = high;
        at = high.saturating_add(tree.width);
    }
    let page = number(bytes, at, 4);
    let high = node.high;
    nodes.push(Node { page, low, high }).expect(rt, "memory");
    true
}

/// Puts the entries of a leaf at the end. They rise.
fn push_entries(
    rt: &impl Abort,
    bytes: &[u8],
    tree: Tree,
    node: Node,
    count: usize,
    entries: &mut Vec<usize>,
) -> bool {
    let mut last = last_of(entries.as_slice());
    let mut at = page_start(node.page).saturating_add(16);
    for _ in 0..count {
        if !has(bytes, at, tree.entry)
            || !tree.is_from(bytes, at, node.low)
            || !tree.rises(bytes, at, node.high)
            || !tree.rises(bytes, last, at)
        {
            return false;
        }
        entries.push(at).expect(rt, "memory");
        last = at;
        at = at.saturating_add(tree.entry);
    }
    true
}

/// The last entry; 0 where there is none.
fn last_of(entries: &[usize]) -> usize {
    match entries.last() {
        Some(last) => *last,
        None => 0,
    }
}

//! A node one of whose children has too little.

ghost use Rattle.std.specs.Prelude.{◌≡◌, ◌≢◌, ◌+◌, ◌*◌, ◌<◌, ◌≤◌, ◌↔◌, IsTrue, IsSome, IfOk, OnOk, length};
ghost use Rattle.std.specs.Prelude.{slice_index};
ghost use Rattle.tree_node.specs.Inner.{IsInner, separators, children};
ghost use Rattle.pages.specs.PageCalls.{ReadsPages};
ghost use Rattle.tree_search.specs.LookUps.{WhenHonest};
ghost use Rattle.bplus_tree.specs.Changes.{CanWrite, WhereSound, Alters, GivesPages};
ghost use Rattle.tree_node.specs.Balance.{Balances};
ghost use Rattle.tree_node.specs.Fill.{least_entries};
ghost use Rattle.bplus_tree.specs.Rebalance.{EndsJoined, EndsShared, IsPairAt, ReadsPair, pair_bytes};
ghost use Rattle.bplus_tree.specs.Remove.{Rebalances};

use io_state::Fault;
use pages::{PAGE_SIZE, Pages, copy, store};
use tree_node::{InnerView, NodeShape, balance, is_inner};

/// Two children side by side: the number of the separator between them, and their pages.
#[derive(Clone, Copy)]
struct Pair {
    at: usize,
    lower: u32,
    upper: u32,
}

/// Child `place` of a node and a neighbour, where it has one.
fn pair_at(node: &[u8; PAGE_SIZE], shape: NodeShape, place: usize) -> Option<Pair>
    ensures { IsPairAt shape place node.now result }
{
    if !is_inner(node, shape) {
        return None;
    }
    let view = InnerView { page: node, shape };
    let count = view.count();
    if count == 0 {
        return None;
    }
    let at = place.min(count - 1);
    Some(Pair {
        at,
        lower: view.child(at),
        upper: view.child(at + 1),
    })
}

/// The second of two children has become part of the first.
fn end_joined<P: Pages>(
    pages: &mut P,
    page: u32,
    node: &[u8; PAGE_SIZE],
    pair: Pair,
    left: &[u8; PAGE_SIZE],
) -> Result<(), Fault>
    requires { CanWrite P.shown pages.old }
    ensures { Alters P.shown GivesPages 3 (EndsJoined page pair node.now left.now) pages.old pages.new
        result }
{
    store(pages, page, node)?;
    store(pages, pair.lower, left)?;
    pages.give(pair.upper)?;
    Ok(())
}

/// Two children have other entries, or other children.
fn end_shared<P: Pages>(
    pages: &mut P,
    page: u32,
    node: &[u8; PAGE_SIZE],
    pair: Pair,
    left: &[u8; PAGE_SIZE],
    right: &[u8; PAGE_SIZE],
) -> Result<(), Fault>
    requires { CanWrite P.shown pages.old }
    ensures { Alters P.shown GivesPages 3 (EndsShared page pair (pair_bytes node.now left.now
        right.now)) pages.old pages.new result }
{
    store(pages, page, node)?;
    store(pages, pair.lower, left)?;
    store(pages, pair.upper, right)?;
    Ok(())
}

/// Balances out the children of a node, with this many levels below them, where child `place` has
/// too little. The answer is whether the node has too little now.
pub fn rebalance<P: Pages>(
    pages: &mut P,
    shape: NodeShape,
    page: u32,
    levels: u8,
    place: usize,
) -> Result<bool, Fault>
    requires { CanWrite P.shown pages.old }
    ensures rebalanced { WhereSound P.shown pages.old pages.new (Rebalances shape levels page place result) }
    ensures writes { GivesPages P.shown 6 pages.old pages.new result }
{
    let mut node = [0; PAGE_SIZE];
    let mut left = [0; PAGE_SIZE];
    let mut right = [0; PAGE_SIZE];
    let pair = read_pair(pages, shape, page, place, &mut node, &mut left, &mut right)?;
    match balance(levels, &mut node, &mut left, &mut right, shape, pair.at) {
        None => Err(Fault::Damage),
        Some(true) => {
            let short = is_short(&node, shape);
            end_joined(pages, page, &node, pair, &left)?;
            Ok(short)
        }
        Some(false) => {
            let short = is_short(&node, shape);
            end_shared(pages, page, &node, pair, &left, &right)?;
            Ok(short)
        }
    }
}

/// Copies a node, its child `place`, and a neighbour of that one.
fn read_pair<P: Pages>(
    pages: &mut P,
    shape: NodeShape,
    page: u32,
    place: usize,
    node: &mut [u8; PAGE_SIZE],
    left: &mut [u8; PAGE_SIZE],
    right: &mut [u8; PAGE_SIZE],
) -> Result<Pair, Fault>
    requires ready { P.shown.IsReady pages.old }
    ensures inner { IfOk result (λ pair. IsInner shape node.new
        × (pair.at < length (separators shape node.new))) }
    ensures read { WhenHonest P.shown pages.old pages.new
        (ReadsPair shape page place (pair_bytes node.new left.new right.new) result) }
    ensures reads { ReadsPages P.shown 3 pages.old pages.new result }
{
    copy(pages, page, node)?;
    let Some(pair) = pair_at(node, shape, place) else {
        return Err(Fault::Damage);
    };
    copy(pages, pair.lower, left)?;
    copy(pages, pair.upper, right)?;
    Ok(pair)
}

/// An inner node has too little for one below another node.
fn is_short(node: &[u8; PAGE_SIZE], shape: NodeShape) -> bool
    requires inner { IsInner shape node.now }
    ensures { IsTrue result ↔ (length (separators shape node.now) < least_entries shape 1) }
{
    InnerView { page: node, shape }.count() < shape.inner_room() / 2
}

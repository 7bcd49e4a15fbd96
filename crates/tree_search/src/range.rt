//! The first entry of a range of keys, both ends of which belong to it.

ghost use Rattle.std.specs.Prelude.{◌≡◌, ◌+◌, ◌*◌, ◌≤◌, ◌++◌, List, IsTrue, IfOk, length};
ghost use Rattle.tree_node.specs.Inner.{IsInner, separators, children};
ghost use Rattle.tree_node.specs.Leaf.{IsLeaf, leaf_entries};
ghost use Rattle.tree_node.specs.Order.{less};
ghost use Rattle.pages.specs.PageCalls.{ReadsPages};
ghost use Rattle.tree_search.specs.LookUps.{WhenHonest, LooksUp, LooksBelow, LooksAcross};
ghost use Rattle.tree_search.specs.Range.{FindsBelow, FillsBelow, SeesBelow, SeesInLeaf, IsSightFrom};
ghost use Rattle.tree_search.specs.Range.{FillsFrontBelow, FillsFrontOfLeaf, HasFront, IsFork, Forks};
ghost use Rattle.tree_search.specs.Range.{IsUnended, AsksFewAtEnd, seen, alone};

use crate::descent::{StepDown, step_in};
use crate::search::first_child;
use crate::spot::fill;
use io_state::Fault;
use pages::{PAGE_SIZE, Pages};
use tree_node::{Entry, InnerView, LeafView, NodeShape, is_inner, is_leaf};

/// The first entry of a range, and whether the next entry of the tree is one of the range too.
#[derive(Drop)]
pub struct First {
    pub entry: Entry,
    pub followed: bool,
}

/// What a look below a page has come to, which fills the first entry of the range.
#[derive(Clone, Copy)]
pub enum Sight {
    /// The answer, whatever stands behind the page: none, or whether the next entry is of the range too.
    Answered(Option<bool>),
    /// The range goes on behind the page. Whether it has one entry below it.
    Unended(bool),
}

/// One step down to where a range begins, and whether what stands behind that child lies past the range.
#[derive(Clone, Copy)]
pub struct Fork {
    pub step: StepDown,
    pub past: bool,
}

/// The first entry whose key is not below `from` and not above `to` in a tree with `levels` levels
/// above its leaves, and whether the next entry is such a one too. The keys may have any length.
pub fn first_within<P: Pages>(
    pages: &mut P,
    shape: NodeShape,
    page: u32,
    levels: u8,
    from: &[u8],
    to: &[u8],
) -> Result<Option<First>, Fault>
    requires ready { P.shown.IsReady pages.old }
    ensures { LooksAcross P.shown levels (FindsBelow shape levels page from.now to.now) pages.old
        pages.new result }
{
    let mut entry = Entry::new();
    match fill_within(pages, shape, page, levels, from, to, &mut entry)? {
        Some(followed) => Ok(Some(First { entry, followed })),
        None => Ok(None),
    }
}

/// The same, where the entry goes to `entry`. The answer is whether the next entry is of the range
/// too, or none where no entry is.
fn fill_within<P: Pages>(
    pages: &mut P,
    shape: NodeShape,
    page: u32,
    levels: u8,
    from: &[u8],
    to: &[u8],
    entry: &mut Entry,
) -> Result<Option<bool>, Fault>
    requires ready { P.shown.IsReady pages.old }
    ensures { LooksAcross P.shown levels (FillsBelow shape levels page from.now to.now entry.new)
        pages.old pages.new result }
{
    match look_below(pages, shape, page, levels, from, to, entry)? {
        Sight::Answered(found) => Ok(found),
        Sight::Unended(here) => Ok(alone(here)),
    }
}

/// Looks for a range in a tree with `levels` levels above its leaves.
fn look_below<P: Pages>(
    pages: &mut P,
    shape: NodeShape,
    page: u32,
    levels: u8,
    from: &[u8],
    to: &[u8],
    entry: &mut Entry,
) -> Result<Sight, Fault>
    requires ready { P.shown.IsReady pages.old }
    ensures sight { WhenHonest P.shown pages.old pages.new
        (SeesBelow shape levels page from.now to.now entry.new result) }
    ensures open { AsksFewAtEnd P.shown levels pages.old pages.new result }
    ensures reads { ReadsPages P.shown (2 * (levels + 1)) pages.old pages.new result }
{
    if levels == 0 {
        return look_in_leaf(pages, shape, page, from, to, entry);
    }
    let fork = fork_at(pages, shape, page, from, to)?;
    let here = match look_below(pages, shape, fork.step.child, levels - 1, from, to, entry)? {
        Sight::Answered(found) => return Ok(Sight::Answered(found)),
        Sight::Unended(here) => here,
    };
    if fork.past {
        return Ok(Sight::Answered(alone(here)));
    }
    if fork.step.place >= fork.step.count {
        return Ok(Sight::Unended(here));
    }
    if here {
        let followed = has_front(pages, shape, fork.step.next, levels - 1, to)?;
        return Ok(Sight::Answered(Some(followed)));
    }
    let front = front_below(pages, shape, fork.step.next, levels - 1, to, entry)?;
    Ok(Sight::Answered(front))
}

/// Looks for a range in a leaf.
fn look_in_leaf<P: Pages>(
    pages: &mut P,
    shape: NodeShape,
    page: u32,
    from: &[u8],
    to: &[u8],
    entry: &mut Entry,
) -> Result<Sight, Fault>
    requires ready { P.shown.IsReady pages.old }
    ensures { LooksUp P.shown 1 (SeesInLeaf shape page from.now to.now entry.new) pages.old pages.new result }
{
    let bytes = pages.page(page)?;
    if !is_leaf(bytes, shape) {
        return Err(Fault::Damage);
    }
    let leaf = LeafView { page: bytes, shape };
    Ok(look_from(bytes, shape, leaf.rank(from), to, entry))
}

/// Looks at the entries of a leaf from a place on, those in front of which come before the range.
fn look_from(
    page: &[u8; PAGE_SIZE],
    shape: NodeShape,
    place: usize,
    to: &[u8],
    entry: &mut Entry,
) -> Sight
    requires leaf { IsLeaf shape page.now }
    ensures sight { IsSightFrom shape.width place to.now (leaf_entries shape page.now)
        (seen entry.new result) }
    ensures open { IsUnended result → length (leaf_entries shape page.now) ≤ place + 1 }
{
    let leaf = LeafView { page, shape };
    let count = leaf.count();
    if place >= count {
        return Sight::Unended(false);
    }
    if is_past(leaf.key(place), to) {
        return Sight::Answered(None);
    }
    fill(entry, leaf.entry(place));
    if place + 1 >= count {
        return Sight::Unended(true);
    }
    let followed = !is_past(leaf.key(place + 1), to);
    Sight::Answered(Some(followed))
}

/// One step down to where a range begins.
fn fork_at<P: Pages>(
    pages: &mut P,
    shape: NodeShape,
    page: u32,
    from: &[u8],
    to: &[u8],
) -> Result<Fork, Fault>
    requires ready { P.shown.IsReady pages.old }
    ensures { LooksUp P.shown 1 (λ live. Forks shape live page from.now to.now) pages.old pages.new result }
{
    let bytes = pages.page(page)?;
    if !is_inner(bytes, shape) {
        return Err(Fault::Damage);
    }
    Ok(fork_in(bytes, shape, from, to))
}

/// The same step from the bytes of an inner node.
fn fork_in(page: &[u8; PAGE_SIZE], shape: NodeShape, from: &[u8], to: &[u8]) -> Fork
    requires inner { IsInner shape page.now }
    ensures { IsFork shape.width from.now to.now (separators shape page.now)
        (children shape page.now) result }
{
    let step = step_in(page, shape, from);
    let node = InnerView { page, shape };
    let past = step.place < step.count && is_past(node.separator(step.place), to);
    Fork { step, past }
}

/// The range in the front of a tree that is no root and has no entry below the range. Its first
/// entry goes to `entry`.
fn front_below<P: Pages>(
    pages: &mut P,
    shape: NodeShape,
    page: u32,
    levels: u8,
    to: &[u8],
    entry: &mut Entry,
) -> Result<Option<bool>, Fault>
    requires ready { P.shown.IsReady pages.old }
    ensures { LooksBelow P.shown levels (FillsFrontBelow shape levels page to.now entry.new) pages.old
        pages.new result }
{
    if levels == 0 {
        return front_of_leaf(pages, shape, page, to, entry);
    }
    let child = first_child(pages, shape, page)?;
    front_below(pages, shape, child, levels - 1, to, entry)
}

/// Whether such a tree has an entry of the range.
fn has_front<P: Pages>(
    pages: &mut P,
    shape: NodeShape,
    page: u32,
    levels: u8,
    to: &[u8],
) -> Result<bool, Fault>
    requires ready { P.shown.IsReady pages.old }
    ensures { LooksBelow P.shown levels (λ live. HasFront shape live levels page to.now) pages.old
        pages.new result }
{
    let mut entry = Entry::new();
    let front = front_below(pages, shape, page, levels, to, &mut entry)?;
    Ok(front.is_some())
}

/// The range in the front of a leaf, which has two entries at least.
fn front_of_leaf<P: Pages>(
    pages: &mut P,
    shape: NodeShape,
    page: u32,
    to: &[u8],
    entry: &mut Entry,
) -> Result<Option<bool>, Fault>
    requires ready { P.shown.IsReady pages.old }
    ensures { LooksUp P.shown 1 (FillsFrontOfLeaf shape page to.now entry.new) pages.old pages.new result }
{
    let bytes = pages.page(page)?;
    if !is_leaf(bytes, shape) {
        return Err(Fault::Damage);
    }
    match look_from(bytes, shape, 0, to, entry) {
        Sight::Answered(found) => Ok(found),
        Sight::Unended(_) => Err(Fault::Damage),
    }
}

/// What is told of a range that has one entry, or none.
fn alone(here: bool) -> Option<bool>
    ensures { result ≡ alone here }
{
    if here { Some(false) } else { None }
}

/// The key comes after the other one.
fn is_past(key: &[u8], to: &[u8]) -> bool
    ensures { result ≡ less to.now key.now }
{
    to.cmp(key).is_lt()
}

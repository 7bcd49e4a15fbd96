//! How many entries of a tree have one value at most, where equal values stand together.

ghost use Rattle.std.specs.Prelude.{◌≡◌, ◌≤◌, ◌↔◌, [], ◌∷◌, IfErr, IfOk, Some, IsTrue, option_map};
ghost use Rattle.pages.specs.Each.{Each};
ghost use Rattle.pages.specs.Refused.{RefusesRightly};
ghost use Rattle.pages.specs.Source.{KeepsItsPages, OfItsPages};
ghost use Rattle.tree_node.specs.Leaf.{IsLeaf, leaf_entries};
ghost use Rattle.page_walks.specs.Rows.{IsLeafIn};
ghost use Rattle.page_walks.specs.Runs.{values_of, IsLongestRun, TakesValues, TreesKeepTogether};

use crate::node_page::leaf_page;
use pages::{PAGE_SIZE, PageSource, WalkFault};
use std::alloc::Global;
use tree_node::{LeafView, NodeShape};

/// The values so far: the last one, how many of them are equal to it, and how many are equal to one
/// another at most.
#[derive(Drop)]
struct Run {
    last: Option<Vec<u8>>,
    length: u64,
    longest: u64,
}

/// The value is the last one.
fn is_last(last: &Option<Vec<u8>>, value: &[u8]) -> bool
    ensures { IsTrue result ↔ (option_map (λ bytes. bytes.items) last.now ≡ Some value.now) }
{
    match last {
        Some(last) => last.as_slice() == value,
        None => false,
    }
}

/// The value, in the memory of the last one.
fn kept(alloc: Global, last: Option<Vec<u8>>, value: &[u8]) -> Result<Vec<u8>, WalkFault>
    ensures kept { IfOk result (λ bytes. bytes.items ≡ value.now) }
    ensures memory { IfErr result (λ fault. fault ≡ WalkFault.Memory) }
{
    let mut bytes = match last {
        Some(bytes) => bytes,
        None => Vec::new(alloc),
    };
    bytes.clear();
    match bytes.extend_from_slice(value) {
        Ok(()) => Ok(bytes),
        Err(_) => Err(WalkFault::Memory),
    }
}

/// The values so far with one more.
fn with_value(alloc: Global, run: Run, value: &[u8]) -> Result<Run, WalkFault>
    ensures taken { IfOk result (TakesValues (value.now ∷ []) run) }
    ensures memory { IfErr result (λ fault. fault ≡ WalkFault.Memory) }
{
    let length = if is_last(&run.last, value) {
        run.length.saturating_add(1)
    } else {
        1
    };
    let longest = run.longest.max(length);
    Ok(Run {
        last: Some(kept(alloc, run.last, value)?),
        length,
        longest,
    })
}

/// The values so far with those of a leaf's entries, so many bytes of each.
fn with_leaf(
    alloc: Global,
    run: Run,
    page: &[u8; PAGE_SIZE],
    shape: NodeShape,
    width: u16,
) -> Result<Run, WalkFault>
    requires leaf { IsLeaf shape page.now }
    requires narrow { width ≤ shape.entry }
    ensures taken { IfOk result (TakesValues (values_of width (leaf_entries shape page.now)) run) }
    ensures memory { IfErr result (λ fault. fault ≡ WalkFault.Memory) }
{
    let leaf = LeafView { page, shape };
    let mut run = run;
    for i in 0..leaf.count() {
        run = with_value(alloc, run, &leaf.entry(i)[..width as usize])?;
    }
    Ok(run)
}

/// How many entries of leaves have one value at most. A value has so many bytes, with which an entry
/// begins. Each leaf is asked for once. Memory; Node: one of them is no leaf.
pub fn longest_run<P: PageSource>(
    alloc: Global,
    pages: &mut P,
    shape: NodeShape,
    width: u16,
    leaves: &[u32],
) -> Result<u64, WalkFault>
    requires narrow { width ≤ shape.entry }
    ensures counted { OfItsPages P.has pages.new
        (λ list. IfOk result (IsLongestRun shape width list leaves.now)) }
    ensures refused { OfItsPages P.has pages.new
        (λ list. IfErr result (RefusesRightly (Each (IsLeafIn shape list) leaves.now))) }
    ensures before { KeepsItsPages P.has pages.old pages.new }
{
    let mut run = Run {
        last: None,
        length: 0,
        longest: 0,
    };
    for &n in leaves {
        let page = leaf_page(pages, shape, n)?;
        run = with_leaf(alloc, run, &page, shape, width)?;
    }
    Ok(run.longest)
}

/// The law of runs: a tree keeps equal values together. It does nothing.
pub fn run_laws()
    ensures { TreesKeepTogether }
{}

//! The root after a removal.

ghost use Rattle.std.specs.Prelude.{◌≡◌, ◌<◌, ◌≤◌, IsTrue, IfOk};
ghost use Rattle.tree_search.specs.LookUps.{LooksUp};
ghost use Rattle.bplus_tree.specs.Changes.{CanWrite, WhereSound, Alters, GivesPages};
ghost use Rattle.bplus_tree.specs.Collapse.{Sees, CollapsesInner, Collapses};

use io_state::Fault;
use pages::Pages;
use tree_node::{InnerView, NodeShape, is_inner};

/// A root, and how many levels are above the leaves.
#[derive(Clone, Copy)]
pub struct RootLevel {
    pub(crate) root: u32,
    pub(crate) levels: u8,
}

/// Gives the root back where it has one child only, which is the root then.
pub fn collapse<P: Pages>(
    pages: &mut P,
    shape: NodeShape,
    root: u32,
    levels: u8,
) -> Result<RootLevel, Fault>
    requires { CanWrite P.shown pages.old }
    ensures alters { Alters P.shown GivesPages 2 (Collapses shape levels root) pages.old pages.new
        result }
    ensures height { IfOk result (λ base. base.levels ≤ levels) }
{
    if levels == 0 {
        return Ok(RootLevel { root, levels });
    }
    match collapse_inner(pages, shape, root)? {
        None => Ok(RootLevel { root, levels }),
        Some(child) => Ok(RootLevel {
            root: child,
            levels: levels - 1,
        }),
    }
}

/// Gives an inner node back that has one child only, and answers the child.
fn collapse_inner<P: Pages>(
    pages: &mut P,
    shape: NodeShape,
    page: u32,
) -> Result<Option<u32>, Fault>
    requires { CanWrite P.shown pages.old }
    ensures inner_collapsed { WhereSound P.shown pages.old pages.new (CollapsesInner shape page result) }
    ensures writes { GivesPages P.shown 2 pages.old pages.new result }
{
    match only_child(pages, shape, page)? {
        None => Ok(None),
        Some(child) => {
            pages.give(page)?;
            Ok(Some(child))
        }
    }
}

/// The child of an inner node that has no separator.
fn only_child<P: Pages>(pages: &mut P, shape: NodeShape, page: u32) -> Result<Option<u32>, Fault>
    requires ready { P.shown.IsReady pages.old }
    ensures { LooksUp P.shown 1 (λ live. Sees shape live page) pages.old pages.new result }
{
    let bytes = pages.page(page)?;
    if !is_inner(bytes, shape) {
        return Err(Fault::Damage);
    }
    let node = InnerView { page: bytes, shape };
    if node.count() > 0 {
        return Ok(None);
    }
    Ok(Some(node.child(0)))
}

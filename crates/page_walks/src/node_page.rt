//! The pages of a source that have to be nodes of a tree.

ghost use Rattle.std.specs.Prelude.{◌≡◌, IfErr, IfOk, Some};
ghost use Rattle.tree_node.specs.Leaf.{IsLeaf};
ghost use Rattle.tree_node.specs.Inner.{IsInner};
ghost use Rattle.pages.specs.PageList.{pages_in};
ghost use Rattle.pages.specs.Refused.{RefusesRightly};
ghost use Rattle.pages.specs.Source.{KeepsItsPages, OfItsPages};
ghost use Rattle.page_walks.specs.Rows.{IsInnerIn, IsLeafIn};

use pages::{Damage, PAGE_SIZE, PageSource, WalkFault};
use tree_node::{NodeShape, is_inner, is_leaf};

/// The leaf that page n is. Node: it is none.
pub fn leaf_page<P: PageSource>(
    pages: &mut P,
    shape: NodeShape,
    n: u32,
) -> Result<[u8; PAGE_SIZE], WalkFault>
    ensures leaf { IfOk result (IsLeaf shape) }
    ensures there { OfItsPages P.has pages.new (λ list. IfOk result (λ page. pages_in list n ≡ Some page)) }
    ensures refused { OfItsPages P.has pages.new
        (λ list. IfErr result (RefusesRightly (IsLeafIn shape list n))) }
    ensures before { KeepsItsPages P.has pages.old pages.new }
{
    match pages.page(n) {
        Some(page) if is_leaf(&page, shape) => Ok(page),
        _ => Err(WalkFault::of_page(Damage::Node, n)),
    }
}

/// The inner node that page n is. Node: it is none.
pub fn inner_page<P: PageSource>(
    pages: &mut P,
    shape: NodeShape,
    n: u32,
) -> Result<[u8; PAGE_SIZE], WalkFault>
    ensures inner { IfOk result (IsInner shape) }
    ensures there { OfItsPages P.has pages.new (λ list. IfOk result (λ page. pages_in list n ≡ Some page)) }
    ensures refused { OfItsPages P.has pages.new
        (λ list. IfErr result (RefusesRightly (IsInnerIn shape list n))) }
    ensures before { KeepsItsPages P.has pages.old pages.new }
{
    match pages.page(n) {
        Some(page) if is_inner(&page, shape) => Ok(page),
        _ => Err(WalkFault::of_page(Damage::Node, n)),
    }
}

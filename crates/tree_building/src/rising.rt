//! The levels above the leaves.

ghost use Rattle.std.specs.Prelude.{◌≡◌, ◌≤◌, ◌<◌, ◌+◌, ◌*◌, IfOk, length};
ghost use Rattle.tree_node.specs.Inner.{inner_room};
ghost use Rattle.bplus_tree.specs.Changes.{CanWrite, WhereSound};
ghost use Rattle.tree_building.specs.Level.{HaveWidth};
ghost use Rattle.tree_building.specs.Fresh.{TakesNewPages, WhereCounted};
ghost use Rattle.tree_building.specs.Rising.{Rises, Roots, AreFewAt};

use crate::nodes::add_node;
use crate::sharing::share;
use io_state::Fault;
use pages::Pages;
use std::alloc::Global;
use tree_node::{NodeShape, Separator};

/// The root of a tree, and how many levels are above its leaves.
#[derive(Clone, Copy)]
pub struct BuiltRoot {
    pub root: u32,
    pub levels: u8,
}

/// Writes a level of inner nodes over these nodes, which are more than one of them has room for.
fn add_level<P: Pages>(
    alloc: Global,
    pages: &mut P,
    shape: NodeShape,
    nodes: &[Separator],
) -> Result<Vec<Separator>, Fault>
    requires pages { CanWrite P.shown pages.old }
    requires many { inner_room shape + 1 < length nodes.now }
    requires width { HaveWidth shape nodes.now }
    ensures rises { WhereSound P.shown pages.old pages.new (Rises shape nodes.now result) }
    ensures width { IfOk result (λ above. HaveWidth shape above.items) }
    ensures several { IfOk result (λ above. 2 ≤ length above.items) }
    ensures fewer { IfOk result (λ above. 16 * length above.items ≤ length nodes.now + 16) }
    ensures takes { TakesNewPages P.shown pages.old pages.new result }
    ensures taken { IfOk result (λ above. (P.shown.state pages.new).available + length above.items
        ≡ (P.shown.state pages.old).available) }
{
    let room = shape.inner_room() + 1;
    let mut above = Vec::new(alloc);
    let mut at = 0;
    while at < nodes.len() {
        let end = at + share(nodes.len() - at, room);
        add_node(pages, shape, &nodes[at..end], &mut above)?;
        at = end;
    }
    Ok(above)
}

/// Writes the levels over these nodes, up to one node over all.
pub fn add_root<P: Pages>(
    alloc: Global,
    pages: &mut P,
    shape: NodeShape,
    levels: u8,
    nodes: &[Separator],
) -> Result<BuiltRoot, Fault>
    requires pages { CanWrite P.shown pages.old }
    requires several { 2 ≤ length nodes.now }
    requires low { levels ≤ 16 }
    requires few { AreFewAt levels nodes.now }
    requires width { HaveWidth shape nodes.now }
    ensures roots { WhereCounted P.shown pages.old pages.new (Roots shape nodes.now levels result) }
    ensures low { IfOk result (λ base. base.levels < 20) }
    ensures takes { TakesNewPages P.shown pages.old pages.new result }
{
    if nodes.len() > shape.inner_room() + 1 {
        let above = add_level(alloc, pages, shape, nodes)?;
        return add_root(alloc, pages, shape, levels + 1, &above);
    }
    let mut top = Vec::new(alloc);
    add_node(pages, shape, nodes, &mut top)?;
    Ok(BuiltRoot {
        root: top[0].child,
        levels: levels + 1,
    })
}

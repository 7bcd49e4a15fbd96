//! An inner node over nodes that come in order.

ghost use Rattle.std.specs.Prelude.{◌≡◌, ◌≤◌, ◌+◌, ◌++◌, ◌∷◌, [], OnOk, OnErr, IsOkUnless, length};
ghost use Rattle.tree_node.specs.Inner.{separators, children, InnerHas};
ghost use Rattle.bplus_tree.specs.Changes.{CanWrite, WhereSound};
ghost use Rattle.tree_building.specs.Level.{keys_of, leads_to, HaveWidth};
ghost use Rattle.tree_building.specs.Fresh.{TakesExactly, TakesNewPages};
ghost use Rattle.tree_building.specs.Nodes.{CanStandBelow, IsNodeOver, AddsNode, CanStandBehind, CanStandInOne};

use crate::fresh_page::put_page;
use io_state::Fault;
use pages::{PAGE_SIZE, Pages};
use tree_node::{InnerView, InnerViewMut, NodeShape, Separator, TreeKey, write_inner};

/// Puts a separator behind those of an inner node, and the child to its right.
fn push_child(page: &mut [u8; PAGE_SIZE], shape: NodeShape, node: &Separator)
    requires { CanStandBehind shape node.now page.old }
    ensures { InnerHas shape page.new (separators shape page.old ++ node.now.key.items ∷ [])
        (children shape page.old ++ node.now.child ∷ []) }
{
    let count = InnerView { page, shape }.count();
    InnerViewMut { page, shape }.insert_at(count, &node.key, node.child);
}

/// Makes the page an inner node with this first child and these nodes behind it.
fn write_over(page: &mut [u8; PAGE_SIZE], shape: NodeShape, first: u32, rest: &[Separator])
    requires { CanStandInOne shape rest.now }
    ensures { InnerHas shape page.new (keys_of rest.now) (first ∷ leads_to rest.now) }
{
    write_inner(page, shape, first);
    for node in rest {
        push_child(page, shape, node);
    }
}

/// A tree key with these bytes.
pub fn tree_key(bytes: &[u8]) -> TreeKey
    requires { length bytes.now ≤ 258 }
    ensures { result.items ≡ bytes.now }
{
    let mut key = TreeKey::new();
    let _ = key.try_extend_from_slice(bytes);
    key
}

/// Adds a node, which has this first key and stands in this page.
pub fn push_node(nodes: &mut Vec<Separator>, key: &[u8], child: u32) -> Result<(), Fault>
    requires { length key.now ≤ 258 }
    ensures keys { OnOk result (keys_of nodes.new.items ≡ keys_of nodes.old.items ++ key.now ∷ []) }
    ensures leads { OnOk result (leads_to nodes.new.items ≡ leads_to nodes.old.items ++ child ∷ []) }
    ensures only_memory { IsOkUnless result Fault.Memory }
    ensures err { OnErr result (nodes.new.items ≡ nodes.old.items) }
{
    let key = tree_key(key);
    nodes
        .push(Separator { key, child })
        .map_err(|_| Fault::Memory)
}

/// Writes an inner node over these nodes to a page that was not in use, and adds it to those beside
/// it.
///
/// Full where no page is available, and Memory.
pub fn add_node<P: Pages>(
    pages: &mut P,
    shape: NodeShape,
    group: &[Separator],
    beside: &mut Vec<Separator>,
) -> Result<(), Fault>
    requires pages { CanWrite P.shown pages.old }
    requires group { CanStandBelow shape group.now }
    ensures adds { WhereSound P.shown pages.old pages.new (AddsNode shape group.now beside.old.items
        beside.new.items result) }
    ensures one { OnOk result (length beside.new.items ≡ length beside.old.items + 1) }
    ensures width { OnOk result (HaveWidth shape beside.old.items → HaveWidth shape beside.new.items) }
    ensures takes { TakesNewPages P.shown pages.old pages.new result }
    ensures taken { TakesExactly P.shown 1 pages.old pages.new result }
{
    let mut bytes = [0; PAGE_SIZE];
    write_over(&mut bytes, shape, group[0].child, &group[1..]);
    let child = put_page(pages, &bytes)?;
    push_node(beside, &group[0].key, child)
}

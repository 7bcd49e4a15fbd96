//! The order of a node's keys.

ghost use Rattle.std.specs.Prelude.{◌≡◌, ◌↔◌, IfErr, IsTrue, OnErr, OnOk};
ghost use Rattle.std.specs.Option.{option_copied};
ghost use Rattle.tree_node.specs.Leaf.{IsLeaf, leaf_entries};
ghost use Rattle.tree_node.specs.Inner.{IsInner, separators};
ghost use Rattle.tree_node.specs.Order.{less, Ascends};
ghost use Rattle.tree_search.specs.Tree.{NotBelow, Above, Below};
ghost use Rattle.page_walks.specs.Order.{AreSeparatorsBetween, AreLeafKeysInside};
ghost use Rattle.page_walks.specs.Order.{IsLeafKeyAstray, IsSeparatorAstray};

use pages::PAGE_SIZE;
use tree_node::{InnerView, LeafView, NodeShape};

/// The bytes `a` come before the bytes `b`.
fn is_below(a: &[u8], b: &[u8]) -> bool
    ensures { result ≡ less a.now b.now }
{
    a.cmp(b).is_lt()
}

/// The key is below this one, if there is one.
fn is_under(key: &[u8], high: Option<&[u8]>) -> bool
    ensures { IsTrue result ↔ Below (option_copied high.entry) key.now }
{
    match high {
        Some(high) => is_below(key, high),
        None => true,
    }
}

/// The key is above this one, if there is one.
fn is_over(key: &[u8], low: Option<&[u8]>) -> bool
    ensures { IsTrue result ↔ Above (option_copied low.entry) key.now }
{
    match low {
        Some(low) => is_below(low, key),
        None => true,
    }
}

/// The key is not below this one, if there is one.
fn is_from(key: &[u8], low: Option<&[u8]>) -> bool
    ensures { IsTrue result ↔ NotBelow (option_copied low.entry) key.now }
{
    match low {
        Some(low) => !is_below(key, low),
        None => true,
    }
}

/// Checks that the keys of a leaf rise, from the low bound on and below the high one. Else answers
/// the last entry whose key is not below the key or the bound behind it, or entry 0 where its key
/// is below the low bound.
pub fn check_keys(
    page: &[u8; PAGE_SIZE],
    shape: NodeShape,
    low: Option<&[u8]>,
    high: Option<&[u8]>,
) -> Result<(), u32>
    requires leaf { IsLeaf shape page.now }
    ensures rises { OnOk result (Ascends shape.width (leaf_entries shape page.now)) }
    ensures inside { OnOk result (AreLeafKeysInside shape page.now low.entry high.entry) }
    ensures refused { OnErr result (Ascends shape.width (leaf_entries shape page.now)
        → AreLeafKeysInside shape page.now low.entry high.entry → ⊥) }
    ensures told { IfErr result (λ i. IsLeafKeyAstray shape page.now low.entry high.entry i) }
{
    let leaf = LeafView { page, shape };
    let mut above = high;
    let mut i = leaf.count();
    'keys: while i > 0 {
        let key = leaf.key(i - 1);
        if !is_under(key, above) {
            return Err((i - 1) as u32);
        }
        above = Some(key);
        i -= 1;
    }
    if leaf.count() == 0 {
        return Ok(());
    }
    if !is_from(leaf.key(0), low) {
        return Err(0);
    }
    Ok(())
}

/// Checks that the separators of an inner node rise between the bounds. Else answers the last that
/// is not below the separator or the bound behind it, or separator 0 where it is not above the low
/// bound.
pub fn check_separators(
    page: &[u8; PAGE_SIZE],
    shape: NodeShape,
    low: Option<&[u8]>,
    high: Option<&[u8]>,
) -> Result<(), u32>
    requires inner { IsInner shape page.now }
    ensures rises { OnOk result (Ascends shape.width (separators shape page.now)) }
    ensures between { OnOk result (AreSeparatorsBetween shape page.now low.entry high.entry) }
    ensures refused { OnErr result (Ascends shape.width (separators shape page.now)
        → AreSeparatorsBetween shape page.now low.entry high.entry → ⊥) }
    ensures told { IfErr result (λ i. IsSeparatorAstray shape page.now low.entry high.entry i) }
{
    let node = InnerView { page, shape };
    let mut above = high;
    let mut i = node.count();
    'keys: while i > 0 {
        let key = node.separator(i - 1);
        if !is_under(key, above) {
            return Err((i - 1) as u32);
        }
        above = Some(key);
        i -= 1;
    }
    if node.count() == 0 {
        return Ok(());
    }
    if !is_over(node.separator(0), low) {
        return Err(0);
    }
    Ok(())
}

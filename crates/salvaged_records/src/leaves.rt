//! The entries in the leaves of the prime key that have one of some values.
ghost use Rattle.std.specs.Prelude.{◌≡◌, ◌≤◌, ◌^◌, ◌∷◌, [], length, filter, IfOk, OnOk};
ghost use Rattle.pages.specs.Source.{KeepsItsPages, OfItsPages};
ghost use Rattle.tree_node.specs.LeafView.{view_entries};
ghost use Rattle.record_layout.specs.Schema.{IsKey};
ghost use Rattle.salvaged_records.specs.Leaves.{leaf_entries_in, entries_of_page, is_leaf_page, IsPrimeShape};
ghost use Rattle.salvaged_records.specs.Leaves.{is_entry_of};
ghost use Rattle.salvaged_records.specs.Values.{AddsValues, HasValues};

use crate::values::{ValuesInOrder, add_value, has_value, no_values};
use crate::visiting::MOST_PAGES;
use pages::{PAGE_SIZE, PageSource};
use record_layout::KeyPart;
use std::alloc::{AllocError, Global};
use tree_node::{LeafView, NodeShape, is_leaf};

/// The bytes of a place in an entry: page and slot.
const PLACE: u16 = 6;

/// What the nodes of the tree of the prime key have in common.
pub fn prime_shape(prime: KeyPart, least: u16) -> NodeShape
    requires { IsKey least prime }
    ensures { IsPrimeShape prime result }
{
    NodeShape {
        key: 0,
        width: prime.length,
        entry: prime.length + PLACE,
    }
}

/// Whether a page is a leaf.
fn is_leaf_page(page: &[u8; PAGE_SIZE], shape: NodeShape) -> bool
    ensures { result ≡ is_leaf_page shape page.now }
{
    is_leaf(page, shape)
}

/// Whether an entry has one of these values.
fn is_entry_of(values: &ValuesInOrder, entry: &[u8]) -> bool
    ensures { result ≡ is_entry_of values.now entry.now }
{
    has_value(values, &entry[..entry.len().saturating_sub(6)])
}

/// Adds an entry, where it has one of these values.
fn add_entry(
    alloc: Global,
    entries: &mut ValuesInOrder,
    values: &ValuesInOrder,
    entry: &[u8],
) -> Result<(), AllocError>
    ensures { OnOk result (AddsValues entries.old entries.new (filter (is_entry_of values.now) (entry.now ∷ []))) }
{
    if is_entry_of(values, entry) {
        return add_value(alloc, entries, entry);
    }
    Ok(())
}

#[tactic(auto, using(crate::proofs::EntryLemmas::adds_none))]
/// Adds those entries of a leaf that have one of these values.
fn add_entries(
    alloc: Global,
    entries: &mut ValuesInOrder,
    values: &ValuesInOrder,
    leaf: LeafView<'_>,
) -> Result<(), AllocError>
    ensures { OnOk result (AddsValues entries.old entries.new
        (filter (is_entry_of values.now) (view_entries leaf.entry))) }
{
    for i in 0..leaf.count() {
        add_entry(alloc, entries, values, leaf.entry(i))?;
    }
    Ok(())
}

/// Adds those entries of a page that have one of these values, if it is a leaf.
fn add_page(
    alloc: Global,
    entries: &mut ValuesInOrder,
    values: &ValuesInOrder,
    page: &[u8; PAGE_SIZE],
    shape: NodeShape,
) -> Result<(), AllocError>
    ensures { OnOk result (AddsValues entries.old entries.new
        (filter (is_entry_of values.now) (entries_of_page shape page.now))) }
{
    if !is_leaf_page(page, shape) {
        return Ok(());
    }
    add_entries(alloc, entries, values, LeafView { page, shape })
}

/// The entries of all pages that are leaves of a tree, but only those that have one of these values.
pub fn leaf_entries<P: PageSource>(
    alloc: Global,
    pages: &mut P,
    shape: NodeShape,
    values: &ValuesInOrder,
) -> Result<ValuesInOrder, AllocError>
    requires few { OfItsPages P.has pages.old (λ list. length list ≤ 2 ^ 32) }
    ensures entries { OfItsPages P.has pages.new
        (λ list. IfOk result (λ set. HasValues set (filter (is_entry_of values.now) (leaf_entries_in shape list)))) }
    ensures before { KeepsItsPages P.has pages.old pages.new }
{
    let mut entries = no_values(alloc);
    for n in 0..MOST_PAGES {
        let Some(page) = pages.page(n as u32) else {
            return Ok(entries);
        };
        add_page(alloc, &mut entries, values, &page, shape)?;
    }
    Ok(entries)
}

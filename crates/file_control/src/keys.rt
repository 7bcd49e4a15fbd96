//! The keys of a file, as its entry names them.
ghost use Rattle.std.specs.Prelude.{◌≡◌, map, Some};
ghost use Rattle.std.specs.List.{list_any, list_all};
ghost use Rattle.record_layout.specs.Layout.{entry_of_item, is_named, is_name_of};
ghost use Rattle.record_layout.specs.SchemaFault.{clause_of};
ghost use Rattle.file_control.specs.Checks.{are_named, are_keys_named};

use deck_entries::FileControlEntry;
use io_state::Name;
use record_layout::Item;

fn is_called(item: &Item, name: &[u8]) -> bool
    ensures { result ≡ is_named name.now (entry_of_item item.now).name }
{
    match &item.name {
        Some(own) => own.as_str().as_bytes() == name,
        None => false,
    }
}

fn some_called(items: &[Item], name: &[u8]) -> bool
    ensures { result ≡ list_any (λ item. is_named name.now (entry_of_item item).name) items.now }
{
    items.iter().any(|item| is_called(item, name))
}

/// Whether one of the items has this name.
#[tactic(auto, using(deck_parser::proofs::ClassLemmas::any_of_map))]
fn is_item(items: &[Item], name: &[u8]) -> bool
    ensures { result ≡ is_name_of (map entry_of_item items.now) (Some name.now) }
{
    some_called(items, name)
}

fn are_items(items: &[Item], keys: &[(Name, bool)]) -> bool
    ensures { result ≡ list_all (λ key. is_name_of (map entry_of_item items.now) (Some (clause_of key).name))
        keys.now }
{
    keys.iter()
        .all(|key| is_item(items, key.0.as_str().as_bytes()))
}

/// Whether each of the alternate keys is an item.
#[tactic(auto, using(crate::proofs::NameLemmas::all_of_map))]
fn are_alternates_named(items: &[Item], keys: &[(Name, bool)]) -> bool
    ensures { result ≡ are_named (map entry_of_item items.now) (map clause_of keys.now) }
{
    are_items(items, keys)
}

/// Which key is the first that is no item: 0 is the RECORD KEY, and from 1 on there are the alternate
/// keys.
pub fn first_unnamed(items: &[Item], entry: &FileControlEntry) -> usize {
    if !is_item(items, entry.record_key.as_str().as_bytes()) {
        return 0;
    }
    let mut alternates = entry.alternate_keys.as_slice().iter();
    match alternates.position(|key| !is_item(items, key.0.as_str().as_bytes())) {
        Some(key) => key.saturating_add(1),
        None => 0,
    }
}

/// Whether each key is an item.
pub fn are_keys_named(items: &[Item], entry: &FileControlEntry) -> bool
    ensures { result ≡ are_keys_named (map entry_of_item items.now) entry.now }
{
    is_item(items, entry.record_key.as_str().as_bytes())
        && are_alternates_named(items, entry.alternate_keys.as_slice())
}

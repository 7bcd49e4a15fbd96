//! The name of a key.
ghost use Rattle.std.specs.Prelude.{◌≡◌, map, find, option_map};
ghost use Rattle.record_layout.specs.Layout.{item_of};
ghost use Rattle.deck_listing.specs.Lines.{is_key_item, key_name};

use crate::lines::item_name;
use record_layout::{KeyPart, Placed};

fn is_key_item(key: &KeyPart, item: &Placed) -> bool
    ensures { result ≡ is_key_item key.now (item_of item.now) }
{
    item.name.is_some() && item.field.offset == key.offset && item.field.length == key.length
}

/// The first item with a name that is the very bytes of a key.
fn key_item<'a>(items: &'a [Placed], key: &KeyPart) -> Option<&'a Placed>
    ensures { option_map (λ item. item.now) result ≡ find
        (λ item. is_key_item key.now (item_of item)) items.now }
{
    items.iter().find(|item| is_key_item(key, item))
}

/// The name of a key of a record with these items.
#[tactic(auto, using(crate::proofs::KeyLemmas::found_item))]
pub fn key_name<'a>(items: &'a [Placed], key: &KeyPart) -> &'a str
    ensures { result.now ≡ key_name (map item_of items.now) key.now }
{
    match key_item(items, key) {
        Some(item) => item_name(&item.name),
        None => "FILLER",
    }
}

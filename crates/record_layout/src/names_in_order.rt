//! The names of items, in their order, so that one is found by a search.
ghost use Rattle.std.specs.Prelude.{◌≡◌, [], OnOk, IfErr, option_map};
ghost use Rattle.record_layout.specs.declared.fault.LayoutFault.{LayoutFault};
ghost use Rattle.record_layout.specs.Layout.{entry_of_item};
ghost use Rattle.record_layout.specs.NamesInOrder.{HasNamesOf, AddsNameOf, TellsTaken};

use crate::fault::LayoutFault;
use crate::item::Item;
use io_state::Name;
use std::alloc::Global;
use std::collections::BTreeSet;

/// Names, in their order.
pub type NamesInOrder<'a> = BTreeSet<&'a str>;

/// The names of no items.
pub fn no_names<'a>(alloc: Global) -> NamesInOrder<'a>
    ensures { HasNamesOf result [] }
{
    BTreeSet::new(alloc)
}

/// Adds the name of an item, if it has one.
pub fn add_name<'a>(names: &mut NamesInOrder<'a>, item: &'a Item) -> Result<(), LayoutFault>
    ensures added { OnOk result (AddsNameOf (entry_of_item item.now) names.old names.new) }
    ensures fault { IfErr result (λ fault. fault ≡ LayoutFault.Memory) }
{
    match &item.name {
        Some(name) => match names.insert(name.as_str()) {
            Ok(_) => Ok(()),
            Err(_) => Err(LayoutFault::Memory),
        },
        None => Ok(()),
    }
}

/// Whether one of the items has this name, if there is a name.
pub fn is_taken(names: &NamesInOrder<'_>, name: &Option<Name>) -> bool
    ensures { TellsTaken names.now (option_map (λ name. name.bytes) name.now) result }
{
    match name {
        Some(name) => names.contains(name.as_str()),
        None => false,
    }
}

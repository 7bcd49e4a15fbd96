//! The places of a record's items, by their names.
ghost use Rattle.std.specs.Prelude.{OnOk, IfOk};
ghost use Rattle.record_layout.specs.Layout.{item_of};
ghost use Rattle.file_control.specs.FieldPlaces.{AreFields, AddsField};

use io_state::Name;
use record_layout::{Field, Layout, Placed};
use std::alloc::{AllocError, Global};
use std::collections::BTreeMap;

/// Where the items of a record stand, in the order of their names, so that an item is found by a search.
pub type FieldPlaces = BTreeMap<Name, Field>;

/// Adds the place of an item that stands before the others.
fn add_item(fields: &mut FieldPlaces, item: &Placed) -> Result<(), AllocError>
    ensures { OnOk result (AddsField (item_of item.now) fields.old fields.new) }
{
    if let Some(name) = item.name {
        fields.insert(name, item.field)?;
    }
    Ok(())
}

/// The places of the items of a layout. The last item is put in first, so that the first item of a
/// name is the one that stays.
pub fn fields_by_name(alloc: Global, layout: &Layout) -> Result<FieldPlaces, AllocError>
    ensures { IfOk result (λ fields. AreFields fields layout.now) }
{
    let mut fields = BTreeMap::new(alloc);
    let mut rest = layout.items();
    'more: while let Some((item, before)) = rest.split_last() {
        add_item(&mut fields, item)?;
        rest = before;
    }
    Ok(fields)
}

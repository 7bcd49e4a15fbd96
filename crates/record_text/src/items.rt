//! The columns of a record that is described.
ghost use Rattle.std.specs.Prelude.{◌≡◌, map, option_map, OnOk, IfOk};
ghost use Rattle.record_layout.specs.Layout.{item_of};
ghost use Rattle.record_text.specs.Parts.{AddsParts, part_of_column, name_or, item_part, is_group};
ghost use Rattle.record_text.specs.Parts.{part_if_elementary, item_parts, AreElementary};

use crate::column::Column;
use crate::numbered::numbered;
use io_state::Name;
use record_layout::{Layout, Placed};
use std::alloc::{AllocError, Global};

/// The name of the column of an item.
fn name_or(name: &Option<Name>, offset: u16) -> Name
    ensures { result.bytes ≡ name_or offset (option_map (λ name. name.bytes) name.now) }
{
    match name {
        Some(name) => *name,
        None => numbered("FILLER ", u32::from(offset)),
    }
}

/// The column of an item.
fn column_of(item: &Placed) -> Column
    ensures { part_of_column result ≡ item_part (item_of item.now) }
{
    Column {
        name: name_or(&item.name, item.field.offset),
        offset: item.field.offset,
        length: item.field.length,
        numeric: item.field.numeric,
    }
}

/// Whether an item is a group, by the items behind it.
fn is_group(item: &Placed, after: &[Placed]) -> bool
    ensures { result ≡ is_group (item_of item.now) (map item_of after.now) }
{
    match after.first() {
        Some(next) => next.field.offset == item.field.offset,
        None => false,
    }
}

/// Adds the column of an item that is no group.
fn push_item(columns: &mut Vec<Column>, item: &Placed, after: &[Placed]) -> Result<(), AllocError>
    ensures { OnOk result (AddsParts columns.old.items columns.new.items
        (part_if_elementary (item_of item.now) (map item_of after.now))) }
{
    if is_group(item, after) {
        return Ok(());
    }
    columns.push(column_of(item))?;
    Ok(())
}

/// A column for each elementary item of a record, in the order of the entries: with its name, or
/// FILLER and its offset where it has none.
pub fn item_columns(alloc: Global, layout: &Layout) -> Result<Vec<Column>, AllocError>
    ensures { IfOk result (λ columns. map part_of_column columns.items ≡ item_parts layout.now) }
{
    let mut columns = Vec::new(alloc);
    let mut rest = layout.items();
    'more: while let Some((item, after)) = rest.split_first() {
        push_item(&mut columns, item, after)?;
        rest = after;
    }
    Ok(columns)
}

/// The columns of a record that is described are its elementary items, at their places.
pub fn elementary_items()
    ensures { AreElementary }
{}

//! The layout of a record.
ghost use Rattle.record_layout.specs.LayoutFault.{HaveOneOutcome};

use crate::area::{Figure, Source, put};
use crate::fault::LayoutFault;
use crate::item::{Field, Item, Placed, is_name};
use crate::placing::{own_places, set_group_lengths};
use std::alloc::Global;
use std::marker::Model;

/// The items of a record, each with its place, the record itself first.
#[derive(Drop)]
pub struct Layout {
    items: Vec<Placed>,
}

impl Model for Layout {
    ghost use Rattle.std.specs.Prelude.{List, map};
    ghost use Rattle.record_layout.specs.Layout.{Placed as PlacedItem, item_of, IsRecord};

    ghost Value = { List PlacedItem };

    ghost view = { λ layout. map item_of layout.items.items };

    ghost invariant = { λ layout. IsRecord (map item_of layout.items.items) };
}

impl Layout {
    ghost use Rattle.std.specs.Prelude.{◌≡◌, ◌+◌, ◌≤◌, length, map, IfSome, IfOk, IfErr};
    ghost use Rattle.record_layout.specs.Layout.{entry_of_item, item_of, IsLayout, IsRecord, length_of};
    ghost use Rattle.record_layout.specs.Layout.{field_of};
    ghost use Rattle.record_layout.specs.LayoutFault.{HaveFirstFault};
    ghost use Rattle.record_layout.specs.Area.{blank_area};

    /// The layout of the record that data description entries describe. The fault is the first one
    /// of the first entry that has one: it stands behind a group without items, its level does not
    /// fit, its name is taken, its picture is none, or the record is past 4,000 characters. No
    /// entry, or a group at the end, is `Empty`. `Memory` comes where there is no room for the
    /// places.
    pub fn build(alloc: Global, items: &[Item]) -> Result<Layout, LayoutFault>
        ensures laid { IfOk result (IsLayout (map entry_of_item items.now)) }
        ensures fault { IfErr result (HaveFirstFault (map entry_of_item items.now)) }
    {
        let mut items_placed = own_places(alloc, items)?;
        set_group_lengths(items, &mut items_placed);
        Ok(Layout {
            items: items_placed,
        })
    }

    /// The length of the record, in bytes.
    pub fn length(&self) -> u16
        ensures length { result ≡ length_of self.now }
        ensures record { IsRecord self.now }
    {
        match self.items.as_slice() {
            [record, ..] => record.field.length,
            [] => 0,
        }
    }

    /// The items in the order of their entries, each with its place.
    pub fn items(&self) -> &[Placed]
        ensures { map item_of result.now ≡ self.now }
    {
        self.items.as_slice()
    }

    /// Where the item of a name stands. FILLER has no name.
    pub fn field(&self, name: &str) -> Option<Field>
        ensures field { result ≡ field_of self.now name.now }
        ensures some { IfSome result (λ field. 1 ≤ field.length) }
        ensures within { IfSome result (λ field. field.offset + field.length ≤ length_of self.now) }
        ensures short { length_of self.now ≤ 4000 }
    {
        for item in &self.items {
            if is_name(&item.name, name) {
                return Some(item.field);
            }
        }
        None
    }

    /// Fills a record area as it is at the start of a run: zeros in each numeric item, and spaces elsewhere.
    pub fn blank(&self, area: &mut [u8])
        requires { length area.old ≡ length_of self.now }
        ensures { area.new ≡ blank_area (length_of self.now) self.now }
    {
        area.fill(b' ');
        for item in &self.items {
            if item.field.numeric {
                put(area, item.field, &Source::Fill(Figure::Zero));
            }
        }
    }
}

/// Data description entries that have a layout have no fault.
pub fn one_outcome()
    ensures { HaveOneOutcome }
{}

//! The places of the items of a record.
ghost use Rattle.std.specs.Prelude.{◌≡◌, ℕ, ◌+◌, ◌≤◌, length, map, sum_by, IfOk, IfErr};
ghost use Rattle.record_layout.specs.Layout.{entry_of_item, item_of};
ghost use Rattle.record_layout.specs.LayoutFault.{HasPictureFault};
ghost use Rattle.record_layout.specs.Placing.{IsOwnPlace, AnswersPlaces, members_length, with_group_lengths};

use crate::fault::LayoutFault;
use crate::item::{Field, Item, Placed};
use crate::levels::{check_place, ends_in_group};
use crate::names_in_order::{add_name, no_names};
use crate::picture::Picture;
use std::alloc::Global;

/// The place of each item by itself: a group has no characters yet.
pub fn own_places(alloc: Global, items: &[Item]) -> Result<Vec<Placed>, LayoutFault>
    ensures { AnswersPlaces (map entry_of_item items.now) result }
{
    let mut places = Vec::new(alloc);
    let mut names = no_names(alloc);
    let mut total: u16 = 0;
    for (i, item) in items.iter().enumerate() {
        check_place(&items[..i], &names, item)?;
        let field = own_place(total, item)?;
        total += field.length;
        let place = Placed {
            name: item.name,
            field,
        };
        places.push(place).map_err(|_| LayoutFault::Memory)?;
        add_name(&mut names, item)?;
    }
    if ends_in_group(items) {
        return Err(LayoutFault::Empty);
    }
    Ok(places)
}

/// The place of an item behind items of `total` characters.
fn own_place(total: u16, item: &Item) -> Result<Field, LayoutFault>
    requires { total ≤ 4000 }
    ensures place { IfOk result (IsOwnPlace total (entry_of_item item.now).picture) }
    ensures limit { IfOk result (λ field. total + field.length ≤ 4000) }
    ensures fault { IfErr result (HasPictureFault total (entry_of_item item.now).picture) }
{
    let Some(text) = item.picture else {
        return Ok(Field {
            offset: total,
            length: 0,
            numeric: false,
        });
    };
    let picture = Picture::parse(text.as_str().as_bytes())?;
    if total + picture.length > 4000 {
        return Err(LayoutFault::TooLong);
    }
    Ok(Field {
        offset: total,
        length: picture.length,
        numeric: picture.numeric,
    })
}

/// Gives each group the length of its members.
pub fn set_group_lengths(items: &[Item], places: &mut [Placed])
    requires same { length items.now ≡ length places.old }
    requires short { sum_by (λ place. place.field.length) places.old ≤ 4000 }
    ensures { map item_of places.new
        ≡ with_group_lengths (map entry_of_item items.now) (map item_of places.old) }
{
    for i in 0..items.len() {
        let item = &items[i];
        if item.picture.is_none() {
            let (here, behind) = places.split_at_mut(i + 1);
            here[i].field.length = members(item.level, &items[i + 1..], behind);
        }
    }
}

/// How many characters the items behind a group have, up to the first that is not deeper.
fn members(level: u8, items: &[Item], places: &[Placed]) -> u16
    requires same { length items.now ≡ length places.now }
    requires short { sum_by (λ place. place.field.length) places.now ≤ 4000 }
    ensures { result ≡ members_length level (map entry_of_item items.now) (map item_of places.now) }
{
    let mut length = 0;
    for (i, item) in items.iter().enumerate() {
        if item.level <= level {
            return length;
        }
        length += places[i].field.length;
    }
    length
}

//! Where a data description entry may stand behind others.
ghost use Rattle.std.specs.Prelude.{◌≡◌, map, reverse, IsTrue, OnOk, IfErr};
ghost use Rattle.record_layout.specs.Layout.{entry_of_item};
ghost use Rattle.record_layout.specs.LayoutFault.{is_behind_empty, is_open_level, is_level_fit, is_in_place};
ghost use Rattle.record_layout.specs.LayoutFault.{is_unfinished, IsFaultOfPlace};
ghost use Rattle.record_layout.specs.NamesInOrder.{HasNamesOf};

use crate::fault::LayoutFault;
use crate::item::Item;
use crate::names_in_order::{NamesInOrder, is_taken};

/// Looks whether an item may stand behind the items before it, but for its picture.
pub fn check_place(
    before: &[Item],
    names: &NamesInOrder<'_>,
    item: &Item,
) -> Result<(), LayoutFault>
    requires { HasNamesOf names.now (reverse (map entry_of_item before.now)) }
    ensures in_place { OnOk result (IsTrue (is_in_place (reverse (map entry_of_item before.now))
        (entry_of_item item.now))) }
    ensures fault { IfErr result
        (IsFaultOfPlace (reverse (map entry_of_item before.now)) (entry_of_item item.now)) }
{
    if follows_empty_group(before, item.level) {
        return Err(LayoutFault::Empty);
    }
    if !fits_level(before, item.level) {
        return Err(LayoutFault::BadLevel);
    }
    if is_taken(names, &item.name) {
        return Err(LayoutFault::DuplicateName);
    }
    Ok(())
}

/// Whether there is no item, or the last one is a group.
pub fn ends_in_group(items: &[Item]) -> bool
    ensures { result ≡ is_unfinished (reverse (map entry_of_item items.now)) }
{
    match items {
        [.., last] => last.picture.is_none(),
        [] => true,
    }
}

/// Whether the last item is a group, and this level is not deeper.
fn follows_empty_group(before: &[Item], level: u8) -> bool
    ensures { result ≡ is_behind_empty (reverse (map entry_of_item before.now)) level }
{
    match before {
        [.., last] => last.picture.is_none() && level <= last.level,
        [] => false,
    }
}

/// Whether the level number goes on from the items before it.
fn fits_level(before: &[Item], level: u8) -> bool
    ensures { result ≡ is_level_fit (reverse (map entry_of_item before.now)) level }
{
    match before {
        [.., last] => {
            level >= 2 && level <= 49 && (last.picture.is_none() || is_open(before, level))
        }
        [] => level == 1,
    }
}

/// Whether the level is that of the nearest item that is not deeper.
fn is_open(before: &[Item], level: u8) -> bool
    ensures { result ≡ is_open_level (reverse (map entry_of_item before.now)) level }
{
    let mut rest = before;
    'nearest: while let [older @ .., last] = rest {
        if last.level <= level {
            return last.level == level;
        }
        rest = older;
    }
    false
}

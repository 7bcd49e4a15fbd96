//! Data description entries as rows of a table, and their layout.

use io_state::Name;
use record_layout::{Item, Layout};
use std::alloc::Global;
use std::process::Abort;

/// A level number, a name and a picture, each empty where there is none.
pub type Row = (u8, &'static str, &'static str);

fn word(rt: &impl Abort, text: &str) -> Option<Name> {
    if text.is_empty() {
        return None;
    }
    Some(Name::from(text).expect(rt, "a name or a picture"))
}

/// The entries of these rows.
pub fn items(rt: &impl Abort, alloc: Global, rows: &[Row]) -> Vec<Item> {
    let mut items = Vec::new(alloc);
    for &(level, name, picture) in rows {
        let item = Item {
            level,
            name: word(rt, name),
            picture: word(rt, picture),
        };
        items.push(item).expect(rt, "memory");
    }
    items
}

/// The layout of these rows.
pub fn layout_of(rt: &impl Abort, alloc: Global, rows: &[Row]) -> Layout {
    Layout::build(alloc, &items(rt, alloc, rows)).expect(rt, "a layout")
}

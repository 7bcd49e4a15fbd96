//! A record in which a key is an item.

use crate::lines::ProgramLines;
use record_layout::{KeyPart, Placed};

/// Adds so many bytes without a name.
fn add_filler(lines: &mut ProgramLines, length: u16) {
    if length > 0 {
        lines.add("    02~FILLER PIC~X(%).", &[usize::from(length)]);
    }
}

/// Whether an item is the leading part of a key.
fn leads(item: &Placed, key: &KeyPart) -> bool {
    item.field.offset == key.offset && item.field.length < key.length
}

/// Whether one of the items has these very bytes.
fn is_among(items: &[Placed], item: &Placed) -> bool {
    items.iter().any(|other| {
        other.field.offset == item.field.offset && other.field.length == item.field.length
    })
}

/// Adds the leading parts of a key, one for each length that an item has.
fn add_parts(lines: &mut ProgramLines, u: usize, k: usize, items: &[Placed], key: &KeyPart) {
    let whole = usize::from(key.length);
    for (i, item) in items.iter().enumerate() {
        if leads(item, key) && !is_among(&items[..i], item) {
            let length = usize::from(item.field.length);
            lines.add(
                "        03 PART-#-%-% REDEFINES PART-#-%-% PIC~X(%).",
                &[u, k, length, u, k, whole, length],
            );
        }
    }
}

/// Adds the record of so many bytes that a key is an item of, with each leading part of the key
/// that is an item, too.
pub fn add_key_record(
    lines: &mut ProgramLines,
    u: usize,
    k: usize,
    items: &[Placed],
    key: &KeyPart,
    greatest: u16,
) {
    lines.add("01 PLACE-#-%.", &[u, k]);
    add_filler(lines, key.offset);
    let parts = ["    02 KEY-#-%.", "        03 PART-#-%-% PIC~X(%)."];
    lines.add_all(&parts, &[u, k, usize::from(key.length)]);
    add_parts(lines, u, k, items, key);
    let behind = greatest
        .saturating_sub(key.offset)
        .saturating_sub(key.length);
    add_filler(lines, behind)
}

//! The items of a record.
ghost use Rattle.std.specs.Prelude.{◌≡◌, option_map};
ghost use Rattle.record_layout.specs.Layout.{is_named};

use io_state::Name;

/// A data description entry: its level number, its name (none for FILLER), and its picture as it is
/// written (none for a group).
#[derive(Clone, Copy, Debug)]
pub struct Item {
    pub level: u8,
    pub name: Option<Name>,
    pub picture: Option<Name>,
}

/// Where an item stands in its record: bytes from the record's first on, and whether its picture is one of 9.
#[derive(Clone, Copy, Debug, PartialEq, Eq)]
pub struct Field {
    pub offset: u16,
    pub length: u16,
    pub numeric: bool,
}

/// An item with its place.
#[derive(Clone, Copy, Debug)]
pub struct Placed {
    pub name: Option<Name>,
    pub field: Field,
}

/// Whether the text is this name, if there is a name.
pub fn is_name(name: &Option<Name>, text: &str) -> bool
    ensures { result ≡ is_named text.now (option_map (λ name. name.bytes) name.now) }
{
    match name {
        Some(name) => name.as_str() == text,
        None => false,
    }
}

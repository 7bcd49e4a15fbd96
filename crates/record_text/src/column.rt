//! A column of a record.
ghost use Rattle.std.specs.Prelude.{◌≡◌};
ghost use Rattle.record_text.specs.Columns.{cell_of};

use io_state::Name;

/// A part of a record with a name: bytes from the record's first on. A record that ends before the
/// part does has fewer of its bytes, or none. It is numeric where its item has digits.
#[derive(Clone, Copy, Debug)]
pub struct Column {
    pub name: Name,
    pub offset: u16,
    pub length: u16,
    pub numeric: bool,
}

/// The bytes of a column in a record, as many as the record has of them.
pub fn cell_of<'a>(column: &Column, bytes: &'a [u8]) -> &'a [u8]
    ensures { result.now ≡ cell_of column.now bytes.now }
{
    let start = usize::from(column.offset).min(bytes.len());
    let rest = &bytes[start..];
    &rest[..usize::from(column.length).min(rest.len())]
}

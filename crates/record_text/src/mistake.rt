//! Why the line at the front of a text is that of no record.
ghost use Rattle.std.specs.Prelude.{◌≡◌};
ghost use Rattle.record_text.specs.Mistake.{stray_of};

use io_state::Name;

/// What stands where the next byte of a record, or what ends them, has to.
#[derive(Clone, Copy, Debug, PartialEq, Eq)]
pub enum Stray {
    /// The line ends there, or the text.
    End,
    /// A backslash that begins no byte as it is listed.
    Backslash,
    /// A character that is listed by a backslash and its digits, or stands there for nothing.
    Char(u8),
}

/// What is wrong with the value of a column, as it stands in a line.
#[derive(Clone, Copy, Debug, PartialEq, Eq)]
pub enum ValueMistake {
    /// No comma stands before it.
    Comma,
    /// The name of its column and a colon do not stand before it.
    Name,
    /// No quote begins it.
    Quote,
    /// Behind so many of its bytes stands neither a byte as it is listed nor the quote that ends it.
    Byte { bytes: usize, stray: Stray },
    /// It has so many bytes, more than there is room for.
    Long { bytes: usize },
    /// It has so many bytes, fewer than its column, though more stand behind it, or the record has to
    /// be longer.
    Short { bytes: usize },
}

/// A mistake in the value of a column: the first column is number 1, and its value wants so many
/// bytes.
#[derive(Clone, Copy, Debug, PartialEq, Eq)]
pub struct ColumnMistake {
    pub number: usize,
    pub name: Name,
    pub wanted: u16,
    pub mistake: ValueMistake,
}

/// Why the line at the front of a text is that of no record.
#[derive(Clone, Copy, Debug, PartialEq, Eq)]
pub enum LineMistake {
    /// It is not that of the names of the columns, which has to stand before the first record.
    Names,
    /// It does not begin with this character.
    Opening(u8),
    /// Behind so many bytes of a record in brackets stands neither a byte as it is listed nor what
    /// ends the line.
    Byte {
        bytes: usize,
        stray: Stray,
    },
    /// The record in brackets has so many bytes, and has to have from `least` to `most`.
    Length {
        bytes: usize,
        least: usize,
        most: usize,
    },
    /// The value of a column has a mistake.
    Column(ColumnMistake),
    /// This character has to stand behind the last value, as the line ends, and does not.
    Ending(u8),
}

/// What a text begins with, where neither a byte of a record stands nor what ends them.
pub fn stray_of(text: &[u8]) -> Stray
    ensures { result ≡ stray_of text.now }
{
    match text.first() {
        None | Some(b'\n') => Stray::End,
        Some(b'\\') => Stray::Backslash,
        Some(char) => Stray::Char(*char),
    }
}

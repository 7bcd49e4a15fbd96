//! Bytes of a deck, as they are shown.

use std::fmt;

/// The most bytes of a word that are shown.
const SHOWN_LIMIT: usize = 30;

/// Bytes of a deck: the first of them, with a question mark for each that cannot be printed, and
/// three points where more follow.
#[derive(Clone, Copy)]
pub struct Shown<'a>(pub &'a [u8]);

fn printed(byte: u8) -> char {
    if byte.is_ascii_graphic() || byte == b' ' {
        char::from(byte)
    } else {
        '?'
    }
}

impl<'a> fmt::Display for Shown<'a> {
    fn fmt<W: fmt::Write>(&self, f: &mut fmt::Formatter<W>) -> fmt::Result {
        for byte in self.0.iter().take(SHOWN_LIMIT) {
            f.write_char(printed(*byte))?;
        }
        if self.0.len() > SHOWN_LIMIT {
            f.write_str("...")?;
        }
        Ok(())
    }
}

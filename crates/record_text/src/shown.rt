//! Bytes as the transcript shows them.
ghost use Rattle.std.specs.Prelude.{◌≡◌, false};
ghost use Rattle.deck_runner.specs.Line.{is_plain, shown_byte};
ghost use Rattle.record_text.specs.Columns.{text_of};
ghost use Rattle.record_text.specs.Room.{AddsInRoom};

use crate::text::{add, add_char};
use deck_runner::is_plain;
use std::alloc::AllocError;
use streams::hex_digit;

/// A byte that does not stand as itself, as it is shown: a backslash and two digits.
pub fn escape_of(byte: u8) -> [u8; 3]
    requires { is_plain byte ≡ false }
    ensures { result ≡ shown_byte byte }
{
    [b'\\', hex_digit(byte / 16), hex_digit(byte % 16)]
}

/// Adds a byte as it is shown.
fn add_byte(text: &mut Vec<u8>, byte: u8) -> Result<(), AllocError>
    ensures { AddsInRoom text.old text.new (shown_byte byte) result }
{
    if is_plain(byte) {
        add_char(text, byte)
    } else {
        add(text, &escape_of(byte))
    }
}

/// Adds bytes as they are shown.
pub fn add_shown(text: &mut Vec<u8>, bytes: &[u8]) -> Result<(), AllocError>
    ensures { AddsInRoom text.old text.new (text_of bytes.now) result }
{
    for byte in bytes {
        add_byte(text, *byte)?;
    }
    Ok(())
}

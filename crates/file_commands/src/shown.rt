//! A path as it is shown: with the escapes of the transcript, so that no byte of it ends a line.
ghost use Rattle.std.specs.Prelude.{◌≡◌, ◌++◌, OnOk};
ghost use Rattle.deck_runner.specs.Line.{shown_byte};
ghost use Rattle.record_text.specs.Columns.{text_of};

use std::alloc::AllocError;
use streams::hex_digit;

/// Adds a byte as it is shown.
fn add_byte(text: &mut Vec<u8>, byte: u8) -> Result<(), AllocError>
    ensures { OnOk result (text.new.items ≡ text.old.items ++ shown_byte byte) }
{
    if byte > 31 && byte < 127 && byte != b'\\' {
        return text.extend_from_slice(&[byte]);
    }
    text.extend_from_slice(&[b'\\', hex_digit(byte / 16), hex_digit(byte % 16)])
}

/// Adds bytes as they are shown.
pub fn add_shown(text: &mut Vec<u8>, bytes: &[u8]) -> Result<(), AllocError>
    ensures { OnOk result (text.new.items ≡ text.old.items ++ text_of bytes.now) }
{
    for byte in bytes {
        add_byte(text, *byte)?;
    }
    Ok(())
}

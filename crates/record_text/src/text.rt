//! A text that grows.
ghost use Rattle.std.specs.Prelude.{◌∷◌, []};
ghost use Rattle.record_text.specs.Room.{AddsInRoom};

use std::alloc::AllocError;

/// Adds a character.
pub fn add_char(text: &mut Vec<u8>, char: u8) -> Result<(), AllocError>
    ensures { AddsInRoom text.old text.new (char ∷ []) result }
{
    text.push(char)?;
    Ok(())
}

/// Adds characters.
pub fn add(text: &mut Vec<u8>, more: &[u8]) -> Result<(), AllocError>
    ensures { AddsInRoom text.old text.new more.now result }
{
    text.extend_from_slice(more)
}

//! A text in UTF-8 as a list in ASCII.
ghost use Rattle.std.specs.Prelude.{◌≡◌, ◌<◌, ◌++◌, ◌∷◌, [], List, ℕ, IfOk, IfSome, None, OnOk, length};
ghost use Rattle.streams.specs.Escapes.{escape_of};
ghost use Rattle.streams.specs.InAscii.{in_ascii, BeginsWithCharacter, BeginsWithNoCharacter};

use crate::backslashes::Backslashes;
use crate::escape::{character_byte, digits_of};
use std::alloc::{AllocError, Global};

/// The byte of a character that a text begins with, and what is behind the character.
#[derive(Clone, Copy)]
pub struct FirstCharacter<'a> {
    pub byte: u8,
    pub behind: &'a [u8],
}

/// The character from U+00A0 to U+00FF that a text begins with.
fn first_character(text: &[u8]) -> Option<FirstCharacter<'_>>
    ensures some { IfSome result (BeginsWithCharacter text.now) }
    ensures none { result ≡ None → BeginsWithNoCharacter text.now }
{
    let (lead, after) = text.split_first()?;
    let (next, behind) = after.split_first()?;
    let byte = character_byte(*lead, *next)?;
    Some(FirstCharacter { byte, behind })
}

/// Adds the escape of a byte to a text.
fn add_escape(text: &mut Vec<u8>, backslashes: Backslashes, byte: u8) -> Result<(), AllocError>
    ensures { OnOk result (text.new.items ≡ text.old.items ++ escape_of backslashes byte) }
{
    match backslashes {
        Backslashes::One => text.push(b'\\')?,
        Backslashes::Two => text.extend_from_slice(b"\\\\")?,
    }
    text.extend_from_slice(&digits_of(byte))
}

/// Adds what a text begins with to a list in ASCII: the escape of a character, or a byte as it is. What
/// is behind it is left.
fn add_first<'a>(
    backslashes: Backslashes,
    text: &'a [u8],
    list: &mut Vec<u8>,
) -> Result<&'a [u8], AllocError>
    requires { 0 < length text.now }
    ensures added { IfOk result (λ behind. list.new.items ++ in_ascii backslashes behind.now
        ≡ list.old.items ++ in_ascii backslashes text.now) }
    ensures shorter { IfOk result (λ behind. length behind.now < length text.now) }
{
    if let Some(character) = first_character(text) {
        add_escape(list, backslashes, character.byte)?;
        return Ok(character.behind);
    }
    let (first, behind) = text.split_at(1);
    list.extend_from_slice(first)?;
    Ok(behind)
}

/// A text in UTF-8 as a list in ASCII has it. What is no character from U+00A0 to U+00FF stays as it is.
pub fn in_ascii(alloc: Global, backslashes: Backslashes, text: &[u8]) -> Result<Vec<u8>, AllocError>
    ensures { IfOk result (λ list. list.items ≡ in_ascii backslashes text.now) }
{
    let mut list = Vec::with_capacity(alloc, text.len())?;
    let mut rest = text;
    'more: while !rest.is_empty() {
        rest = add_first(backslashes, rest, &mut list)?;
    }
    Ok(list)
}

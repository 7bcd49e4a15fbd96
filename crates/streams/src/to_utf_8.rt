//! A list in UTF-8.
ghost use Rattle.std.specs.Prelude.{◌≡◌, ◌<◌, ◌≤◌, ◌++◌, ◌∷◌, List, ℕ, IfOk, IfSome, None, drop, length};
ghost use Rattle.streams.specs.InUtf8.{in_utf_8, BeginsWithEscape, BeginsWithNoEscape};
ghost use Rattle.streams.specs.declared.backslashes.Backslashes.TheVariants.{One, Two};

use crate::backslashes::Backslashes;
use crate::escape::{character_of, escaped_byte};
use std::alloc::{AllocError, Global};

/// The byte of an escape that a text begins with, and what is behind the escape.
#[derive(Clone, Copy)]
pub struct FirstEscape<'a> {
    pub byte: u8,
    pub behind: &'a [u8],
}

/// The escape of a byte from a0 to ff that a text begins with, where one backslash begins it.
fn first_of_one(text: &[u8]) -> Option<FirstEscape<'_>>
    ensures some { IfSome result (BeginsWithEscape One text.now) }
    ensures none { result ≡ None → BeginsWithNoEscape One text.now }
{
    let (backslash, digits) = text.split_first()?;
    let (high, lows) = digits.split_first()?;
    let (low, behind) = lows.split_first()?;
    let byte = escaped_byte(*backslash, *high, *low)?;
    Some(FirstEscape { byte, behind })
}

/// So where two backslashes begin it.
fn first_of_two(text: &[u8]) -> Option<FirstEscape<'_>>
    ensures some { IfSome result (BeginsWithEscape Two text.now) }
    ensures none { result ≡ None → BeginsWithNoEscape Two text.now }
{
    let (first, escape) = text.split_first()?;
    let (backslash, digits) = escape.split_first()?;
    let (high, lows) = digits.split_first()?;
    let (low, behind) = lows.split_first()?;
    if *first != b'\\' {
        return None;
    }
    let byte = escaped_byte(*backslash, *high, *low)?;
    Some(FirstEscape { byte, behind })
}

/// The escape of a byte from a0 to ff that a text begins with.
fn first_escape(backslashes: Backslashes, text: &[u8]) -> Option<FirstEscape<'_>>
    ensures some { IfSome result (BeginsWithEscape backslashes text.now) }
    ensures none { result ≡ None → BeginsWithNoEscape backslashes text.now }
{
    match backslashes {
        Backslashes::One => first_of_one(text),
        Backslashes::Two => first_of_two(text),
    }
}

/// Adds what a text begins with to a text in UTF-8: the character of an escape, or a byte as it is.
/// What is behind it is left.
fn add_first<'a>(
    backslashes: Backslashes,
    text: &'a [u8],
    encoded: &mut Vec<u8>,
) -> Result<&'a [u8], AllocError>
    requires { 0 < length text.now }
    ensures added { IfOk result (λ behind. encoded.new.items ++ in_utf_8 backslashes behind.now
        ≡ encoded.old.items ++ in_utf_8 backslashes text.now) }
    ensures shorter { IfOk result (λ behind. length behind.now < length text.now) }
{
    if let Some(escape) = first_escape(backslashes, text) {
        encoded.extend_from_slice(&character_of(escape.byte))?;
        return Ok(escape.behind);
    }
    let (first, behind) = text.split_at(1);
    encoded.extend_from_slice(first)?;
    Ok(behind)
}

/// The text of a list in UTF-8.
pub fn in_utf_8(alloc: Global, backslashes: Backslashes, text: &[u8]) -> Result<Vec<u8>, AllocError>
    ensures { IfOk result (λ encoded. encoded.items ≡ in_utf_8 backslashes text.now) }
{
    let mut encoded = Vec::with_capacity(alloc, text.len())?;
    let mut rest = text;
    'more: while !rest.is_empty() {
        rest = add_first(backslashes, rest, &mut encoded)?;
    }
    Ok(encoded)
}

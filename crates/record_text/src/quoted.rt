//! The byte that a text begins with, as it stands in quotes.
ghost use Rattle.std.specs.Prelude.{◌≡◌, ◌∷◌, drop, true, false};
ghost use Rattle.record_text.specs.Quoted.{LacksFront, ReadsByte};
ghost use Rattle.record_text.specs.declared.quoted.Quoting.TheVariants.{Doubled, Escaped};

use crate::passed::passed;
use crate::shown_byte::{ShownByte, first_byte};
use deck_runner::is_plain;

/// How the characters of a value stand in quotes.
#[derive(Clone, Copy, Debug, PartialEq, Eq)]
pub enum Quoting {
    /// A quote stands twice.
    Doubled,
    /// A quote, and a backslash, stand behind a backslash.
    Escaped,
}

/// Whether these two bytes come first.
fn is_pair(text: &[u8], one: u8, two: u8) -> bool
    ensures yes { result ≡ true → text.now ≡ one ∷ two ∷ drop 2 text.now }
    ensures no { result ≡ false → LacksFront (λ behind. one ∷ two ∷ behind) text.now }
{
    text.len() >= 2 && text[0] == one && text[1] == two
}

/// The byte that the front of a text is in CSV. None where it is the front of no byte.
fn first_doubled(text: &[u8]) -> Option<ShownByte>
    ensures { ReadsByte Doubled text.now result }
{
    if is_pair(text, b'"', b'"') {
        return Some(ShownByte {
            byte: b'"',
            size: 2,
        });
    }
    let first = first_byte(text)?;
    if first.byte == b'"' {
        return None;
    }
    Some(first)
}

/// The byte that the front of a text is in JSON, where that is no backslash: it stands as itself.
fn first_itself(text: &[u8]) -> Option<ShownByte>
    requires { LacksFront (λ behind. 92 ∷ behind) text.now }
    ensures { ReadsByte Escaped text.now result }
{
    let first = first_byte(text)?;
    if first.byte == b'"' {
        return None;
    }
    if !is_plain(first.byte) {
        return None;
    }
    Some(first)
}

/// The byte that the front of a text is in JSON. None where it is the front of no byte.
fn first_escaped(text: &[u8]) -> Option<ShownByte>
    ensures { ReadsByte Escaped text.now result }
{
    if is_pair(text, b'\\', b'"') {
        return Some(ShownByte {
            byte: b'"',
            size: 2,
        });
    }
    let Some(behind) = passed(text, b'\\') else {
        return first_itself(text);
    };
    let first = first_byte(behind)?;
    if is_plain(first.byte) {
        return None;
    }
    Some(ShownByte {
        byte: first.byte,
        size: first.size + 1,
    })
}

/// The byte that the front of a text is in quotes. None where it is the front of no byte.
pub fn first_quoted(quoting: Quoting, text: &[u8]) -> Option<ShownByte>
    ensures { ReadsByte quoting text.now result }
{
    match quoting {
        Quoting::Doubled => first_doubled(text),
        Quoting::Escaped => first_escaped(text),
    }
}

//! A bound of a list, as a list writes the bytes of a record.
ghost use Rattle.std.specs.Prelude.{◌≡◌, ◌<◌, [], None, option_map};
ghost use Rattle.std.specs.Option.{IfSome};
ghost use Rattle.command_support.specs.Bound.{byte_in, byte_of_digits, StandsForByte, unescaped};
ghost use Rattle.streams.specs.Hex.{hex_number};
ghost use Rattle.command_support.specs.Front.{word_in};
ghost use Rattle.command_support.specs.Bound.{FitsValue};

use crate::fault::CommandFault;
use io_state::Key;
use streams::hex_number;

/// The byte of two hexadecimal digits, if both are.
fn byte_of(high: u8, low: u8) -> Option<u8>
    ensures { result ≡ byte_of_digits (hex_number high) (hex_number low) }
{
    match (hex_number(high), hex_number(low)) {
        (Some(high), Some(low)) => Some(high * 16 + low),
        _ => None,
    }
}

/// The byte for which a backslash and two digits stand at the front of a text, if they are there, and
/// the text after them.
fn escape_at(text: &[u8]) -> Option<(u8, &[u8])>
    ensures some { IfSome result (λ found. StandsForByte text.now found.0 found.1.now) }
    ensures none { result ≡ None → byte_in text.now ≡ None }
{
    let [first, high, low, rest @ ..] = text else {
        return None;
    };
    if *first != b'\\' {
        return None;
    }
    match byte_of(*high, *low) {
        Some(byte) => Some((byte, rest)),
        None => None,
    }
}

/// The byte for which the front of a text stands, and the text after it.
pub fn next_byte(text: &[u8]) -> Option<(u8, &[u8])>
    ensures some { IfSome result (λ found. StandsForByte text.now found.0 found.1.now) }
    ensures none { result ≡ None → text.now ≡ [] }
{
    if let Some(found) = escape_at(text) {
        return Some(found);
    }
    match text {
        [] => None,
        [first, rest @ ..] => Some((*first, rest)),
    }
}

/// A value, of which no key has more than 250 bytes. A backslash and two hexadecimal digits are a
/// byte, as a list writes it; any other backslash is one.
pub fn value_of(text: &str) -> Result<Key, CommandFault>
    ensures { FitsValue (λ key. key.items ≡ unescaped text.now) result }
{
    let mut key = Key::new();
    let mut rest = text.as_bytes();
    'more: while let Some((byte, behind)) = next_byte(rest) {
        if key.try_push(byte).is_err() {
            return Err(CommandFault::LongValue);
        }
        rest = behind;
    }
    Ok(key)
}

/// A last value, if there is one.
pub fn last_of(text: Option<&str>) -> Result<Option<Key>, CommandFault>
    ensures { FitsValue (λ key. option_map (λ key. key.items) key ≡ option_map unescaped (word_in text.entry))
        result }
{
    match text {
        Some(text) => Ok(Some(value_of(text)?)),
        None => Ok(None),
    }
}

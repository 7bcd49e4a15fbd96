//! Escapes of bytes from a0 to ff, and their characters.
ghost use Rattle.std.specs.Prelude.{◌≡◌, ◌<◌, ◌∷◌, ◌/◌, ◌%◌, [], true, false, IfSome, None};
ghost use Rattle.streams.specs.Characters.{two_bytes, is_character, latin_byte};
ghost use Rattle.streams.specs.Escapes.{digit_number, is_digit, is_escape, byte_of, escape_of};
ghost use Rattle.streams.specs.Hex.{hex_digit};

use crate::backslashes::Backslashes;
use crate::hex::hex_digit;

/// Whether this is a hexadecimal digit in lower case.
fn is_digit(char: u8) -> bool
    ensures { result ≡ is_digit char }
{
    (char > 47 && char < 58) || (char > 96 && char < 103)
}

/// The number of a hexadecimal digit.
fn digit_number(char: u8) -> u8
    requires { is_digit char ≡ true }
    ensures value { result ≡ digit_number char }
    ensures small { result < 16 }
{
    if char < 58 { char - 48 } else { char - 87 }
}

/// The byte of an escape, if these are one of a byte from a0 to ff.
pub fn escaped_byte(backslash: u8, high: u8, low: u8) -> Option<u8>
    ensures escape { IfSome result (λ byte. (is_escape backslash high low ≡ true) × (byte ≡ byte_of high low)) }
    ensures none { result ≡ None → is_escape backslash high low ≡ false }
{
    if backslash == b'\\' && high > 96 && high < 103 && is_digit(low) {
        Some((high - 87) * 16 + digit_number(low))
    } else {
        None
    }
}

/// The character of a byte from a0 to ff, in UTF-8.
pub fn character_of(byte: u8) -> [u8; 2]
    ensures { result ≡ two_bytes byte }
{
    [192 + byte / 64, 128 + byte % 64]
}

/// The byte of a character from U+00A0 to U+00FF, if these are one.
pub fn character_byte(lead: u8, next: u8) -> Option<u8>
    ensures character { IfSome result (λ byte. (is_character lead next ≡ true) × (byte ≡ latin_byte lead next)) }
    ensures none { result ≡ None → is_character lead next ≡ false }
{
    if lead == 194 && next > 159 && next < 192 {
        Some(next)
    } else if lead == 195 && next > 127 && next < 192 {
        Some(next + 64)
    } else {
        None
    }
}

/// The digits of the escape of a byte.
pub fn digits_of(byte: u8) -> [u8; 2]
    ensures { result ≡ hex_digit (byte / 16) ∷ hex_digit (byte % 16) ∷ [] }
{
    [hex_digit(byte / 16), hex_digit(byte % 16)]
}

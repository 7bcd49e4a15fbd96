//! The byte that a text begins with, as it is shown in the line of a record.
ghost use Rattle.std.specs.Prelude.{◌≡◌, ◌<◌, ◌≤◌, ◌/◌, ◌%◌, ◌*◌, ◌+◌, ◌++◌, ◌∷◌, [], ℕ, List, IfSome, None};
ghost use Rattle.deck_runner.specs.Line.{shown_byte};
ghost use Rattle.streams.specs.Hex.{hex_digit};
ghost use Rattle.record_text.specs.Quoted.{ShowsFirst};

use deck_runner::is_plain;
use streams::hex_number;

/// A byte at the front of a text, and how many bytes of the text show it.
#[derive(Clone, Copy, Debug, PartialEq, Eq)]
pub struct ShownByte {
    pub byte: u8,
    pub size: usize,
}

/// The byte that a backslash and these two digits show.
fn escaped(high: u8, low: u8) -> Option<u8>
    ensures shown { IfSome result (λ byte. shown_byte byte ≡ 92 ∷ high ∷ low ∷ []) }
    ensures none { result ≡ None → (byte : ℕ) → byte < 256 → shown_byte byte ≡ 92 ∷ high ∷ low ∷ [] → ⊥ }
{
    let high = hex_number(high)?;
    let low = hex_number(low)?;
    let byte = high * 16 + low;
    if is_plain(byte) {
        return None;
    }
    Some(byte)
}

/// The byte that the front of a text shows. None where it is the front of what is shown of no byte.
pub fn first_byte(text: &[u8]) -> Option<ShownByte>
    ensures byte { IfSome result (λ first. first.byte < 256) }
    ensures shown { IfSome result (ShowsFirst text.now) }
    ensures none { result ≡ None → (byte : ℕ) (rest : List ℕ) → byte < 256
        → text.now ≡ shown_byte byte ++ rest → ⊥ }
{
    let byte = *text.first()?;
    if is_plain(byte) {
        return Some(ShownByte { byte, size: 1 });
    }
    if byte != b'\\' || text.len() < 3 {
        return None;
    }
    let byte = escaped(text[1], text[2])?;
    Some(ShownByte { byte, size: 3 })
}

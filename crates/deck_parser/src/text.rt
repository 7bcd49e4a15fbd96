//! Texts of words.
ghost use Rattle.std.specs.Prelude.{◌≡◌, ◌≤◌, true, length, map};
ghost use Rattle.std.specs.List.{list_all};
ghost use Rattle.deck_parser.specs.ByteClass.{is_of_word, capital};

use crate::byte_class::capital_of;
use io_state::Name;

/// The bytes of a plain word with capitals for its small letters.
pub fn capitals_of(text: &[u8]) -> Name
    requires short { length text.now ≤ 30 }
    requires plain { list_all is_of_word text.now ≡ true }
    ensures { result.bytes ≡ map capital text.now }
{
    let mut name = Name::new();
    for byte in text {
        name.push(char::from(capital_of(*byte)));
    }
    name
}

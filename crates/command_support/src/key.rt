//! The key of a list: its number, or its name in a deck.
ghost use Rattle.std.specs.Prelude.{◌≡◌, [], ℕ, None};
ghost use Rattle.std.specs.Option.{IfSome};
ghost use Rattle.command_words.specs.Asks.{IsNumber};
ghost use Rattle.command_support.specs.Conditions.{texts_of};
ghost use Rattle.command_support.specs.AskedKey.{IsKeyNumber, IsNoKeyNumber, WantsDeck};
ghost use Rattle.command_support.specs.AskedKey.{key_named, TellsUnknownKey, FindsAskedKey};

use crate::conditions::item_with_name;
use crate::fault::{CommandFault, UnknownKey};
use file_control::FileDesc;
use std::alloc::Global;

/// The greatest number of a key.
const LAST_KEY: u8 = 8;

/// The number of eight bits that a word is.
fn number_of(word: &str) -> Option<u8>
    ensures some { IfSome result (IsNumber 8 word.now) }
    ensures none { result ≡ None → (n : ℕ) → IsNumber 8 word.now n → ⊥ }
{
    word.parse().ok()
}

#[tactic(auto, using(crate::proofs::KeyLemmas::past_last, crate::proofs::KeyLemmas::no_number))]
/// The number of a key that a word is.
fn key_number(word: &str) -> Option<u8>
    ensures some { IfSome result (IsKeyNumber word.now) }
    ensures none { result ≡ None → IsNoKeyNumber word.now }
{
    let Some(number) = number_of(word) else {
        return None;
    };
    if number > LAST_KEY {
        return None;
    }
    Some(number)
}

/// The number of the key of a list, where its words ask for nothing that only a deck tells.
pub fn key_without_deck(word: &str, conditions: &[&str]) -> Option<u8>
    ensures some { IfSome result (λ key. IsKeyNumber word.now key × (texts_of conditions.now ≡ [])) }
    ensures none { result ≡ None → WantsDeck word.now (texts_of conditions.now) }
{
    if conditions.is_empty() {
        return key_number(word);
    }
    None
}

/// The number of the key of a name in a file of a deck.
fn key_named(file: &FileDesc, name: &str) -> Option<u8>
    ensures { result ≡ key_named file.now name.now }
{
    match item_with_name(file.layout.items(), name.as_bytes()) {
        Some(field) => file.schema.key_of(field),
        None => None,
    }
}

/// Why a file of a deck has no key of a name.
fn unknown(alloc: Global, file: &FileDesc, name: &str) -> CommandFault
    ensures { TellsUnknownKey file.now name.now result }
{
    match name.to_string(alloc) {
        Ok(name) => CommandFault::NoSuchKey(UnknownKey {
            name,
            file: file.name,
        }),
        Err(_) => CommandFault::Memory,
    }
}

/// The number of the key that a word asks for in a file of a deck, by its number or its name.
pub fn key_in(alloc: Global, file: &FileDesc, word: &str) -> Result<u8, CommandFault>
    ensures { FindsAskedKey file.now word.now result }
{
    if let Some(number) = key_number(word) {
        return Ok(number);
    }
    match key_named(file, word) {
        Some(key) => Ok(key),
        None => Err(unknown(alloc, file, word)),
    }
}

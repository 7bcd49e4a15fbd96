//! What is told of a refused deck.
ghost use Rattle.std.specs.Prelude.{◌≡◌, IfOk, string_bytes};

use deck_parser::WordPlace;
use std::alloc::{AllocError, Global};

/// What is told: of which bytes of the deck, why, and further lines.
#[derive(Drop)]
pub struct Message {
    pub place: WordPlace,
    pub why: String,
    pub hints: Vec<String>,
}

/// A message; `AllocError` for want of memory.
pub type ToldMessage = Result<Message, AllocError>;

impl Message {
    pub fn new(alloc: Global, place: WordPlace, why: String) -> Self
        ensures { string_bytes result.why ≡ string_bytes why }
    {
        Message {
            place,
            why,
            hints: Vec::new(alloc),
        }
    }

    pub fn saying(alloc: Global, place: WordPlace, why: &str) -> ToldMessage
        ensures { IfOk result (λ message. string_bytes message.why ≡ why.now) }
    {
        Ok(Message::new(alloc, place, String::from_str(alloc, why)?))
    }

    /// With a further line, unless that has no text.
    pub fn with_hint(self, hint: String) -> ToldMessage {
        let mut message = self;
        if !hint.as_str().is_empty() {
            message.hints.push(hint)?;
        }
        Ok(message)
    }

    pub fn with_text(self, alloc: Global, text: &str) -> ToldMessage {
        self.with_hint(String::from_str(alloc, text)?)
    }

    /// What is told of a word that decks do not have, with what to do instead.
    pub fn not_read(alloc: Global, place: WordPlace, text: &str) -> ToldMessage {
        Message::saying(alloc, place, "not read")?.with_text(alloc, text)
    }
}

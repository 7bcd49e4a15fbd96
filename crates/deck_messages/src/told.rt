//! What is told of a refusal.
ghost use Rattle.std.specs.Prelude.{IfOk, string_bytes};
ghost use Rattle.deck_messages.specs.Texts.{SaysCause, SaysWhy};

use crate::bad_word::no_word;
use crate::layout::bad_layout;
use crate::not_allowed::not_allowed;
use crate::texts::text_of_cause;
use crate::twice::twice;
use crate::unexpected::unexpected;
use crate::unknown::unknown;
use crate::wanted::WantedWords;
use deck_parser::{FaultCause, ParseRefusal, WordPlace};
use deck_reader::DeckRefusal;
use refused_deck::{Message, Reading, ToldMessage};
use std::alloc::{AllocError, Global};

/// What is told of bytes that are no word.
fn bad_word(deck: &Reading<'_>, place: WordPlace) -> ToldMessage {
    let start = place.start as usize;
    let (_, text) = deck.bytes.split_at(start.min(deck.bytes.len()));
    let (length, why) = no_word(text);
    let end = u32::try_from(start.saturating_add(length)).unwrap_or(place.end);
    deck.tell_text(WordPlace { end, ..place }, why)
}

/// What is told of a number with too many digits.
fn too_many_digits(deck: &Reading<'_>, place: WordPlace) -> ToldMessage {
    let digits = deck.text(place).len();
    let why = format!(in deck.alloc; "a number of {digits} digits; a number has at most 18");
    deck.tell(place, why)
}

/// What is told of a fault whose text is that of its deck.
fn message_by_deck(
    deck: &Reading<'_>,
    place: WordPlace,
    cause: FaultCause,
    wanted: &WantedWords<'_>,
) -> ToldMessage {
    match cause {
        FaultCause::BadWord => bad_word(deck, place),
        FaultCause::Expected(expected) => unexpected(deck, place, expected, wanted),
        FaultCause::Unknown(what) => unknown(deck, place, what),
        FaultCause::Twice(what) => twice(deck, place, what),
        FaultCause::NotAllowed(what) => not_allowed(deck, place, what),
        FaultCause::Limit(_) => too_many_digits(deck, place),
        FaultCause::Layout(what) => bad_layout(deck, place, what),
    }
}

/// What is told of a fault.
fn message(
    deck: &Reading<'_>,
    place: WordPlace,
    cause: FaultCause,
    wanted: &WantedWords<'_>,
) -> ToldMessage
    ensures { IfOk result (λ message. SaysCause cause (string_bytes message.why)) }
{
    match text_of_cause(cause) {
        Some(text) => Message::saying(deck.alloc, place, text),
        None => message_by_deck(deck, place, cause, wanted),
    }
}

/// What is told of these bytes, which the reader refuses so.
pub fn message_of(alloc: Global, bytes: &[u8], refusal: &DeckRefusal) -> ToldMessage
    ensures { IfOk result (λ message. SaysWhy refusal.now.refusal (string_bytes message.why)) }
{
    match refusal.refusal {
        ParseRefusal::Fault(_, place, cause) => {
            let wanted = WantedWords {
                wanted: &refusal.wanted,
            };
            message(&Reading::of(alloc, bytes)?, place, cause, &wanted)
        }
        ParseRefusal::Memory => Err(AllocError),
    }
}

//! The texts of the causes that have the same one in each deck.
ghost use Rattle.std.specs.Prelude.{◌≡◌, option_map};
ghost use Rattle.deck_messages.specs.Texts.{text_of_cause};

use deck_parser::{Expected, FaultCause, Limit, NotAllowed};

fn text_of_limit(limit: Limit) -> Option<&'static str>
    ensures { option_map (λ text. text.now) result ≡ text_of_cause (FaultCause.Limit limit) }
{
    match limit {
        Limit::Bytes => Some("the deck has more than 1,048,576 bytes"),
        Limit::Files => Some("a ninth file; a deck has at most 8"),
        Limit::AlternateKeys => Some("a ninth ALTERNATE RECORD KEY; a file has at most 8"),
        Limit::Digits => None,
    }
}

fn text_of_lack(expected: Expected) -> Option<&'static str>
    ensures { option_map (λ text. text.now) result ≡ text_of_cause (FaultCause.Expected expected) }
{
    match expected {
        Expected::Indexed => Some("this SELECT entry ends without ORGANIZATION IS INDEXED"),
        Expected::RecordKey => Some(
            "this SELECT entry ends without RECORD KEY IS and the name of an item",
        ),
        Expected::Words(_) | Expected::Paragraph(_) => None,
    }
}

/// The text of a cause, where it has the same one in each deck.
pub fn text_of_cause(cause: FaultCause) -> Option<&'static str>
    ensures { option_map (λ text. text.now) result ≡ text_of_cause cause }
{
    match cause {
        FaultCause::Limit(limit) => text_of_limit(limit),
        FaultCause::Expected(expected) => text_of_lack(expected),
        FaultCause::NotAllowed(NotAllowed::KeyWithNext) => Some(
            "a READ has NEXT or KEY, and not both",
        ),
        _ => None,
    }
}

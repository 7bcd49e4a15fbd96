//! Why a word of a deck is refused, in words.
ghost use Rattle.std.specs.Prelude.{◌≡◌, ◌≢◌, ◌≤◌, [], List, ℕ, length, string_bytes};
ghost use Rattle.deck_listing.specs.Place.{IsPlaceInDeck, StandsAt};
ghost use Rattle.deck_listing.specs.Told.{TellsOf};

use crate::place::{DeckPlace, place_of};
use crate::text::{Hint, ReasonText, fitted, told_reason};
use arrayvec::ArrayVec;
use deck_parser::WordPlace;
use refused_deck::{Message, Shown};
use std::fmt;

/// The most bytes of a word that are told.
const TOLD_LIMIT: usize = 31;

/// The line at which a deck goes wrong, the word there, at most 31 bytes of it, or none, why, and
/// what else there is to say. It is written as `line 26, word X(12: no picture; a picture is X(n)
/// or 9(n)`, with a further line, behind two spaces, for each of the hints, and no line end behind
/// the last.
#[derive(Debug, Drop)]
pub struct Diagnosis {
    pub line: u64,
    pub word: ArrayVec<u8, 31>,
    pub why: ReasonText,
    pub hints: ArrayVec<Hint, 2>,
}

impl Diagnosis {
    /// Writes all but the hints.
    fn write_reason<W: fmt::Write>(&self, f: &mut fmt::Formatter<W>) -> fmt::Result {
        let line = self.line;
        let why = self.why.as_str();
        if self.word.is_empty() {
            return write!(f, "line {line}: {why}");
        }
        let word = Shown(&self.word);
        write!(f, "line {line}, word {word}: {why}")
    }
}

impl fmt::Display for Diagnosis {
    fn fmt<W: fmt::Write>(&self, f: &mut fmt::Formatter<W>) -> fmt::Result {
        self.write_reason(f)?;
        for hint in &self.hints {
            write!(f, "\n  {hint}")?;
        }
        Ok(())
    }
}

/// A few bytes, in memory of their own.
fn copied(text: &[u8]) -> ArrayVec<u8, 31>
    requires { length text.now ≤ 31 }
    ensures { result.items ≡ text.now }
{
    let mut bytes = ArrayVec::new();
    let _ = bytes.try_extend_from_slice(text);
    bytes
}

/// The further lines, as far as there is room for them.
fn hints_of(hints: &[String]) -> ArrayVec<Hint, 2> {
    let mut told = ArrayVec::new();
    for hint in hints {
        let _ = told.try_push(fitted(hint));
    }
    told
}

/// The place of a deck that a message tells.
fn told_place(bytes: &[u8], place: WordPlace) -> DeckPlace<'_>
    ensures place { IsPlaceInDeck bytes.now result }
    ensures at { place.start ≤ length bytes.now → StandsAt bytes.now place.start result.text.now }
    ensures short { length result.text.now ≤ 31 }
{
    let length = place.end.saturating_sub(place.start) as usize;
    place_of(bytes, place.start as usize, length.min(TOLD_LIMIT))
}

/// A message, told of a deck.
pub fn diagnosis_of(bytes: &[u8], message: &Message) -> Diagnosis
    ensures tells { TellsOf bytes.now result }
    ensures why { string_bytes message.now.why ≢ [] → length (string_bytes message.now.why) ≤ 110
        → result.why.bytes ≡ string_bytes message.now.why }
    ensures at { message.now.place.start ≤ length bytes.now
        → StandsAt bytes.now message.now.place.start result.word.items }
    ensures said { result.why.bytes ≢ [] }
{
    let place = told_place(bytes, message.place);
    Diagnosis {
        line: place.line,
        word: copied(place.text),
        why: told_reason(&message.why),
        hints: hints_of(&message.hints),
    }
}

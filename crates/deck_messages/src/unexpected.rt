//! A word with which no deck goes on.

use crate::lacking::{without, without_here};
use crate::wanted::WantedWords;
use deck_parser::{Expected, FaultCause, NameOf, ParseRefusal, WantedWord, WordPlace};
use deck_reader::{DeckRefusal, read_deck_told};
use refused_deck::{Message, Reading, Shown, ToldMessage, is_name, is_number, says, says_one_of};
use std::alloc::AllocError;

/// How many digits a sequence number has.
const SEQUENCE_DIGITS: usize = 6;

/// Before the first word.
const START: WordPlace = WordPlace {
    line: 1,
    start: 0,
    end: 0,
};

/// Whether the reader goes on behind a place of a deck, as far as it says.
fn goes_on_behind(refusal: &DeckRefusal, start: u32) -> bool {
    match refusal.refusal {
        ParseRefusal::Fault(
            _,
            place,
            FaultCause::Expected(Expected::Words(_) | Expected::Paragraph(_)),
        ) => place.start > start,
        _ => true,
    }
}

/// Whether bytes are letters, digits and hyphens as in a name, reserved or not.
fn is_like_name(text: &[u8]) -> bool {
    let has_letter = text.iter().any(|byte| byte.is_ascii_alphabetic());
    let has_name_bytes = text
        .iter()
        .all(|byte| byte.is_ascii_alphanumeric() || *byte == b'-');
    has_letter && has_name_bytes && !text.starts_with(b"-") && !text.ends_with(b"-")
}

/// Why a word does not fit, if no period is missing before it.
fn why_unexpected(wanted: &WantedWords<'_>, text: &[u8]) -> &'static str {
    if wanted.has_word("77") && is_number(text) {
        "WORKING-STORAGE has 77 levels alone"
    } else if wanted.has(WantedWord::Name(NameOf::Paragraph)) && text == b".".as_slice() {
        "a period without a statement before it"
    } else {
        "no deck goes on with this word"
    }
}

/// Whether the reader goes on behind this place if a period stands before it.
fn lacks_period(deck: &Reading<'_>, place: WordPlace) -> Result<bool, AllocError> {
    let (before, behind) = deck
        .bytes
        .split_at((place.start as usize).min(deck.bytes.len()));
    let mut bytes = Vec::from_slice(deck.alloc, before)?;
    bytes.extend_from_slice(b" . ")?;
    bytes.extend_from_slice(behind)?;
    match read_deck_told(deck.alloc, &bytes) {
        Ok(_) => Ok(true),
        Err(refusal) => Ok(goes_on_behind(&refusal, place.start.saturating_add(3))),
    }
}

/// Why columns that decks do not have are not read.
fn of_columns(deck: &Reading<'_>, place: WordPlace) -> Option<&'static str> {
    let text = deck.text(place);
    let before = deck.bytes.get(..place.start as usize)?;
    let begins_line = before.is_empty() || before.ends_with(b"\n");
    if begins_line && text.len() == SEQUENCE_DIGITS && is_number(text) {
        return Some("sequence numbers in columns 1 to 6 are not read; leave the columns out");
    }
    if text == b"-".as_slice() {
        return Some(
            "lines are not continued, nor by a hyphen in column 7; end the word or literal in its line",
        );
    }
    None
}

/// The level of the entry in which this word stands, where it is the VALUE of a condition name.
fn level_of_condition(deck: &Reading<'_>, place: WordPlace) -> Option<WordPlace> {
    if !says_one_of(deck.text(place), &["VALUE", "VALUES"]) {
        return None;
    }
    let level = deck.entry_before(place)?;
    if says(deck.text(level), "88") {
        Some(level)
    } else {
        None
    }
}

/// Why a word that is read elsewhere does not fit where it stands.
fn why_not_here(
    deck: &Reading<'_>,
    place: WordPlace,
    wanted: &WantedWords<'_>,
) -> Result<String, AllocError> {
    let text = deck.text(place);
    let is_unended = wanted.has(WantedWord::Period) && lacks_period(deck, place)?;
    let may_be_item = wanted.has_word("FILLER") && !is_unended;
    if is_like_name(text) && (wanted.is_for_name() || may_be_item) {
        return String::from_str(deck.alloc, "a reserved word, which can be no name");
    }
    if wanted.is_for_source() && is_name(text) {
        return String::from_str(deck.alloc, "an item cannot be moved");
    }
    if let Some(word) = wanted.misspelt(text) {
        let word = Shown(word);
        return format!(in deck.alloc; "perhaps {word}, misspelt");
    }
    if is_unended {
        return String::from_str(deck.alloc, "a period is missing before this word");
    }
    String::from_str(deck.alloc, why_unexpected(wanted, text))
}

/// What is told where the deck ends too early.
fn of_end(deck: &Reading<'_>, wanted: &WantedWords<'_>) -> ToldMessage {
    let message = match deck.words.last() {
        Some(last) => deck.tell_text(*last, "the deck ends behind this word, too early")?,
        None => deck.tell_text(START, "the deck has no word")?,
    };
    message.with_hint(wanted.expected(deck.alloc)?)
}

/// What is told of a word that does not fit.
fn of_word(deck: &Reading<'_>, place: WordPlace, wanted: &WantedWords<'_>) -> ToldMessage {
    if let Some(level) = level_of_condition(deck, place) {
        let why = "there are no condition names, of level 88; leave the entry out";
        return deck.tell_text(level, why);
    }
    if let Some(reason) = of_columns(deck, place) {
        return deck.tell_text(place, reason);
    }
    if let Some(text) = without_here(wanted, deck.text(place)) {
        return deck
            .tell_text(place, "not read here")?
            .with_text(deck.alloc, text);
    }
    if let Some(text) = without(deck.text(place)) {
        return Message::not_read(deck.alloc, place, text);
    }
    deck.tell(place, why_not_here(deck, place, wanted))?
        .with_hint(wanted.expected(deck.alloc)?)
}

/// What is told of a word that is no verb, and was taken for the name of a paragraph.
fn of_no_verb(
    deck: &Reading<'_>,
    place: WordPlace,
    name: WordPlace,
    wanted: &WantedWords<'_>,
) -> ToldMessage {
    let message = if let Some(verb) = wanted.misspelt(deck.text(name)) {
        let verb = Shown(verb);
        deck.tell(name, format!(in deck.alloc; "perhaps {verb}, misspelt"))?
    } else if lacks_period(deck, place)? {
        return deck.tell_text(place, "a period is missing before this word");
    } else {
        let why = "no verb, and no name of a paragraph, which has a period behind it";
        deck.tell_text(name, why)?
    };
    message.with_hint(wanted.expected(deck.alloc)?)
}

/// What is told where no period stands behind a word that was taken for the name of a paragraph.
fn of_paragraph(
    deck: &Reading<'_>,
    place: WordPlace,
    name: WordPlace,
    wanted: &WantedWords<'_>,
) -> ToldMessage {
    if deck.text(place).is_empty() {
        let why = "the deck ends behind this word, too early";
        return deck
            .tell_text(name, why)?
            .with_text(deck.alloc, "expected: a period");
    }
    if says(deck.text(place), "SECTION") {
        return deck.tell_text(place, "the procedure has paragraphs, and no sections");
    }
    if says(deck.text(name), "END") {
        let why = "END PROGRAM is not read; a deck ends with its last sentence";
        return deck.tell_text(name, why);
    }
    match without(deck.text(name)) {
        Some(text) => Message::not_read(deck.alloc, name, text),
        None => of_no_verb(deck, place, name, wanted),
    }
}

/// What is told of the first word with which no deck goes on.
pub fn unexpected(
    deck: &Reading<'_>,
    place: WordPlace,
    expected: Expected,
    wanted: &WantedWords<'_>,
) -> ToldMessage {
    match expected {
        Expected::Paragraph(name) => of_paragraph(deck, place, name, wanted),
        _ if deck.text(place).is_empty() => of_end(deck, wanted),
        _ => of_word(deck, place, wanted),
    }
}

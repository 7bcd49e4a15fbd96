//! Words that may be meant where a deck goes wrong.

use deck_parser::{
    Expected, FaultCause, LayoutCause, NotAllowed, ParseRefusal, Twice, Unknown, WantedWord,
    WordPlace,
};
use deck_reader::DeckRefusal;
use io_state::Name;
use record_layout::LayoutFault;
use refused_deck::{Among, Reading, capitals, is_near};
use std::alloc::{AllocError, Global};

/// Names of files that may be those of no other.
const FILE_NAMES: [&str; 9] = [
    "'1'", "'2'", "'3'", "'4'", "'5'", "'6'", "'7'", "'8'", "'9'",
];

/// A word that is wanted.
fn wanted_text(wanted: &WantedWord) -> Option<&'static [u8]> {
    match wanted {
        WantedWord::Word(text) | WantedWord::Sign(text) => Some(*text),
        WantedWord::Period => Some(b".".as_slice()),
        WantedWord::Picture => Some(b"X".as_slice()),
        WantedWord::Name(_) | WantedWord::Number | WantedWord::Level | WantedWord::Literal => None,
    }
}

/// The words that are wanted.
fn all_wanted(alloc: Global, wanted: &[WantedWord]) -> Result<Vec<Name>, AllocError> {
    let mut texts = Vec::new(alloc);
    for own in wanted {
        if let Some(text) = wanted_text(own) {
            texts.push(capitals(text))?;
        }
    }
    Ok(texts)
}

/// These words.
fn these(alloc: Global, words: &[&str]) -> Result<Vec<Name>, AllocError> {
    let mut texts = Vec::new(alloc);
    for word in words {
        texts.push(capitals(word.as_bytes()))?;
    }
    Ok(texts)
}

/// The names of a kind that a deck has.
fn names(deck: &Reading<'_>, among: &Among<'_>) -> Result<Vec<Name>, AllocError> {
    let names = deck.known.names(deck.alloc, among)?;
    these(deck.alloc, names.as_slice())
}

/// The names of files that are spelled nearly as a word.
fn near_files(deck: &Reading<'_>, place: WordPlace) -> Result<Vec<Name>, AllocError> {
    let mut texts = Vec::new(deck.alloc);
    for name in &names(deck, &Among::Files)? {
        if is_near(name.as_str().as_bytes(), deck.text(place)) {
            texts.push(*name)?;
        }
    }
    Ok(texts)
}

/// What may be meant where a deck is refused so: words that would have fitted, or names.
pub fn texts_of(
    alloc: Global,
    bytes: &[u8],
    refusal: &DeckRefusal,
) -> Result<Vec<Name>, AllocError> {
    let ParseRefusal::Fault(_, place, cause) = refusal.refusal else {
        return Ok(Vec::new(alloc));
    };
    let deck = Reading::of(alloc, bytes)?;
    match cause {
        FaultCause::Expected(Expected::Indexed) => these(alloc, &["INDEXED"]),
        FaultCause::Expected(_) => all_wanted(alloc, &refusal.wanted),
        FaultCause::Unknown(Unknown::Selected) => near_files(&deck, place),
        FaultCause::Unknown(Unknown::Key(file, _)) => {
            names(&deck, &Among::ItemsOf(deck.known.file_name(file)))
        }
        FaultCause::Unknown(Unknown::LengthItem(..)) => names(&deck, &Among::Storage),
        FaultCause::NotAllowed(NotAllowed::FileName) | FaultCause::Twice(Twice::Assigned(_)) => {
            these(alloc, &FILE_NAMES)
        }
        FaultCause::Layout(LayoutCause::Items(_, LayoutFault::BadPicture)) => these(alloc, &["X"]),
        FaultCause::Layout(LayoutCause::Digits) => these(alloc, &["9"]),
        FaultCause::Layout(LayoutCause::LengthItem(_, _)) => these(alloc, &["9(4)", "PIC 9(4)"]),
        _ => Ok(Vec::new(alloc)),
    }
}

//! Why a deck is refused.

use crate::division::wanted_in_procedure;
use crate::names::Names;
use deck_parser::{Expected, FaultCause, ParseRefusal, WantedList, WordPlace, scan};
use file_control::{Description, Words, describe, wanted_in_description};
use std::alloc::{AllocError, Global};

/// The first fault of a deck, and, of a word that does not fit, the words and classes that were
/// tried there.
#[derive(Debug, Drop)]
pub struct DeckRefusal {
    pub refusal: ParseRefusal,
    pub wanted: WantedList,
}

/// What is tried at the word of a place and does not fit, where words are read that are described so.
fn wanted_behind(
    alloc: Global,
    words: &Words<'_>,
    description: Description,
    place: WordPlace,
) -> Result<WantedList, AllocError> {
    let Description {
        files,
        items,
        words: count,
    } = description;
    let names = Names::new(alloc, files.as_slice(), items.as_slice())?;
    Ok(wanted_in_procedure(alloc, &names, &words.skip(count), place))
}

/// What is tried at the word of a place and does not fit, where words are read.
fn wanted_at(alloc: Global, words: &Words<'_>, place: WordPlace) -> WantedList {
    match describe(alloc, words) {
        Ok(description) => match wanted_behind(alloc, words, description, place) {
            Ok(wanted) => wanted,
            Err(_) => WantedList::new(),
        },
        Err(_) => wanted_in_description(alloc, words, place),
    }
}

/// What is tried at the word of a refusal that does not fit. The deck is read once more for it, so
/// that nothing is noted where a deck is accepted.
pub fn wanted_of(alloc: Global, bytes: &[u8], refusal: ParseRefusal) -> WantedList {
    let place = match refusal {
        ParseRefusal::Fault(_, place, FaultCause::Expected(Expected::Words(_))) => place,
        ParseRefusal::Fault(_, _, FaultCause::Expected(Expected::Paragraph(name))) => name,
        _ => return WantedList::new(),
    };
    match scan(bytes) {
        Ok(words) => wanted_at(alloc, &words, place),
        Err(_) => WantedList::new(),
    }
}

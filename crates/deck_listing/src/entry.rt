//! The entry or the sentence in which a word stands.

use deck_parser::{Word, WordPlace, WordText, words};
use refused_deck::word_places;
use std::alloc::{AllocError, Global};

/// The words of the entry or the sentence in which a place is, with its period. None where the
/// place is behind the last word.
pub fn entry_at(
    alloc: Global,
    bytes: &[u8],
    place: WordPlace,
) -> Result<Vec<WordPlace>, AllocError> {
    let mut entry = Vec::new(alloc);
    for word in &word_places(alloc, bytes)? {
        entry.push(*word)?;
        if bytes.get(word.start as usize..word.end as usize) == Some(b".".as_slice()) {
            if word.start >= place.start {
                return Ok(entry);
            }
            entry.clear();
        }
    }
    Ok(entry)
}

/// Where the first of these words stands behind a place, if one does.
fn first_among(bytes: &[u8], from: u32, texts: &[&str]) -> Option<u32> {
    let mut words = words(bytes).ok()?;
    for _ in 0..words.len() {
        let word = words.next()?;
        if word.start >= from && is_one_of(&word, texts) {
            return Some(word.start);
        }
    }
    None
}

/// Whether a word is one of these, in capitals.
fn is_one_of(word: &Word<'_>, texts: &[&str]) -> bool {
    match &word.text {
        WordText::Plain(own) => texts.iter().any(|text| own.as_str() == *text),
        WordText::Literal(_) | WordText::Sign(_) | WordText::Period => false,
    }
}

/// The same; the deck's end where none does.
fn first_or_end(bytes: &[u8], from: u32, texts: &[&str]) -> u32 {
    let end = u32::try_from(bytes.len()).unwrap_or(u32::MAX);
    first_among(bytes, from, texts).unwrap_or(end)
}

/// Where a file description and its items end, which stands before this place.
pub fn description_end(bytes: &[u8], behind: u32) -> u32 {
    first_or_end(bytes, behind, &["FD", "WORKING-STORAGE", "PROCEDURE"])
}

/// Where the word PROCEDURE stands.
pub fn procedure_start(bytes: &[u8]) -> u32 {
    first_or_end(bytes, 0, &["PROCEDURE"])
}

/// Whether one of the words of a part of a deck is this one.
pub fn has_word(bytes: &[u8], start: u32, end: u32, text: &str) -> bool {
    match bytes.get(start as usize..end as usize) {
        Some(part) => first_among(part, 0, &[text]).is_some(),
        None => false,
    }
}

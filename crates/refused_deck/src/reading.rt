//! A deck that is refused, and what was read of it.

use crate::known::{Among, Known};
use crate::message::{Message, ToldMessage};
use crate::near::is_near;
use crate::shown::Shown;
use deck_parser::{NameOf, Parser, WordPlace, words};
use io_state::Name;
use std::alloc::{AllocError, Global};

/// The verbs of a procedure.
const VERBS: [&str; 9] = [
    "OPEN", "CLOSE", "READ", "START", "WRITE", "REWRITE", "DELETE", "MOVE", "STOP",
];

/// The bytes of a deck that is refused, and what it describes.
#[derive(Drop)]
pub struct Reading<'a> {
    pub alloc: Global,
    pub bytes: &'a [u8],
    /// Where its words stand; none where they are none.
    pub words: Vec<WordPlace>,
    pub known: Known,
}

/// The bytes of a deck from one up to another; none where there are none.
pub fn part_of(bytes: &[u8], start: u32, end: u32) -> &[u8] {
    match bytes.get(start as usize..end as usize) {
        Some(part) => part,
        None => &[],
    }
}

/// Whether bytes are this word of the language, in capitals or small letters.
pub fn says(text: &[u8], word: &str) -> bool {
    text.eq_ignore_ascii_case(word.as_bytes())
}

/// Whether bytes are one of these words.
pub fn says_one_of(text: &[u8], words: &[&str]) -> bool {
    words.iter().any(|word| says(text, word))
}

/// A word in capitals.
pub fn capitals(text: &[u8]) -> Name {
    let mut name = Name::new();
    for byte in text {
        let _ = name.try_push(char::from(byte.to_ascii_uppercase()));
    }
    name
}

/// Whether bytes are a name.
pub fn is_name(text: &[u8]) -> bool {
    match words(text) {
        Ok(words) => Parser::new(&words).sees_name(NameOf::Program),
        Err(_) => false,
    }
}

/// Whether bytes are a number.
pub fn is_number(text: &[u8]) -> bool {
    match words(text) {
        Ok(words) => Parser::new(&words).sees_digits(),
        Err(_) => false,
    }
}

/// The verb that a word is, if it is one.
fn verb_named(text: &[u8]) -> Option<&'static str> {
    VERBS.iter().find(|verb| says(text, **verb)).copied()
}

/// Where the words of bytes stand; none where they are none.
pub fn word_places(alloc: Global, bytes: &[u8]) -> Result<Vec<WordPlace>, AllocError> {
    let mut places = Vec::new(alloc);
    if let Ok(words) = words(bytes) {
        let mut words = words;
        for _ in 0..words.len() {
            if let Some(word) = words.next() {
                places.push(word.place())?;
            }
        }
    }
    Ok(places)
}

impl<'a> Reading<'a> {
    /// What is known of bytes that are refused.
    pub fn of(alloc: Global, bytes: &'a [u8]) -> Result<Self, AllocError> {
        Ok(Reading {
            alloc,
            bytes,
            words: word_places(alloc, bytes)?,
            known: Known::of(alloc, bytes),
        })
    }

    /// The bytes of a place.
    pub fn text(&self, place: WordPlace) -> &'a [u8] {
        part_of(self.bytes, place.start, place.end)
    }

    /// The verb of the statement in which a place is.
    pub fn verb(&self, place: WordPlace) -> &'static str {
        for word in self.words_before(place).iter().rev() {
            if let Some(verb) = verb_named(self.text(*word)) {
                return verb;
            }
        }
        ""
    }

    /// A line of the names of a kind, behind a heading; no text where there are none.
    pub fn listed(&self, heading: &str, among: &Among<'_>) -> Result<String, AllocError> {
        let mut list = String::new(self.alloc);
        let names = self.known.names(self.alloc, among)?;
        for name in &names {
            let name = *name;
            let before = if list.as_str().is_empty() {
                heading
            } else {
                ", "
            };
            write!(list, "{before}{name}")?;
        }
        Ok(list)
    }

    /// A line with the first name of a kind that is spelled nearly as a word; no text where there is none.
    pub fn perhaps(&self, among: &Among<'_>, word: &[u8]) -> Result<String, AllocError> {
        let names = self.known.names(self.alloc, among)?;
        for name in &names {
            let name = *name;
            if is_near(name.as_bytes(), word) {
                return format!(in self.alloc; "perhaps {name}");
            }
        }
        Ok(String::new(self.alloc))
    }

    /// What is told of a place.
    pub fn tell(&self, place: WordPlace, why: Result<String, AllocError>) -> ToldMessage {
        Ok(Message::new(self.alloc, place, why?))
    }

    pub fn tell_text(&self, place: WordPlace, why: &str) -> ToldMessage {
        Message::saying(self.alloc, place, why)
    }

    /// A word as it is shown.
    pub fn shown(&self, place: WordPlace) -> Shown<'a> {
        Shown(self.text(place))
    }
}

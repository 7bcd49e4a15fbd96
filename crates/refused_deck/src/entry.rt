//! The words of an entry, each of which ends with its period.

use crate::reading::{Reading, says, says_one_of};
use deck_parser::{ItemPlace, WordPlace};

impl<'a> Reading<'a> {
    /// Whether a word is this one, in capitals or small letters.
    pub fn is_word(&self, place: WordPlace, text: &str) -> bool {
        says(self.text(place), text)
    }

    /// The words up to the first period, with it, and those behind it.
    fn first_entry<'w>(&self, words: &'w [WordPlace]) -> (&'w [WordPlace], &'w [WordPlace]) {
        for (at, word) in words.iter().enumerate() {
            if self.is_word(*word, ".") {
                return parted(words, at.saturating_add(1));
            }
        }
        (words, &[])
    }

    /// The words of an entry with its period: the first entry begins at a place, the further ones follow.
    pub fn entry_words(&self, from: WordPlace, entry: usize) -> &[WordPlace] {
        let mut rest = self.words_parted(from).1;
        for _ in 0..entry {
            rest = self.first_entry(rest).1;
        }
        self.first_entry(rest).0
    }

    /// The first word of the entry in which the word before a place stands.
    pub fn entry_before(&self, place: WordPlace) -> Option<WordPlace> {
        let mut rest = self.words_before(place);
        for _ in 0..rest.len() {
            let behind = self.first_entry(rest).1;
            if behind.is_empty() {
                return rest.first().copied();
            }
            rest = behind;
        }
        None
    }

    /// The words before a place.
    pub fn words_before(&self, place: WordPlace) -> &[WordPlace] {
        self.words_parted(place).0
    }

    /// The words before a place, and those from it on.
    fn words_parted(&self, place: WordPlace) -> (&[WordPlace], &[WordPlace]) {
        let before = self
            .words
            .iter()
            .take_while(|word| word.start < place.start);
        parted(&self.words, before.count())
    }

    /// The word that an entry describes, which begins at a place: behind SELECT and OPTIONAL, FD, or 77.
    pub fn subject(&self, from: WordPlace) -> WordPlace {
        let mut words = self.entry_words(from, 0).iter().skip(1);
        match words.find(|word| !self.is_word(**word, "OPTIONAL")) {
            Some(word) => *word,
            None => from,
        }
    }

    /// The last word of an entry before its period: its picture, where it is an item.
    pub fn last_word(&self, from: WordPlace, entry: usize) -> WordPlace {
        match self.entry_words(from, entry) {
            [.., word, _] => *word,
            _ => from,
        }
    }

    /// The word by which an item of an FD is told: its name, or else its level.
    pub fn item_word(&self, from: WordPlace, at: usize) -> WordPlace {
        match self.entry_words(from, at.saturating_add(1)) {
            [_, word, _, ..] if !says_one_of(self.text(*word), &["PIC", "PICTURE"]) => *word,
            [level, ..] => *level,
            [] => from,
        }
    }

    /// The word by which an item of a file is told.
    pub fn word_of_item(&self, item: ItemPlace) -> Option<WordPlace> {
        let described = self.known.description(self.known.file_name(item.file))?;
        Some(self.item_word(described.place, item.item))
    }

    /// The place of a name in an entry that begins at a place, behind its first two words.
    pub fn named_in(&self, from: WordPlace, name: &str) -> WordPlace {
        let mut words = self.entry_words(from, 0).iter().skip(2);
        match words.find(|word| self.is_word(**word, name)) {
            Some(word) => *word,
            None => from,
        }
    }
}

/// The first of some words, so many, and the others.
fn parted(words: &[WordPlace], count: usize) -> (&[WordPlace], &[WordPlace]) {
    words.split_at(count.min(words.len()))
}

//! Mends of an entry, of which the first is taken with which the reader goes on behind it.

use crate::blank::{blank, put};
use crate::meant_words::texts_of;
use crate::mended::MendedDeck;
use deck_messages::{message_of, without};
use deck_parser::{FaultCause, ParseRefusal, WordPlace};
use deck_reader::{DeckRefusal, read_deck_told};
use io_state::Name;
use refused_deck::{capitals, is_near, is_number};
use std::alloc::{AllocError, Global};

/// Whether a place is in an entry with these words, or directly before it.
fn is_within(entry: &[WordPlace], place: WordPlace) -> bool {
    match (entry.first(), entry.last()) {
        (Some(first), Some(last)) => {
            first.start <= place.start.saturating_add(1) && place.start < last.end
        }
        _ => false,
    }
}

/// Whether the word at which a deck is refused is in an entry with these words.
fn is_refused_within(
    alloc: Global,
    bytes: &[u8],
    refusal: &DeckRefusal,
    entry: &[WordPlace],
) -> Result<bool, AllocError> {
    if let ParseRefusal::Fault(_, place, FaultCause::Expected(_)) = refusal.refusal {
        if is_within(entry, place) {
            return Ok(true);
        }
    }
    Ok(is_within(entry, message_of(alloc, bytes, refusal)?.place))
}

/// Whether the reader goes on behind an entry with these words.
fn goes_on_behind(alloc: Global, bytes: &[u8], entry: &[WordPlace]) -> Result<bool, AllocError> {
    let read = read_deck_told(alloc, bytes);
    if let Err(refusal) = &read {
        return Ok(!is_refused_within(alloc, bytes, refusal, entry)?);
    }
    Ok(true)
}

/// Whether a text may be meant at the first word of an entry: it is spelled nearly as this, or it is
/// a level or a period.
fn begins_entry(text: &[u8], word: &[u8]) -> bool {
    is_near(text, word) || is_number(text) || text == b".".as_slice()
}

/// Words of an entry: the first of them, and the one behind the last.
#[derive(Clone, Copy)]
struct Part {
    first: usize,
    behind: usize,
}

/// Where the bytes between the words around a part begin and end; none where the part is not
/// before the period.
fn room_of(entry: &[WordPlace], part: Part) -> Option<(usize, usize)> {
    let behind = entry.get(part.behind)?;
    let start = match part.first.checked_sub(1) {
        Some(before) => entry.get(before)?.end,
        None => entry.first()?.start.saturating_sub(2),
    };
    Some((start as usize, behind.start as usize))
}

impl MendedDeck {
    /// Whether the reader goes on behind an entry if a text stands there in place of some of its
    /// words. If it does, the text stands there.
    fn goes_on_with(
        &mut self,
        entry: &[WordPlace],
        part: Part,
        text: &[u8],
    ) -> Result<bool, AllocError> {
        let Some((start, end)) = room_of(entry, part) else {
            return Ok(false);
        };
        if self.trials == 0 {
            return Ok(false);
        }
        let mut bytes = Vec::from_slice(self.alloc, &self.bytes)?;
        blank(&mut bytes, start, end);
        if !text.is_empty() && !put(&mut bytes, start, end, text) {
            return Ok(false);
        }
        self.trials = self.trials.saturating_sub(1);
        if !goes_on_behind(self.alloc, &bytes, entry)? {
            return Ok(false);
        }
        self.bytes = bytes;
        Ok(true)
    }

    /// Tries a text in place of a word of an entry, of this word and the one before or behind it, and
    /// before it.
    fn goes_on_at(
        &mut self,
        entry: &[WordPlace],
        at: usize,
        text: &[u8],
    ) -> Result<bool, AllocError> {
        let behind = at.saturating_add(1);
        let before = at.saturating_sub(1).max(1).min(at);
        let further = at.saturating_add(2);
        for &(first, behind) in &[(at, behind), (before, behind), (at, further), (at, at)] {
            if self.goes_on_with(entry, Part { first, behind }, text)? {
                return Ok(true);
            }
        }
        Ok(false)
    }

    /// Tries texts that may be meant at a word of an entry.
    fn goes_on_with_one_of(
        &mut self,
        entry: &[WordPlace],
        at: usize,
        texts: &[Name],
    ) -> Result<bool, AllocError> {
        let word = match entry.get(at) {
            Some(place) => capitals(self.text(*place)),
            None => Name::new(),
        };
        for text in texts {
            let text = text.as_str().as_bytes();
            let may_begin = at > 0 || begins_entry(text, word.as_str().as_bytes());
            if may_begin && self.goes_on_at(entry, at, text)? {
                return Ok(true);
            }
        }
        Ok(false)
    }

    /// Tries an entry without words from this one on, up to a word behind `at`.
    fn goes_on_without(
        &mut self,
        entry: &[WordPlace],
        first: usize,
        at: usize,
    ) -> Result<bool, AllocError> {
        for behind in at.saturating_add(1)..entry.len() {
            if self.goes_on_with(entry, Part { first, behind }, &[])? {
                return Ok(true);
            }
        }
        Ok(false)
    }

    /// Tries an entry without words around this one; its first word stays.
    fn goes_on_without_some(&mut self, entry: &[WordPlace], at: usize) -> Result<bool, AllocError> {
        for first in (1..at.saturating_add(1)).rev() {
            if self.goes_on_without(entry, first, at)? {
                return Ok(true);
            }
        }
        Ok(false)
    }

    /// Mends an entry at one of its words, if that can be done in it.
    pub fn mends(
        &mut self,
        entry: &[WordPlace],
        place: WordPlace,
        refusal: &DeckRefusal,
    ) -> Result<bool, AllocError> {
        let Some(at) = entry.iter().position(|word| word.start >= place.start) else {
            return Ok(false);
        };
        let is_lacking = without(self.text(place)).is_some();
        if is_lacking && at == 0 {
            return Ok(false);
        }
        if is_lacking && self.goes_on_without_some(entry, at)? {
            return Ok(true);
        }
        let texts = texts_of(self.alloc, &self.bytes, refusal)?;
        Ok(self.goes_on_with_one_of(entry, at, &texts)? || self.goes_on_without_some(entry, at)?)
    }
}

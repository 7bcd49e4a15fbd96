//! Whether a fault follows only from one that was told.

use crate::entry::{description_end, has_word};
use crate::mended::{Mend, MendedDeck};
use deck_parser::{FaultCause, LayoutCause, NotAllowed, WordPlace};
use record_layout::LayoutFault;
use refused_deck::{Reading, capitals};
use std::alloc::AllocError;

/// The file of whose record, lengths or keys a fault tells something as a whole.
fn file_described(what: LayoutCause) -> Option<usize> {
    match what {
        LayoutCause::Items(_, LayoutFault::BadPicture | LayoutFault::DuplicateName) => None,
        LayoutCause::Items(file, _)
        | LayoutCause::Length(file, _)
        | LayoutCause::LengthItem(file, _)
        | LayoutCause::Keys(file, _) => Some(file),
        LayoutCause::Digits => None,
    }
}

/// The file by whose access or keys a statement is not allowed.
fn file_accessed(what: NotAllowed) -> Option<usize> {
    match what {
        NotAllowed::Open(file, _)
        | NotAllowed::Start(file)
        | NotAllowed::Next(file)
        | NotAllowed::Key(file)
        | NotAllowed::NoKey(file)
        | NotAllowed::NoLeadingKey(file) => Some(file),
        NotAllowed::FileName | NotAllowed::KeyWithNext | NotAllowed::Source(_, _) => None,
    }
}

/// Whether bytes of a deck are white space.
fn is_white(bytes: &[u8], start: u32, end: u32) -> bool {
    match bytes.get(start as usize..end as usize) {
        Some(part) => part.iter().all(|byte| byte.is_ascii_whitespace()),
        None => false,
    }
}

impl MendedDeck {
    /// Whether a place is in an entry or a sentence that was mended.
    fn is_in_mend(&self, place: WordPlace) -> bool {
        self.mends.iter().any(|mend| mend.has(place.start))
    }

    /// Whether a word is also one of an entry of the description that is left out.
    fn is_noted(&self, word: WordPlace) -> bool {
        let name = capitals(self.text(word));
        self.mends.iter().any(|mend| {
            mend.is_awaited && has_word(&self.deck, mend.start, mend.end, name.as_str())
        })
    }

    /// Whether a word was told as a name that nothing has.
    fn is_told(&self, word: WordPlace) -> bool {
        let name = capitals(self.text(word));
        self.unknown.iter().any(|told| *told == name)
    }

    /// Whether an entry behind a place is left out.
    fn is_cut_behind(&self, place: WordPlace) -> bool {
        self.mends
            .iter()
            .any(|mend| mend.is_left_out && place.end <= mend.start)
    }

    /// Whether nothing stands between a place and an entry that is left out and still awaited.
    pub fn is_behind_awaited(&self, place: WordPlace) -> bool {
        self.mends.iter().any(|mend| self.is_behind(mend, place))
    }

    fn is_behind(&self, mend: &Mend, place: WordPlace) -> bool {
        mend.is_awaited && is_white(&self.bytes, mend.end, place.start)
    }

    /// Whether the SELECT entry of a file was mended.
    fn is_entry_mended(&self, deck: &Reading<'_>, file: usize) -> bool {
        match deck.known.entry(file) {
            Some(selected) => self.is_in_mend(selected.entry.place),
            None => true,
        }
    }

    /// Whether the description of a file, or of one of its items, was mended.
    fn is_description_mended(&self, deck: &Reading<'_>, file: usize) -> bool {
        match deck.known.description(deck.known.file_name(file)) {
            Some(described) => {
                let end = description_end(&self.bytes, described.place.end);
                self.is_mended(described.place.start, end)
            }
            None => true,
        }
    }

    /// Whether a statement is not allowed for the sake of an entry that was mended, or of an item
    /// that is left out.
    fn follows_in_statement(&self, what: NotAllowed, told: WordPlace) -> Result<bool, AllocError> {
        let deck = Reading::of(self.alloc, &self.bytes)?;
        Ok(match file_accessed(what) {
            Some(file) => self.is_entry_mended(&deck, file),
            None => self.is_noted(told),
        })
    }

    /// Whether items, lengths or keys are none for the sake of an entry that was mended.
    fn follows_in_layout(&self, what: LayoutCause) -> Result<bool, AllocError> {
        let deck = Reading::of(self.alloc, &self.bytes)?;
        Ok(match file_described(what) {
            Some(file) => {
                self.is_entry_mended(&deck, file) || self.is_description_mended(&deck, file)
            }
            None => false,
        })
    }

    /// Whether a fault, which is told at a word, follows only from one that was told before.
    pub fn follows(
        &self,
        cause: FaultCause,
        place: WordPlace,
        told: WordPlace,
    ) -> Result<bool, AllocError> {
        if self.is_in_mend(told) {
            return Ok(true);
        }
        if place.start == place.end {
            return Ok(self.is_cut_behind(told));
        }
        match cause {
            FaultCause::Layout(what) => self.follows_in_layout(what),
            FaultCause::NotAllowed(what) => self.follows_in_statement(what, told),
            FaultCause::Unknown(_) => Ok(self.is_noted(told) || self.is_told(told)),
            FaultCause::Expected(_) => Ok(self.is_behind_awaited(told)),
            FaultCause::BadWord | FaultCause::Twice(_) | FaultCause::Limit(_) => Ok(false),
        }
    }
}

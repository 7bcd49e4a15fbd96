//! The faults behind the first one.

use crate::entry::entry_at;
use crate::mended::MendedDeck;
use deck_messages::message_of;
use deck_parser::{FaultCause, ParseRefusal, Unknown, WordPlace};
use deck_reader::{DeckRefusal, read_deck_told};
use refused_deck::{Message, capitals, is_number, says_one_of};
use std::alloc::{AllocError, Global};

/// The most faults that are told behind the first one.
pub const MOST_LATER: usize = 19;

/// How many digits a sequence number has.
const SEQUENCE_DIGITS: usize = 6;

/// What became of one fault of a copy.
#[derive(Drop)]
enum Passed {
    /// It follows from one that was told.
    Following,
    Told(Message),
    /// It is told, and no further one is found.
    Last(Message),
    /// There is none, or none that can be told.
    End,
}

/// Whether nothing behind a fault can be known: its words are none, there are too many, or the deck
/// ends.
fn ends_reading(place: WordPlace, cause: FaultCause) -> bool {
    place.start == place.end || matches!(cause, FaultCause::BadWord | FaultCause::Limit(_))
}

/// Whether a word stands for a text that is not there, or is a sequence number.
fn is_of_another_form(text: &[u8]) -> bool {
    says_one_of(text, &["COPY", "REPLACE"]) || (text.len() == SEQUENCE_DIGITS && is_number(text))
}

/// Whether it is the record, the lengths or a key of a file that is refused.
fn is_of_file(refusal: &DeckRefusal) -> bool {
    matches!(
        refusal.refusal,
        ParseRefusal::Fault(
            _,
            _,
            FaultCause::Layout(_) | FaultCause::Unknown(Unknown::Key(..))
        )
    )
}

impl MendedDeck {
    /// Notes a name that is told.
    fn note_told(&mut self, cause: FaultCause, told: WordPlace) -> Result<(), AllocError> {
        if matches!(cause, FaultCause::Unknown(_)) {
            let name = capitals(self.text(told));
            self.unknown.push(name)?;
        }
        Ok(())
    }

    /// Mends the entry or the sentence of a fault, or leaves it out. Answers whether there is one.
    fn pass(
        &mut self,
        refusal: &DeckRefusal,
        place: WordPlace,
        follows: bool,
    ) -> Result<bool, AllocError> {
        let entry = entry_at(self.alloc, &self.bytes, place)?;
        if entry.is_empty() {
            return Ok(false);
        }
        let is_awaited = follows && self.is_behind_awaited(place);
        if (!follows || is_of_file(refusal)) && self.mends(&entry, place, refusal)? {
            self.note(&entry)?;
        } else {
            self.leave_out(&entry, is_awaited)?;
        }
        Ok(true)
    }

    /// Passes a fault of the copy, if it can be passed.
    fn pass_fault(
        &mut self,
        refusal: &DeckRefusal,
        place: WordPlace,
        cause: FaultCause,
    ) -> Result<Passed, AllocError> {
        let message = message_of(self.alloc, &self.bytes, refusal)?;
        let told = message.place;
        let follows = self.follows(cause, place, told)?;
        self.note_told(cause, told)?;
        let is_last = ends_reading(place, cause)
            || is_of_another_form(self.text(place))
            || !self.pass(refusal, told, follows)?;
        let message = Message {
            place: self.given_place(told),
            ..message
        };
        Ok(match (follows, is_last) {
            (false, false) => Passed::Told(message),
            (false, true) => Passed::Last(message),
            (true, false) => Passed::Following,
            (true, true) => Passed::End,
        })
    }

    /// Passes the first fault of the copy, if it has one.
    fn pass_next(&mut self) -> Result<Passed, AllocError> {
        let read = read_deck_told(self.alloc, &self.bytes);
        if let Err(refusal) = &read {
            return match refusal.refusal {
                ParseRefusal::Fault(_, place, cause) => self.pass_fault(refusal, place, cause),
                ParseRefusal::Memory => Err(AllocError),
            };
        }
        Ok(Passed::End)
    }

    /// What is told behind the first fault.
    fn later(&mut self) -> Result<Vec<Message>, AllocError> {
        let mut later = Vec::new(self.alloc);
        let mut is_passed = matches!(self.pass_next()?, Passed::Told(_));
        for _ in 0..self.passes {
            if !is_passed || later.len() >= MOST_LATER {
                return Ok(later);
            }
            match self.pass_next()? {
                Passed::Following => {}
                Passed::Told(message) => later.push(message)?,
                Passed::Last(message) => {
                    later.push(message)?;
                    is_passed = false;
                }
                Passed::End => is_passed = false,
            }
        }
        Ok(later)
    }
}

/// What is told of a refused deck behind its first fault, in the order in which the reader finds
/// it: at most nineteen faults, none of which follows only from an earlier one. `AllocError`: for
/// want of memory, and nothing is told.
pub fn later_faults(alloc: Global, deck: &[u8]) -> Result<Vec<Message>, AllocError> {
    let mut mended = MendedDeck::of(alloc, deck)?;
    mended.later()
}

//! A copy of a refused deck, in which faults are mended or left out.

use crate::blank::blank;
use crate::entry::{description_end, procedure_start};
use deck_parser::{DECK_LIMIT, WordPlace};
use io_state::Name;
use refused_deck::says;
use std::alloc::{AllocError, Global};

/// The most spaces that a line gets.
const MOST_ROOM: usize = 12;

/// The most faults of a deck that are passed.
const PASSES: usize = 200;

/// The most trials of mends in a deck.
const TRIALS: usize = 500;

/// The most bytes that are read for either, in decks of many kilobytes.
const READ_BYTES: usize = 33_554_432;

/// An entry or a sentence with a fault: its bytes, from the first up to the one behind its last.
/// It was mended, so that the reader goes on behind it; or it was left out.
#[derive(Clone, Copy)]
pub struct Mend {
    pub start: u32,
    pub end: u32,
    pub is_left_out: bool,
    /// Whether it is of the description, or follows such a one that is left out, so that the
    /// reader may wait for it still.
    pub is_awaited: bool,
}

/// A copy of a deck with room at the end of each line, the same with its faults mended, what was
/// mended there, which names were told that nothing has, how many faults may be passed, and how many
/// trials are left.
#[derive(Drop)]
pub struct MendedDeck {
    pub alloc: Global,
    pub room: usize,
    pub deck: Vec<u8>,
    pub bytes: Vec<u8>,
    pub mends: Vec<Mend>,
    pub unknown: Vec<Name>,
    pub passes: usize,
    pub trials: usize,
}

impl Mend {
    pub fn has(&self, at: u32) -> bool {
        self.start <= at && at < self.end
    }
}

/// How much room the lines of a deck get, so that it is no deck of too many bytes.
fn room_of_lines(deck: &[u8]) -> usize {
    let lines = deck.iter().filter(|byte| **byte == b'\n').count();
    (DECK_LIMIT.saturating_sub(deck.len()) / lines.max(1)).min(MOST_ROOM)
}

/// A deck with so many spaces more at the end of each line.
fn with_room(alloc: Global, deck: &[u8], room: usize) -> Result<Vec<u8>, AllocError> {
    let mut bytes = Vec::new(alloc);
    for byte in deck {
        if *byte == b'\n' {
            for _ in 0..room {
                bytes.push(b' ')?;
            }
        }
        bytes.push(*byte)?;
    }
    Ok(bytes)
}

/// How often a deck of this length may be read again.
fn readings_of(length: usize) -> usize {
    READ_BYTES / length.max(1)
}

impl MendedDeck {
    /// A copy in which nothing is mended.
    pub fn of(alloc: Global, deck: &[u8]) -> Result<Self, AllocError> {
        let room = room_of_lines(deck);
        Ok(MendedDeck {
            alloc,
            room,
            deck: with_room(alloc, deck, room)?,
            bytes: with_room(alloc, deck, room)?,
            mends: Vec::new(alloc),
            unknown: Vec::new(alloc),
            passes: readings_of(deck.len()).min(PASSES),
            trials: readings_of(deck.len()).min(TRIALS),
        })
    }

    /// Where a word of the copy stands in the deck that was given.
    pub fn given_place(&self, place: WordPlace) -> WordPlace {
        let lines = place.line.saturating_sub(1);
        let room = lines.saturating_mul(self.room as u64);
        let moved = u32::try_from(room).unwrap_or(0);
        WordPlace {
            line: place.line,
            start: place.start.saturating_sub(moved),
            end: place.end.saturating_sub(moved),
        }
    }

    /// The bytes of a word of the copy.
    pub fn text(&self, place: WordPlace) -> &[u8] {
        match self.bytes.get(place.start as usize..place.end as usize) {
            Some(text) => text,
            None => &[],
        }
    }

    /// Whether something was mended in these bytes.
    pub fn is_mended(&self, start: u32, end: u32) -> bool {
        self.mends
            .iter()
            .any(|mend| start <= mend.start && mend.start < end)
    }

    /// Notes that an entry with these words was mended.
    pub fn note(&mut self, entry: &[WordPlace]) -> Result<(), AllocError> {
        if let (Some(first), Some(last)) = (entry.first(), entry.last()) {
            self.mends.push(Mend {
                start: first.start,
                end: last.end,
                is_left_out: false,
                is_awaited: false,
            })?;
        }
        Ok(())
    }

    /// Leaves out an entry or a sentence with these words; a file description with its items.
    pub fn leave_out(&mut self, entry: &[WordPlace], is_awaited: bool) -> Result<(), AllocError> {
        let (Some(first), Some(last)) = (entry.first(), entry.last()) else {
            return Ok(());
        };
        let end = if says(self.text(*first), "FD") {
            description_end(&self.bytes, last.end)
        } else {
            last.end
        };
        self.mends.push(Mend {
            start: first.start,
            end,
            is_left_out: true,
            is_awaited: is_awaited || first.start <= procedure_start(&self.deck),
        })?;
        blank(&mut self.bytes, first.start as usize, end as usize);
        Ok(())
    }
}

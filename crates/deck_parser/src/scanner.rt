//! The words of a deck, a piece at a time.
ghost use Rattle.std.specs.Prelude.{◌≤◌, length, IfOk, IfErr, MatchResult};
ghost use Rattle.deck_parser.specs.Words.{HasWords, RefusesWords};
ghost use Rattle.deck_parser.specs.Fault.{HasFault};
ghost use Rattle.deck_parser.specs.OneReading.{HaveOneReading};

use crate::fault::{DeckFault, FaultCause, Limit, ParseRefusal};
use crate::piece::{bad_piece_len, front_piece};
use crate::place::WordPlace;
use crate::remaining::Words;

/// The most bytes of a deck.
pub const DECK_LIMIT: usize = 1_048_576;

/// The place of a fault that is at no word.
const NOWHERE: WordPlace = WordPlace {
    line: 1,
    start: 0,
    end: 0,
};

/// Where the bytes at the front of the rest of a deck stand that are no word.
fn bad_place(bytes: &[u8], line: u64, rest: &[u8]) -> WordPlace
    requires { length bytes.now ≤ 1048576 }
{
    let start = bytes.len().saturating_sub(rest.len());
    let end = start.saturating_add(bad_piece_len(rest)).min(bytes.len());
    WordPlace {
        line,
        start: start as u32,
        end: end as u32,
    }
}

/// The words of a deck, or the first fault of them, as `words` has it.
pub fn scan(bytes: &[u8]) -> Result<Words<'_>, ParseRefusal>
    ensures { MatchResult result (HasWords bytes.now) (RefusesWords bytes.now) }
{
    if bytes.len() > DECK_LIMIT {
        return Err(ParseRefusal::Fault(1, NOWHERE, FaultCause::Limit(Limit::Bytes)));
    }
    let mut line = 1;
    let mut last_line = 1;
    let mut count = 0;
    let mut rest = bytes;
    'more: while !rest.is_empty() {
        let Some(piece) = front_piece(line, rest) else {
            return Err(ParseRefusal::Fault(
                line,
                bad_place(bytes, line, rest),
                FaultCause::BadWord,
            ));
        };
        let new = piece.count();
        if new > 0 {
            last_line = piece.line;
        }
        count += new;
        line = piece.line;
        rest = piece.rest;
    }
    Ok(Words::new(bytes, count, last_line))
}

/// The words of a deck, or its first fault: code 6, at line 1, for more than `DECK_LIMIT` bytes; or
/// code 1 for bytes that are no word, at the line of the first of them. It takes no memory: the
/// words are cut from the bytes again where they are read.
pub fn words(bytes: &[u8]) -> Result<Words<'_>, DeckFault>
    ensures words { IfOk result (HasWords bytes.now) }
    ensures fault { IfErr result (HasFault bytes.now) }
{
    Ok(scan(bytes)?)
}

/// A deck has one reading: no two lists of words, no fault beside words, and no two faults but want
/// of memory.
pub fn one_reading()
    ensures { HaveOneReading }
{}

//! The words that are still to come at a place of a deck.
ghost use Rattle.std.specs.Prelude.{◌≡◌, ◌+◌, ◌^◌, ◌<◌, ◌≤◌, [], ◌∷◌, ◌++◌, length, drop, MatchOption};
ghost use Rattle.deck_parser.specs.Front.{rest_of};
ghost use Rattle.deck_parser.specs.Remaining.{words_from, GivesFirstWords};

use crate::piece::{Piece, front_piece};
use crate::place::WordPlace;
use crate::word::{Word, WordText};
use std::marker::Model;

/// The words of a deck from a place on. They are cut from the bytes of the deck one by one, so they
/// take no memory. Contracts see a list of words.
#[derive(Drop)]
pub struct Words<'a> {
    line: u64,
    rest: &'a [u8],
    period: bool,
    count: usize,
    last_line: u64,
    deck_len: u32,
}

impl<'a> Model for Words<'a> {
    ghost use Rattle.std.specs.Prelude.{◌≡◌, ◌+◌, ◌≤◌, List, length};
    ghost use Rattle.deck_parser.specs.Word.{Word};
    ghost use Rattle.deck_parser.specs.Front.{rest_of};
    ghost use Rattle.deck_parser.specs.Remaining.{words_at};

    ghost Value = { List Word };

    ghost view = { λ w. words_at w.period (rest_of w.line w.rest.now) };

    ghost invariant = { λ w. (w.count ≡ length (words_at w.period (rest_of w.line w.rest.now)))
        × (w.count ≤ 1048576) × (w.line + length w.rest.now ≤ 1048577) };
}

/// What the first piece gives that gives words.
fn first_words(line: u64, bytes: &[u8]) -> Option<Piece<'_>>
    requires room { line + length bytes.now ≤ 1048577 }
    ensures { GivesFirstWords (rest_of line bytes.now) result }
{
    let mut here = line;
    let mut rest = bytes;
    'more: while !rest.is_empty() {
        let Some(piece) = front_piece(here, rest) else {
            return None;
        };
        if piece.count() > 0 {
            return Some(piece);
        }
        here = piece.line;
        rest = piece.rest;
    }
    None
}

/// How many bytes of a deck of this length stand before a place at which so many are left.
fn place_before(deck_len: u32, left: usize) -> u32 {
    (deck_len as usize).saturating_sub(left) as u32
}

impl<'a> Words<'a> {
    /// The words of a deck, of which there are so many, and the line of the last one.
    pub fn new(bytes: &'a [u8], count: usize, last_line: u64) -> Self
        requires counted { count ≡ length (words_from (rest_of 1 bytes.now)) }
        requires few { count ≤ 1048576 }
        requires short { length bytes.now ≤ 1048576 }
        ensures { result ≡ words_from (rest_of 1 bytes.now) }
    {
        Words {
            line: 1,
            rest: bytes,
            period: false,
            count,
            last_line,
            deck_len: bytes.len() as u32,
        }
    }

    /// The same words.
    pub fn copy(&self) -> Self
        ensures { result ≡ self.now }
    {
        Words {
            line: self.line,
            rest: self.rest,
            period: self.period,
            count: self.count,
            last_line: self.last_line,
            deck_len: self.deck_len,
        }
    }

    /// How many words there are.
    pub fn len(&self) -> usize
        ensures count { result ≡ length self.now }
        ensures few { result ≤ 1048576 }
    {
        self.count
    }

    /// Where the deck ends: at the line of its last word, and with no bytes.
    pub fn end(&self) -> WordPlace {
        WordPlace {
            line: self.last_line,
            start: self.deck_len,
            end: self.deck_len,
        }
    }

    /// Takes the next word.
    pub fn next(&mut self) -> Option<Word<'a>>
        ensures { MatchOption result ((self.old ≡ []) × (self.new ≡ []))
            (λ word. self.old ≡ word ∷ self.new) }
    {
        if self.period {
            self.period = false;
            self.count -= 1;
            return Some(Word {
                line: self.line,
                start: place_before(self.deck_len, self.rest.len() + 1),
                text: WordText::Period,
            });
        }
        let Some(piece) = first_words(self.line, self.rest) else {
            return None;
        };
        let Piece {
            word,
            period,
            line,
            left,
            rest,
        } = piece;
        self.line = line;
        self.rest = rest;
        self.count -= 1;
        match word {
            Some(word) => {
                self.period = period;
                Some(word.word(place_before(self.deck_len, left)))
            }
            None => Some(Word {
                line,
                start: place_before(self.deck_len, left),
                text: WordText::Period,
            }),
        }
    }

    /// The words behind so many.
    pub fn skip(&self, count: usize) -> Self
        ensures { result ≡ drop count self.now }
    {
        let mut words = self.copy();
        for _ in 0..count {
            words.next();
        }
        words
    }
}

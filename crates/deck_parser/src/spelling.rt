//! A word as it is spelled in a deck.
ghost use Rattle.std.specs.Prelude.{◌≡◌};
ghost use Rattle.deck_parser.specs.Front.{is_plain_text};

use crate::literal::Quoted;
use crate::text::capitals_of;
use crate::word::{Sign, Word, WordText};
use std::marker::Model;

/// The bytes of a plain word, at most 30, as they stand in the deck. Contracts see them in capitals.
#[derive(Drop)]
pub struct PlainBytes<'a> {
    bytes: &'a [u8],
}

impl<'a> Model for PlainBytes<'a> {
    ghost use Rattle.std.specs.Prelude.{◌≡◌, true, ℕ, List, map};
    ghost use Rattle.deck_parser.specs.ByteClass.{capital};
    ghost use Rattle.deck_parser.specs.Front.{is_plain_text};

    ghost Value = { List ℕ };

    ghost view = { λ p. map capital p.bytes.now };

    ghost invariant = { λ p. is_plain_text p.bytes.now ≡ true };
}

impl<'a> PlainBytes<'a> {
    ghost use Rattle.std.specs.Prelude.{◌≡◌, true, map};
    ghost use Rattle.deck_parser.specs.ByteClass.{capital};

    /// The bytes of a plain word.
    pub fn new(bytes: &'a [u8]) -> Self
        requires { is_plain_text bytes.now ≡ true }
        ensures { result ≡ map capital bytes.now }
    {
        PlainBytes { bytes }
    }
}

/// What a word says, before any of it is copied.
#[derive(Drop)]
pub enum Spelled<'a> {
    Plain(PlainBytes<'a>),
    Literal(Quoted<'a>),
    Sign(Sign),
}

/// A word other than a period, and the line of its first byte. It takes no copy of the deck.
/// Contracts see the word.
#[derive(Drop)]
pub struct Spelling<'a> {
    pub line: u64,
    pub says: Spelled<'a>,
}

impl<'a> Model for Spelling<'a> {
    ghost use Rattle.deck_parser.specs.Word.{Word as Seen, word_of};
    ghost use Rattle.deck_parser.specs.Spelling.{spelled_kind, spelled_text};

    ghost Value = { Seen };

    ghost view = { λ s. word_of s.line (spelled_kind s.says) (spelled_text s.says) };
}

impl<'a> Spelling<'a> {
    /// The word, in capitals where it is plain, whose first byte stands there.
    pub fn word(self, start: u32) -> Word<'a>
        ensures { result ≡ self.entry }
    {
        let Spelling { line, says } = self;
        match says {
            Spelled::Plain(plain) => Word {
                line,
                start,
                text: WordText::Plain(capitals_of(plain.bytes)),
            },
            Spelled::Literal(text) => Word {
                line,
                start,
                text: WordText::Literal(text),
            },
            Spelled::Sign(sign) => Word {
                line,
                start,
                text: WordText::Sign(sign),
            },
        }
    }
}

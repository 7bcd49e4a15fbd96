//! A piece of a deck: a byte of white space, a literal or a run.
ghost use Rattle.std.specs.Prelude.{◌≡◌, ◌^◌, ◌<◌};
ghost use Rattle.deck_parser.specs.Front.{piece_at, rest_of};

use crate::byte_class::{is_mark_byte, is_space_byte};
use crate::literal::{bad_literal_len, literal_piece};
use crate::run::{run_len, run_piece};
use crate::spelling::Spelling;
use std::marker::Model;

/// What a piece gives: a word, if there is one, a period behind it, if there is one, and what is
/// left of the deck behind the piece, with its line. `left` bytes are left before the piece.
/// Contracts see the words and what is left behind it.
#[derive(Drop)]
pub struct Piece<'a> {
    pub word: Option<Spelling<'a>>,
    pub period: bool,
    pub line: u64,
    pub left: usize,
    pub rest: &'a [u8],
}

impl<'a> Model for Piece<'a> {
    ghost use Rattle.deck_parser.specs.Front.{Next, rest_of};
    ghost use Rattle.deck_parser.specs.Remaining.{found};

    ghost Value = { Next };

    ghost view = { λ p. (found p.line p.word p.period, rest_of p.line p.rest.now) };
}

impl<'a> Piece<'a> {
    ghost use Rattle.std.specs.Prelude.{◌≡◌, length};

    /// How many words it gives.
    pub fn count(&self) -> usize
        ensures { result ≡ length self.now.0 }
    {
        usize::from(self.word.is_some()) + usize::from(self.period)
    }
}

/// What the piece at the front gives, if one stands there.
#[tactic(auto, unfolding(crate::specs::Front::piece_at))]
pub fn front_piece(line: u64, bytes: &[u8]) -> Option<Piece<'_>>
    requires room { line < 2 ^ 63 }
    ensures { result ≡ piece_at (rest_of line bytes.now) }
{
    let (first, after) = bytes.split_first()?;
    if is_space_byte(*first) {
        return Some(Piece {
            word: None,
            period: false,
            line: if *first == b'\n' { line + 1 } else { line },
            left: bytes.len(),
            rest: after,
        });
    }
    if is_mark_byte(*first) {
        return literal_piece(line, *first, after);
    }
    run_piece(line, bytes)
}

/// How many bytes there are of what is no piece: of a literal that is none, or of a run.
pub fn bad_piece_len(bytes: &[u8]) -> usize {
    match bytes.split_first() {
        Some((first, after)) if is_mark_byte(*first) => bad_literal_len(*first, after),
        _ => run_len(bytes),
    }
}

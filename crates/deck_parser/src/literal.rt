//! A literal.
ghost use Rattle.std.specs.Prelude.{◌≡◌, ℕ, List, length, option_map, IfOk};
ghost use Rattle.deck_parser.specs.Literal.{cut_literal, text_of_cut, length_cut};
ghost use Rattle.deck_parser.specs.Front.{literal_at, ends_literal};

use crate::byte_class::{is_literal_byte, is_space_byte};
use crate::piece::Piece;
use crate::spelling::{Spelled, Spelling};
use record_layout::Bytes;
use std::alloc::{AllocError, Global};
use std::marker::Model;

/// The most bytes of a literal, each doubled mark counted once.
const LITERAL_LIMIT: usize = 1_000;

/// A literal, from behind its first mark on. Contracts see its text, in which a doubled mark stands once.
#[derive(Drop)]
pub struct Quoted<'a> {
    mark: u8,
    bytes: &'a [u8],
    written: usize,
}

impl<'a> Model for Quoted<'a> {
    ghost use Rattle.std.specs.Prelude.{ℕ, List};
    ghost use Rattle.deck_parser.specs.Literal.{cut_literal, text_of_cut};

    ghost Value = { List ℕ };

    ghost view = { λ q. text_of_cut (cut_literal q.mark q.bytes.now) };
}

impl<'a> Quoted<'a> {
    /// How many bytes it has in the deck, its marks among them.
    pub fn written_len(&self) -> usize {
        self.written
    }

    /// The text, in memory of its own.
    pub fn text(&self, alloc: Global) -> Result<Bytes, AllocError>
        ensures { IfOk result (λ text. text ≡ self.now) }
    {
        text_before(alloc, self.mark, self.bytes)
    }
}

/// The text from behind a mark up to the next same mark that is not doubled, or nothing where there is none.
fn text_before(alloc: Global, mark: u8, bytes: &[u8]) -> Result<Bytes, AllocError>
    ensures { IfOk result (λ text. text ≡ text_of_cut (cut_literal mark bytes.now)) }
{
    let mut text = Vec::new(alloc);
    let mut rest = bytes;
    'more: while let Some((byte, after)) = rest.split_first() {
        if *byte != mark {
            if !is_literal_byte(*byte) {
                return Ok(Bytes::from_vec(Vec::new(alloc)));
            }
            text.push(*byte)?;
            rest = after;
            continue;
        }
        match after.split_first() {
            Some((next, more)) if *next == mark => {
                text.push(mark)?;
                rest = more;
            }
            _ => return Ok(Bytes::from_vec(text)),
        }
    }
    Ok(Bytes::from_vec(Vec::new(alloc)))
}

/// How many bytes the text behind a mark has, and what follows the mark that closes it.
fn length_before(mark: u8, bytes: &[u8]) -> Option<(usize, &[u8])>
    ensures { option_map {U = ℕ × List ℕ} (λ cut. (cut.0, cut.1.now)) result
        ≡ length_cut (cut_literal mark bytes.now) }
{
    let mut count = 0;
    let mut rest = bytes;
    'more: while let Some((byte, after)) = rest.split_first() {
        if *byte != mark {
            if !is_literal_byte(*byte) {
                return None;
            }
            count += 1;
            rest = after;
            continue;
        }
        match after.split_first() {
            Some((next, more)) if *next == mark => {
                count += 1;
                rest = more;
            }
            _ => return Some((count, after)),
        }
    }
    None
}

/// Whether a literal may end before this.
fn may_follow_literal(rest: &[u8]) -> bool
    ensures { result ≡ ends_literal rest.now }
{
    match rest.first() {
        Some(byte) => is_space_byte(*byte) || matches!(*byte, b'.' | b',' | b';'),
        None => true,
    }
}

/// How many bytes a literal has that is none: up to the mark that closes it, or to the end of its line.
pub fn bad_literal_len(mark: u8, bytes: &[u8]) -> usize {
    let behind = match length_before(mark, bytes) {
        Some((_, rest)) => bytes.len().saturating_sub(rest.len()),
        None => bytes
            .iter()
            .take_while(|byte| is_literal_byte(**byte))
            .count(),
    };
    behind.saturating_add(1)
}

/// The literal that begins behind this mark.
pub fn literal_piece(line: u64, mark: u8, bytes: &[u8]) -> Option<Piece<'_>>
    ensures { result ≡ literal_at line (cut_literal mark bytes.now) }
{
    let (length, rest) = length_before(mark, bytes)?;
    if length == 0 || length > LITERAL_LIMIT || !may_follow_literal(rest) {
        return None;
    }
    let word = Spelling {
        line,
        says: Spelled::Literal(Quoted {
            mark,
            bytes,
            written: (bytes.len() + 1).saturating_sub(rest.len()),
        }),
    };
    Some(Piece {
        word: Some(word),
        period: false,
        line,
        left: bytes.len() + 1,
        rest,
    })
}

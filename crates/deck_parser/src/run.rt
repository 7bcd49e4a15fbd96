//! A run: the bytes up to white space or a mark.
ghost use Rattle.std.specs.Prelude.{◌≡◌, ◌<◌, ◌≤◌, false, length, option_map};
ghost use Rattle.std.specs.List.{list_all, prefix_len};
ghost use Rattle.deck_parser.specs.ByteClass.{is_of_run, is_of_word};
ghost use Rattle.deck_parser.specs.Word.{sign_text};
ghost use Rattle.deck_parser.specs.Words.{body_words, run_words};
ghost use Rattle.deck_parser.specs.Front.{sign_in, is_plain_text, run_at, ends_run};
ghost use Rattle.deck_parser.specs.Remaining.{found};

use crate::byte_class::{is_run_byte, is_space_byte, is_word_byte};
use crate::piece::Piece;
use crate::spelling::{PlainBytes, Spelled, Spelling};
use crate::word::Sign;

/// The most bytes of a plain word.
const WORD_LIMIT: usize = 30;

/// The sign that a text is, if it is one.
fn sign_of(text: &[u8]) -> Option<Sign>
    ensures { option_map sign_text result ≡ sign_in text.now }
{
    if text == b"=".as_slice() {
        return Some(Sign::Equal);
    }
    if text == b">".as_slice() {
        return Some(Sign::Greater);
    }
    if text == b">=".as_slice() {
        return Some(Sign::GreaterOrEqual);
    }
    if text == b"<".as_slice() {
        return Some(Sign::Less);
    }
    None
}

fn has_word_bytes(body: &[u8]) -> bool
    ensures { result ≡ list_all is_of_word body.now }
{
    body.iter().all(|byte| is_word_byte(*byte))
}

/// Whether the bytes are a plain word.
fn is_plain(body: &[u8]) -> bool
    ensures { result ≡ is_plain_text body.now }
{
    body.len() <= WORD_LIMIT && has_word_bytes(body)
}

/// The word of a run without its last point, comma or semicolon, if anything is left.
fn body_word(line: u64, body: &[u8]) -> Option<Option<Spelling<'_>>>
    ensures { option_map (λ word. found line word false) result ≡ body_words line body.now }
{
    if body.is_empty() {
        return Some(None);
    }
    let says = match sign_of(body) {
        Some(sign) => Spelled::Sign(sign),
        None if is_plain(body) => Spelled::Plain(PlainBytes::new(body)),
        None => return None,
    };
    Some(Some(Spelling { line, says }))
}

/// The words of a run: one at most, and whether a period stands behind it.
fn words_of(line: u64, run: &[u8]) -> Option<(Option<Spelling<'_>>, bool)>
    requires { 0 < length run.now }
    ensures { option_map (λ words. found line words.0 words.1) result ≡ run_words line run.now }
{
    let end = run.len() - 1;
    let body = &run[..end];
    match run[end] {
        b'.' => Some((body_word(line, body)?, true)),
        b',' | b';' => Some((body_word(line, body)?, false)),
        _ => Some((body_word(line, run)?, false)),
    }
}

/// How many bytes at the front belong to a run.
pub fn run_len(bytes: &[u8]) -> usize
    ensures run { result ≡ prefix_len is_of_run bytes.now }
    ensures within { result ≤ length bytes.now }
{
    bytes.iter().take_while(|byte| is_run_byte(**byte)).count()
}

/// Whether a run may end before this.
fn may_follow_run(rest: &[u8]) -> bool
    ensures { result ≡ ends_run rest.now }
{
    match rest.first() {
        Some(byte) => is_space_byte(*byte),
        None => true,
    }
}

/// The run at the front.
pub fn run_piece(line: u64, bytes: &[u8]) -> Option<Piece<'_>>
    requires { 0 < prefix_len is_of_run bytes.now }
    ensures { result ≡ run_at line bytes.now }
{
    let end = run_len(bytes);
    let run = &bytes[..end];
    let rest = &bytes[end..];
    if !may_follow_run(rest) {
        return None;
    }
    let (word, period) = words_of(line, run)?;
    Some(Piece {
        word,
        period,
        line,
        left: bytes.len(),
        rest,
    })
}

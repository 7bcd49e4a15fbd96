//! What of a line in UTF-8 is no byte of a record.
ghost use Rattle.std.specs.Prelude.{◌<◌, ◌≤◌, length};

use crate::escape::character_byte;
use std::str;

/// What no list in UTF-8 writes.
#[derive(Clone, Copy, Debug, PartialEq, Eq)]
pub enum Foreign {
    /// A character of this number: it is neither ASCII nor one from U+00A0 to U+00FF.
    Character(u32),
    /// This byte, where no character begins.
    Byte(u8),
}

/// How many bytes the character has that a byte begins.
fn size_by(lead: u8) -> usize {
    match lead {
        0..=223 => 2,
        224..=239 => 3,
        _ => 4,
    }
}

/// What a text begins with.
fn foreign_at(text: &[u8]) -> Foreign
    requires { 0 < length text.now }
{
    let lead = text[0];
    let Some(bytes) = text.get(..size_by(lead)) else {
        return Foreign::Byte(lead);
    };
    match str::from_utf8(bytes) {
        Ok(character) => match character.chars().next() {
            Some(character) => Foreign::Character(character as u32),
            None => Foreign::Byte(lead),
        },
        Err(_) => Foreign::Byte(lead),
    }
}

/// How many bytes at the front of a text are a character of ASCII or one from U+00A0 to U+00FF: 0 where
/// none is.
fn taken_size(text: &[u8]) -> usize
    ensures { result ≤ length text.now }
{
    match text {
        [] => 0,
        [lead, ..] if *lead < 128 => 1,
        [lead, next, ..] if character_byte(*lead, *next).is_some() => 2,
        _ => 0,
    }
}

/// The first of a line that no list in UTF-8 writes.
fn foreign_in(line: &[u8]) -> Option<Foreign> {
    let mut rest = line;
    'more: while !rest.is_empty() {
        let size = taken_size(rest);
        if size == 0 {
            return Some(foreign_at(rest));
        }
        let (_, behind) = rest.split_at(size);
        rest = behind;
    }
    None
}

/// How many bytes stand before the first LF, or all.
fn line_length(text: &[u8]) -> usize
    ensures { result ≤ length text.now }
{
    let mut at = 0;
    'more: while at < text.len() && text[at] != b'\n' {
        at += 1;
    }
    at
}

/// The lines of a text in UTF-8, from one on.
#[derive(Clone, Copy, Debug)]
pub struct ForeignLines<'t> {
    rest: &'t [u8],
    number: u64,
}

impl<'t> ForeignLines<'t> {
    /// All lines of a text.
    pub fn new(text: &'t [u8]) -> ForeignLines<'t> {
        ForeignLines {
            rest: text,
            number: 1,
        }
    }

    /// The first of the line of this number, from 1 on, that no list in UTF-8 writes. It is not asked for
    /// a line before the last one that was asked for.
    pub fn first_in(&mut self, number: u64) -> Option<Foreign> {
        'lines: while self.number < number {
            let text = self.rest;
            let size = line_length(text);
            if size == text.len() {
                return None;
            }
            let (_, behind) = text.split_at(size + 1);
            self.rest = behind;
            self.number += 1;
        }
        let text = self.rest;
        let (line, _) = text.split_at(line_length(text));
        foreign_in(line)
    }
}

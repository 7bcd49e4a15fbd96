//! The record area, and MOVE.
ghost use Rattle.std.specs.Prelude.{◌≡◌, ◌+◌, ◌≤◌, ◌++◌, length, take, drop, replicate, IsTrue};
ghost use Rattle.record_layout.specs.Area.{character_of, is_taken_by, moved, sent};

use crate::Bytes;
use crate::item::Field;

/// A figurative constant.
#[derive(Clone, Copy, Debug, PartialEq, Eq)]
pub enum Figure {
    Space,
    Zero,
    Low,
    High,
}

/// What a MOVE sends: a text, digits alone, or a figurative constant.
#[derive(Clone, Copy, Debug, Drop)]
pub enum Source<T> {
    Text(T),
    Digits(T),
    Fill(Figure),
}

impl Source<Bytes> {
    /// The same source, with its bytes borrowed.
    pub fn as_ref(&self) -> Source<&[u8]>
        ensures { sent result ≡ self.now }
    {
        match self {
            Source::Text(text) => Source::Text(text.as_slice()),
            Source::Digits(digits) => Source::Digits(digits.as_slice()),
            Source::Fill(figure) => Source::Fill(*figure),
        }
    }
}

/// Whether the item takes the source: a numeric item takes digits and ZERO alone, and any other
/// item takes all.
pub fn takes(field: Field, source: &Source<&[u8]>) -> bool
    ensures { result ≡ is_taken_by field.numeric (sent source.now) }
{
    match source {
        Source::Digits(_) | Source::Fill(Figure::Zero) => true,
        Source::Text(_) | Source::Fill(_) => !field.numeric,
    }
}

/// The MOVE statement: fits the source to the item, and writes no other byte of the area.
pub fn put(area: &mut [u8], field: Field, source: &Source<&[u8]>)
    requires within { field.offset + field.length ≤ length area.old }
    requires taken { IsTrue (is_taken_by field.numeric (sent source.now)) }
    ensures { area.new ≡ moved field (sent source.now) area.old }
{
    let start = usize::from(field.offset);
    let end = start + usize::from(field.length);
    let item = &mut area[start..end];
    match source {
        Source::Digits(digits) if field.numeric => justify_right(item, digits),
        Source::Text(text) | Source::Digits(text) => justify_left(item, text),
        Source::Fill(figure) => item.fill(figure.character()),
    }
}

/// Writes the text from the left on: spaces follow it, or its excess is cut on the right.
fn justify_left(item: &mut [u8], text: &[u8])
    ensures { item.new ≡ take (length item.old) (text.now ++ replicate (length item.old) 32) }
{
    let taken = text.len().min(item.len());
    let (front, rest) = item.split_at_mut(taken);
    front.copy_from_slice(&text[..taken]);
    rest.fill(b' ');
}

/// Writes the digits up to the right end: zeros stand before them, or their excess is cut on the left.
fn justify_right(item: &mut [u8], digits: &[u8])
    ensures { item.new ≡ drop (length digits.now) (replicate (length item.old) 48 ++ digits.now) }
{
    let taken = digits.len().min(item.len());
    let (front, rest) = item.split_at_mut(item.len() - taken);
    front.fill(b'0');
    rest.copy_from_slice(&digits[digits.len() - taken..]);
}

impl Figure {
    /// The character that it repeats.
    fn character(self) -> u8
        ensures { result ≡ character_of self }
    {
        match self {
            Figure::Space => b' ',
            Figure::Zero => b'0',
            Figure::Low => 0,
            Figure::High => 255,
        }
    }
}

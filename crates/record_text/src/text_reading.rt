//! The reading of a line of text.
ghost use Rattle.std.specs.Prelude.{◌≡◌, ◌<◌, ◌+◌, ◌^◌, ◌∷◌, length, drop, true, false, IfOk, IfErr, OnErr};
ghost use Rattle.record_text.specs.declared.form.Form.TheVariants.{Text};
ghost use Rattle.record_text.specs.Quoted.{LacksFront};
ghost use Rattle.record_text.specs.ReadLine.{ReadsLine, BeginsWithNoLine};
ghost use Rattle.record_text.specs.Mistake.{IsTextMistake, IsLongText};

use crate::line_reading::RecordLine;
use crate::mistake::{LineMistake, stray_of};
use crate::shown_byte::first_byte;

/// Whether the record of a line ends there.
fn is_end(text: &[u8]) -> bool
    ensures yes { result ≡ true → text.now ≡ 93 ∷ 10 ∷ drop 2 text.now }
    ensures no { result ≡ false → LacksFront (λ behind. 93 ∷ 10 ∷ behind) text.now }
{
    text.len() >= 2 && text[0] == b']' && text[1] == b'\n'
}

/// The mistake in a line whose record has more bytes than there is room for: so many were read, and
/// those behind them are counted.
fn long_record(text: &[u8], read: usize, least: u16, most: usize) -> LineMistake
    requires room { read + length text.now < 2 ^ 64 }
    ensures { IsLongText text.now read least most result }
{
    let mut rest = text;
    let mut bytes = read;
    'more: while !is_end(rest) {
        let Some(first) = first_byte(rest) else {
            let stray = stray_of(rest);
            return LineMistake::Byte { bytes, stray };
        };
        bytes += 1;
        let (_, left) = rest.split_at(first.size);
        rest = left;
    }
    LineMistake::Length {
        bytes,
        least: usize::from(least),
        most,
    }
}

/// Reads the record whose line a text begins with, in brackets, into the first bytes of the area.
/// Where the text begins with the line of no record that the area has room for, it answers a mistake.
pub fn read_text<'a>(
    text: &'a [u8],
    least: u16,
    area: &mut [u8],
) -> Result<RecordLine<'a>, LineMistake>
    ensures read { IfOk result (λ line. ReadsLine Text text.now area.old area.new line.length
        line.behind.now) }
    ensures none { OnErr result (BeginsWithNoLine Text text.now (length area.old)) }
    ensures mistake { IfErr result (IsTextMistake text.now least (length area.old)) }
{
    if text.is_empty() || text[0] != b'[' {
        return Err(LineMistake::Opening(b'['));
    }
    let mut rest = &text[1..];
    let mut length = 0;
    'more: while !is_end(rest) {
        let Some(first) = first_byte(rest) else {
            let stray = stray_of(rest);
            return Err(LineMistake::Byte {
                bytes: length,
                stray,
            });
        };
        if length >= area.len() {
            return Err(long_record(rest, length, least, area.len()));
        }
        area[length] = first.byte;
        length += 1;
        let (_, left) = rest.split_at(first.size);
        rest = left;
    }
    Ok(RecordLine {
        length,
        behind: &rest[2..],
    })
}

//! The line that tells what is wrong with a line that is no record's.
ghost use Rattle.std.specs.Prelude.{◌≡◌, [], ◌∷◌, decimal, OnOk};
ghost use Rattle.std.specs.Io.KnownBytes.{Appends};
ghost use Rattle.record_loading.specs.MistakeLine.{characters_text, hex_text, stray_byte_text, lacking_text};
ghost use Rattle.record_loading.specs.MistakeLine.{stray_text, wanted_lengths_text};
ghost use Rattle.record_loading.specs.MistakeLine.{value_mistake_text, column_mistake_text, ending_text};
ghost use Rattle.record_loading.specs.MistakeLine.{line_mistake_text, mistake_line, told_mistake, end_mistake};

use crate::end::{LinesEnd, LoadEnd};
use crate::rejected::RejectReason;
use itoa::Buffer;
use record_text::{ColumnMistake, LineMistake, Stray, ValueMistake};
use std::io::{self, Write};
use streams::hex_digit;

/// Writes a number.
fn write_number<W: Write>(out: &mut W, n: u64) -> io::Result<()>
    ensures { OnOk result (Appends (W.contents out.old) (W.contents out.new) (decimal n)) }
{
    let mut buffer = Buffer::new();
    out.write_all(buffer.format(n).as_bytes())
}

/// Writes how many characters there are.
fn write_characters<W: Write>(out: &mut W, count: usize) -> io::Result<()>
    ensures { OnOk result (Appends (W.contents out.old) (W.contents out.new) (characters_text count)) }
{
    write_number(out, count as u64)?;
    if count == 1 {
        return out.write_all(b" character");
    }
    out.write_all(b" characters")
}

/// Writes a byte as two hexadecimal digits.
fn write_hex<W: Write>(out: &mut W, byte: u8) -> io::Result<()>
    ensures { OnOk result (Appends (W.contents out.old) (W.contents out.new) (hex_text byte)) }
{
    let digits = [hex_digit(byte / 16), hex_digit(byte % 16)];
    out.write_all(&digits)
}

/// Writes a character.
fn write_char<W: Write>(out: &mut W, char: u8) -> io::Result<()>
    ensures { OnOk result (Appends (W.contents out.old) (W.contents out.new) (char ∷ [])) }
{
    let chars = [char];
    out.write_all(&chars)
}

/// Writes that this character is lacking, and where.
fn write_lacking<W: Write>(out: &mut W, char: u8, place: &[u8]) -> io::Result<()>
    ensures { OnOk result (Appends (W.contents out.old) (W.contents out.new)
        (lacking_text char place.now)) }
{
    out.write_all(b": no ")?;
    write_char(out, char)?;
    out.write_all(place)
}

/// Writes that this byte stands where one as it is listed has to.
fn write_stray_byte<W: Write>(out: &mut W, byte: u8) -> io::Result<()>
    ensures { OnOk result (Appends (W.contents out.old) (W.contents out.new) (stray_byte_text byte)) }
{
    out.write_all(b", then byte ")?;
    write_hex(out, byte)?;
    out.write_all(b", which no list writes")
}

/// Writes what stands where a byte as it is listed has to, or this ending.
fn write_stray<W: Write>(out: &mut W, ending: &[u8], stray: Stray) -> io::Result<()>
    ensures { OnOk result (Appends (W.contents out.old) (W.contents out.new) (stray_text ending.now stray)) }
{
    match stray {
        Stray::End => {
            out.write_all(b", then no ")?;
            out.write_all(ending)
        }
        Stray::Backslash => out.write_all(b", then an escape that no list writes"),
        Stray::Char(char) => write_stray_byte(out, char),
    }
}

/// Writes which lengths are wanted.
fn write_lengths<W: Write>(out: &mut W, least: usize, most: usize) -> io::Result<()>
    ensures { OnOk result (Appends (W.contents out.old) (W.contents out.new) (wanted_lengths_text least most)) }
{
    out.write_all(b", ")?;
    if least != most {
        write_number(out, least as u64)?;
        out.write_all(b" to ")?;
    }
    write_number(out, most as u64)?;
    out.write_all(b" wanted")
}

/// Writes what is wrong with a value, of which so many bytes are wanted.
fn write_value_mistake<W: Write>(out: &mut W, wanted: u16, mistake: ValueMistake) -> io::Result<()>
    ensures { OnOk result (Appends (W.contents out.old) (W.contents out.new)
        (value_mistake_text wanted mistake)) }
{
    match mistake {
        ValueMistake::Comma => out.write_all(b"no comma before it"),
        ValueMistake::Name => out.write_all(b"not its name before it"),
        ValueMistake::Quote => out.write_all(b"no quote before its value"),
        ValueMistake::Byte { bytes, stray } => {
            write_characters(out, bytes)?;
            write_stray(out, b"quote", stray)
        }
        ValueMistake::Long { bytes } | ValueMistake::Short { bytes } => {
            write_characters(out, bytes)?;
            write_lengths(out, usize::from(wanted), usize::from(wanted))
        }
    }
}

/// Writes which column has a mistake, and which one.
fn write_column_mistake<W: Write>(out: &mut W, told: ColumnMistake) -> io::Result<()>
    ensures { OnOk result (Appends (W.contents out.old) (W.contents out.new) (column_mistake_text told)) }
{
    out.write_all(b", column ")?;
    write_number(out, told.number as u64)?;
    out.write_all(b" ")?;
    out.write_all(told.name.as_str().as_bytes())?;
    out.write_all(b": ")?;
    write_value_mistake(out, told.wanted, told.mistake)
}

/// Writes which character is lacking behind the last value.
fn write_ending<W: Write>(out: &mut W, char: u8) -> io::Result<()>
    ensures { OnOk result (Appends (W.contents out.old) (W.contents out.new) (ending_text char)) }
{
    if char == b'\r' {
        return out.write_all(b": no CR behind its last value");
    }
    if char == b'\n' {
        return out.write_all(b": no LF at its end");
    }
    write_lacking(out, char, b" behind its last value")
}

/// Writes what is wrong with a line.
fn write_line_mistake<W: Write>(out: &mut W, mistake: LineMistake) -> io::Result<()>
    ensures { OnOk result (Appends (W.contents out.old) (W.contents out.new) (line_mistake_text mistake)) }
{
    match mistake {
        LineMistake::Names => out.write_all(b": not the names of the columns"),
        LineMistake::Opening(char) => write_lacking(out, char, b" at its beginning"),
        LineMistake::Byte { bytes, stray } => {
            out.write_all(b": ")?;
            write_characters(out, bytes)?;
            write_stray(out, b"] and LF", stray)
        }
        LineMistake::Length { bytes, least, most } => {
            out.write_all(b": ")?;
            write_characters(out, bytes)?;
            write_lengths(out, least, most)
        }
        LineMistake::Column(told) => write_column_mistake(out, told),
        LineMistake::Ending(char) => write_ending(out, char),
    }
}

/// Writes the line that tells the mistake in a line.
fn write_mistake_line<W: Write>(out: &mut W, line: u64, mistake: LineMistake) -> io::Result<()>
    ensures { OnOk result (Appends (W.contents out.old) (W.contents out.new) (mistake_line line mistake)) }
{
    out.write_all(b"line ")?;
    write_number(out, line)?;
    write_line_mistake(out, mistake)?;
    out.write_all(b"\n")
}

/// Writes the line that tells what is wrong with a line whose record was not written, where it is that
/// of no record.
pub fn write_mistake<W: Write>(out: &mut W, line: u64, reason: RejectReason) -> io::Result<()>
    ensures { OnOk result (Appends (W.contents out.old) (W.contents out.new) (told_mistake line reason)) }
{
    match reason {
        RejectReason::Refused(_) => Ok(()),
        RejectReason::NoRecord(mistake) => write_mistake_line(out, line, mistake),
    }
}

/// The same, of the line that ended a load, if one did.
pub fn write_end_mistake<W: Write>(out: &mut W, end: LoadEnd) -> io::Result<()>
    ensures { OnOk result (Appends (W.contents out.old) (W.contents out.new) (end_mistake end)) }
{
    match end {
        LoadEnd::Opened {
            lines: LinesEnd::NoRecord { line, mistake },
            ..
        } => write_mistake_line(out, line, mistake),
        _ => Ok(()),
    }
}

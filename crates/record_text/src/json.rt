//! A line of JSON.
ghost use Rattle.std.specs.Prelude.{map, flat_map};
ghost use Rattle.deck_runner.specs.Line.{shown_byte};
ghost use Rattle.record_text.specs.Columns.{text_of};
ghost use Rattle.record_text.specs.Json.{escaped, escaped_bytes, string, member, members, json_line};
ghost use Rattle.record_text.specs.Lines.{member_of, more_members};
ghost use Rattle.record_text.specs.Room.{AddsInRoom};

use crate::column::{Column, cell_of};
use crate::shown::escape_of;
use crate::text::{add, add_char};
use deck_runner::is_plain;
use std::alloc::AllocError;

/// Adds a byte to a string. The backslash of what is shown stands behind another one.
fn add_byte(text: &mut Vec<u8>, byte: u8) -> Result<(), AllocError>
    ensures { AddsInRoom text.old text.new (flat_map escaped (shown_byte byte)) result }
{
    if byte == b'"' {
        add(text, b"\\\"")
    } else if is_plain(byte) {
        add_char(text, byte)
    } else {
        add_char(text, b'\\')?;
        add(text, &escape_of(byte))
    }
}

/// Adds bytes to a string.
fn add_bytes(text: &mut Vec<u8>, bytes: &[u8]) -> Result<(), AllocError>
    ensures { AddsInRoom text.old text.new (escaped_bytes bytes.now) result }
{
    for byte in bytes {
        add_byte(text, *byte)?;
    }
    Ok(())
}

/// Adds the string of bytes.
fn add_string(text: &mut Vec<u8>, bytes: &[u8]) -> Result<(), AllocError>
    ensures { AddsInRoom text.old text.new (string (text_of bytes.now)) result }
{
    add_char(text, b'"')?;
    add_bytes(text, bytes)?;
    add_char(text, b'"')
}

/// Adds the member of a column.
fn add_member(text: &mut Vec<u8>, column: &Column, bytes: &[u8]) -> Result<(), AllocError>
    ensures { AddsInRoom text.old text.new (member (member_of bytes.now column.now)) result }
{
    add_string(text, column.name.as_str().as_bytes())?;
    add_char(text, b':')?;
    add_string(text, cell_of(column, bytes))
}

/// Adds the members of columns, each behind a comma.
fn add_more_members(text: &mut Vec<u8>, columns: &[Column], bytes: &[u8]) -> Result<(), AllocError>
    ensures { AddsInRoom text.old text.new (more_members bytes.now columns.now) result }
{
    for column in columns {
        add_char(text, b',')?;
        add_member(text, column, bytes)?;
    }
    Ok(())
}

/// Adds the members of columns.
fn add_members(text: &mut Vec<u8>, columns: &[Column], bytes: &[u8]) -> Result<(), AllocError>
    ensures { AddsInRoom text.old text.new (members (map (member_of bytes.now) columns.now)) result }
{
    let Some((first, rest)) = columns.split_first() else {
        return Ok(());
    };
    add_member(text, first, bytes)?;
    add_more_members(text, rest, bytes)
}

/// Adds the line of a record.
pub fn add_line(text: &mut Vec<u8>, columns: &[Column], bytes: &[u8]) -> Result<(), AllocError>
    ensures { AddsInRoom text.old text.new (json_line (map (member_of bytes.now) columns.now)) result }
{
    add_char(text, b'{')?;
    add_members(text, columns, bytes)?;
    add(text, b"}\n")
}

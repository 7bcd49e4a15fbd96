//! A line of CSV.
ghost use Rattle.std.specs.Prelude.{map, flat_map};
ghost use Rattle.deck_runner.specs.Line.{shown_byte};
ghost use Rattle.record_text.specs.Columns.{text_of, column_name, column_value};
ghost use Rattle.record_text.specs.Csv.{doubled_quote, doubled_bytes, field, fields, csv_line};
ghost use Rattle.record_text.specs.Lines.{more_values, more_names};
ghost use Rattle.record_text.specs.Room.{AddsInRoom};

use crate::column::{Column, cell_of};
use crate::shown::escape_of;
use crate::text::{add, add_char};
use deck_runner::is_plain;
use std::alloc::AllocError;

/// Adds a byte to a field.
fn add_byte(text: &mut Vec<u8>, byte: u8) -> Result<(), AllocError>
    ensures { AddsInRoom text.old text.new (flat_map doubled_quote (shown_byte byte)) result }
{
    if byte == b'"' {
        add(text, b"\"\"")
    } else if is_plain(byte) {
        add_char(text, byte)
    } else {
        add(text, &escape_of(byte))
    }
}

/// Adds bytes to a field.
fn add_bytes(text: &mut Vec<u8>, bytes: &[u8]) -> Result<(), AllocError>
    ensures { AddsInRoom text.old text.new (doubled_bytes bytes.now) result }
{
    for byte in bytes {
        add_byte(text, *byte)?;
    }
    Ok(())
}

/// Adds the field of bytes.
fn add_field(text: &mut Vec<u8>, bytes: &[u8]) -> Result<(), AllocError>
    ensures { AddsInRoom text.old text.new (field (text_of bytes.now)) result }
{
    add_char(text, b'"')?;
    add_bytes(text, bytes)?;
    add_char(text, b'"')
}

/// Adds the value of a column.
fn add_value(text: &mut Vec<u8>, column: &Column, bytes: &[u8]) -> Result<(), AllocError>
    ensures { AddsInRoom text.old text.new (field (column_value bytes.now column.now)) result }
{
    add_field(text, cell_of(column, bytes))
}

/// Adds the values of columns, each behind a comma.
fn add_more_values(text: &mut Vec<u8>, columns: &[Column], bytes: &[u8]) -> Result<(), AllocError>
    ensures { AddsInRoom text.old text.new (more_values bytes.now columns.now) result }
{
    for column in columns {
        add_char(text, b',')?;
        add_value(text, column, bytes)?;
    }
    Ok(())
}

/// Adds the values of columns.
fn add_values(text: &mut Vec<u8>, columns: &[Column], bytes: &[u8]) -> Result<(), AllocError>
    ensures { AddsInRoom text.old text.new (fields (map (column_value bytes.now) columns.now)) result }
{
    let Some((first, rest)) = columns.split_first() else {
        return Ok(());
    };
    add_value(text, first, bytes)?;
    add_more_values(text, rest, bytes)
}

/// Adds the line of a record.
pub fn add_line(text: &mut Vec<u8>, columns: &[Column], bytes: &[u8]) -> Result<(), AllocError>
    ensures { AddsInRoom text.old text.new (csv_line (map (column_value bytes.now) columns.now)) result }
{
    add_values(text, columns, bytes)?;
    add(text, b"\r\n")
}

/// Adds the name of a column.
fn add_name(text: &mut Vec<u8>, column: &Column) -> Result<(), AllocError>
    ensures { AddsInRoom text.old text.new (field (column_name column.now)) result }
{
    add_field(text, column.name.as_str().as_bytes())
}

/// Adds the names of columns, each behind a comma.
fn add_more_names(text: &mut Vec<u8>, columns: &[Column]) -> Result<(), AllocError>
    ensures { AddsInRoom text.old text.new (more_names columns.now) result }
{
    for column in columns {
        add_char(text, b',')?;
        add_name(text, column)?;
    }
    Ok(())
}

/// Adds the names of columns.
fn add_names(text: &mut Vec<u8>, columns: &[Column]) -> Result<(), AllocError>
    ensures { AddsInRoom text.old text.new (fields (map column_name columns.now)) result }
{
    let Some((first, rest)) = columns.split_first() else {
        return Ok(());
    };
    add_name(text, first)?;
    add_more_names(text, rest)
}

/// Adds the line of the names of columns.
pub fn add_name_line(text: &mut Vec<u8>, columns: &[Column]) -> Result<(), AllocError>
    ensures { AddsInRoom text.old text.new (csv_line (map column_name columns.now)) result }
{
    add_names(text, columns)?;
    add(text, b"\r\n")
}

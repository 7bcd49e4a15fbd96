//! The lines of records.
ghost use Rattle.std.specs.Prelude.{IfOk, vec_capacity};
ghost use Rattle.record_text.specs.Lines.{text_line, line_in, form_header};
ghost use Rattle.record_text.specs.Room.{AddsInRoom, IsLineRoom};

use crate::form::Form;
use crate::shown::add_shown;
use crate::text::{add, add_char};
use crate::{csv, json};
use std::alloc::{AllocError, Global};

/// Adds the line of a record in brackets.
fn append_text_line(text: &mut Vec<u8>, bytes: &[u8]) -> Result<(), AllocError>
    ensures { AddsInRoom text.old text.new (text_line bytes.now) result }
{
    add_char(text, b'[')?;
    add_shown(text, bytes)?;
    add(text, b"]\n")
}

/// Adds the line of a record of these bytes to a text. It is refused only where the text has no room
/// for it and gets none; a part of the line may be left behind the text then.
pub fn append_line(text: &mut Vec<u8>, form: &Form, bytes: &[u8]) -> Result<(), AllocError>
    ensures { AddsInRoom text.old text.new (line_in form.now bytes.now) result }
{
    match form {
        Form::Text => append_text_line(text, bytes),
        Form::Csv(columns) => csv::add_line(text, columns, bytes),
        Form::Json(columns) => json::add_line(text, columns, bytes),
    }
}

/// Adds what stands before the first line to a text. It is refused as `append_line` is.
pub fn append_header(text: &mut Vec<u8>, form: &Form) -> Result<(), AllocError>
    ensures { AddsInRoom text.old text.new (form_header form.now) result }
{
    match form {
        Form::Csv(columns) => csv::add_name_line(text, columns),
        Form::Text | Form::Json(_) => Ok(()),
    }
}

/// An empty text with room for the line of each record of so many bytes at most: that of zeros, which
/// is the longest, has stood in it.
pub fn line_room(alloc: Global, form: &Form, most: u16) -> Result<Vec<u8>, AllocError>
    ensures { IfOk result (λ line. IsLineRoom form.now most (vec_capacity line)) }
{
    let mut zeros = Vec::new(alloc);
    zeros.resize(usize::from(most), 0)?;
    let mut line = Vec::new(alloc);
    append_line(&mut line, form, zeros.as_slice())?;
    line.clear();
    Ok(line)
}

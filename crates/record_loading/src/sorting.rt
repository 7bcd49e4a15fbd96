//! A text is sorted by the prime values of its lines.
ghost use Rattle.std.specs.Prelude.{◌≡◌, ◌++◌, ◌<◌, ◌≤◌, length, flat_map, IfOk, OnOk};
ghost use Rattle.record_layout.specs.Schema.{prime_of};
ghost use Rattle.record_text.specs.Whole.{IsWholeForm};
ghost use Rattle.record_loading.specs.LineForm.{line_form};
ghost use Rattle.record_loading.specs.SortedText.{prime_in, line_cmp, IsLineAtFront, AreTextLines, AreSorted};
ghost use Rattle.record_loading.specs.SortedText.{IsSortedText};

use crate::loading::{blank_area, header_of};
use crate::options::LoadOptions;
use crate::passing::{behind_line, front_of};
use crate::reading::read_line;
use record_layout::Schema;
use record_text::{Form, behind_header};
use std::alloc::{AllocError, Global};
use std::cmp::Ordering;

/// A line of a text, and the prime value of its record, if it is the line of one.
#[derive(Drop)]
pub struct TextLine<'a> {
    pub prime: Option<Vec<u8>>,
    pub line: &'a [u8],
}

/// How a line stands to another one: by the prime values of their records, before lines of no record.
fn compare(line: &TextLine, other: &TextLine) -> Ordering
    ensures { result ≡ line_cmp (prime_in line.now) (prime_in other.now) }
{
    match (&line.prime, &other.prime) {
        (Some(prime), Some(other)) => prime.as_slice().cmp(other.as_slice()),
        (Some(_), None) => Ordering::Less,
        (None, Some(_)) => Ordering::Greater,
        (None, None) => Ordering::Equal,
    }
}

/// The prime value of a record.
fn prime_value(alloc: Global, schema: &Schema, bytes: &[u8]) -> Result<Vec<u8>, AllocError>
    requires key { 0 < length schema.now.keys }
    requires whole { schema.now.least ≤ length bytes.now }
    ensures { IfOk result (λ prime. prime.items ≡ prime_of schema.now bytes.now) }
{
    let mut prime = Vec::new(alloc);
    prime.extend_from_slice(schema.value(bytes, 0))?;
    Ok(prime)
}

/// The first line of a text, and the text behind it. The area is where its record is read.
fn first_line<'a>(
    alloc: Global,
    schema: &Schema,
    form: &Form,
    options: LoadOptions,
    text: &'a [u8],
    area: &mut [u8],
) -> Result<(TextLine<'a>, &'a [u8]), AllocError>
    requires whole { IsWholeForm form.now (length area.old) }
    requires area { length area.old ≡ schema.now.greatest }
    requires some { 0 < length text.now }
    ensures { IfOk result (λ first. IsLineAtFront schema.now (line_form form.now options) first.0 text.now
        first.1.now) }
{
    let read = match read_line(form, options, text, schema.least(), area) {
        Ok(read) => read,
        Err(_) => {
            let behind = behind_line(text);
            let other = TextLine {
                prime: None,
                line: front_of(text, behind),
            };
            return Ok((other, behind));
        }
    };
    let value = prime_value(alloc, schema, &area[..read.length])?;
    let line = TextLine {
        prime: Some(value),
        line: front_of(text, read.behind),
    };
    Ok((line, read.behind))
}

/// The lines of a text.
fn lines_of<'a>(
    alloc: Global,
    schema: &Schema,
    form: &Form,
    options: LoadOptions,
    text: &'a [u8],
) -> Result<Vec<TextLine<'a>>, AllocError>
    requires whole { IsWholeForm form.now schema.now.greatest }
    ensures { IfOk result (λ lines. AreTextLines schema.now (line_form form.now options) lines.items
        text.now) }
{
    let mut area = blank_area(alloc, schema.greatest())?;
    let mut lines = Vec::new(alloc);
    let mut rest = text;
    'more: while !rest.is_empty() {
        let (line, behind) = first_line(alloc, schema, form, options, rest, area.as_mut_slice())?;
        lines.push(line)?;
        rest = behind;
    }
    Ok(lines)
}

/// Sorts lines. Those of one prime value, and those of no record, stay in their order.
fn sort_lines(lines: &mut Vec<TextLine>) -> Result<(), AllocError>
    ensures { OnOk result (AreSorted lines.old.items lines.new.items) }
{
    lines.sort_by(|line, other| compare(line, other))?;
    Ok(())
}

/// Adds lines to a text.
fn add_lines(text: &mut Vec<u8>, lines: &[TextLine]) -> Result<(), AllocError>
    ensures { OnOk result (text.new.items ≡ text.old.items
        ++ flat_map (λ line. line.line.now) lines.now) }
{
    for line in lines {
        text.extend_from_slice(line.line)?;
    }
    Ok(())
}

/// A text in which the lines of records stand in the order of their prime values. What stands before the
/// first line stays there, and a text that does not begin with it is as it was. Lines of one value stay in
/// their order. The lines that are the line of no record come last, in their order: so does a last line
/// that does not end with LF, since no record has such a line.
///
/// In memory it is a second text. While it is sorted, a line takes 40 bytes, and the prime value of its record.
pub fn sorted_text(
    alloc: Global,
    schema: &Schema,
    form: &Form,
    options: LoadOptions,
    text: &[u8],
) -> Result<Vec<u8>, AllocError>
    requires whole { IsWholeForm form.now schema.now.greatest }
    ensures { IfOk result (λ sorted. IsSortedText schema.now (line_form form.now options) text.now
        sorted.items) }
{
    let header = header_of(alloc, form)?;
    let mut sorted = Vec::with_capacity(alloc, text.len())?;
    let Some(rest) = behind_header(text, header.as_slice()) else {
        sorted.extend_from_slice(text)?;
        return Ok(sorted);
    };
    let mut lines = lines_of(alloc, schema, form, options, rest)?;
    sort_lines(&mut lines)?;
    sorted.extend_from_slice(header.as_slice())?;
    add_lines(&mut sorted, lines.as_slice())?;
    Ok(sorted)
}

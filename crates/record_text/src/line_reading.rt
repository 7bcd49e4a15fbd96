//! The reading of a line.
ghost use Rattle.std.specs.Prelude.{◌≡◌, ℕ, [], ◌∷◌, length, map, None, IfSome, IfOk, IfErr, OnErr};
ghost use Rattle.record_text.specs.Parts.{part_of_column};
ghost use Rattle.record_text.specs.ReadLine.{ReadsRecordUpTo, BeginsWithNoRecord};
ghost use Rattle.record_text.specs.Whole.{AreTiled, IsWholeForm};
ghost use Rattle.record_text.specs.Mistake.{IsValuesMistake, IsJsonMistake, IsLineMistake, TellsShort};
ghost use Rattle.record_text.specs.declared.quoted.Quoting.TheVariants.{Doubled};
ghost use Rattle.record_text.specs.Part.{ReadsUpTo, HasNoPart, Anything, csv_text, json_text, line_text};

use crate::column::Column;
use crate::form::Form;
use crate::mistake::LineMistake;
use crate::passed::passed;
use crate::quoted::Quoting;
use crate::short::short_column;
use crate::text_reading::read_text;
use crate::values::read_values;

/// A line at the front of a text: the length of its record, and the text behind it.
#[derive(Clone, Copy)]
pub struct RecordLine<'a> {
    pub length: usize,
    pub behind: &'a [u8],
}

/// Reads the record whose line of CSV a text begins with.
fn read_csv<'a>(
    text: &'a [u8],
    columns: &[Column],
    area: &mut [u8],
) -> Result<RecordLine<'a>, LineMistake>
    requires whole { AreTiled 0 (map part_of_column columns.now) (length area.old) }
    ensures read { IfOk result (ReadsUpTo (csv_text columns.now) text.now area.old area.new) }
    ensures none { OnErr result (HasNoPart (csv_text columns.now) Anything text.now 0 (length area.old)) }
    ensures mistake { IfErr result (λ mistake. (least : ℕ)
        → IsValuesMistake Doubled columns.now text.now (13 ∷ 10 ∷ []) least (length area.old) mistake) }
{
    let cell = match read_values(Quoting::Doubled, columns, text, area) {
        Ok(cell) => cell,
        Err(mistake) => return Err(LineMistake::Column(mistake)),
    };
    let Some(ended) = passed(cell.behind, b'\r') else {
        return Err(LineMistake::Ending(b'\r'));
    };
    let Some(behind) = passed(ended, b'\n') else {
        return Err(LineMistake::Ending(b'\n'));
    };
    Ok(RecordLine {
        length: cell.at,
        behind,
    })
}

/// Reads the record whose line of JSON a text begins with.
fn read_json<'a>(
    text: &'a [u8],
    columns: &[Column],
    area: &mut [u8],
) -> Result<RecordLine<'a>, LineMistake>
    requires whole { AreTiled 0 (map part_of_column columns.now) (length area.old) }
    ensures read { IfOk result (ReadsUpTo (json_text columns.now) text.now area.old area.new) }
    ensures none { OnErr result (HasNoPart (json_text columns.now) Anything text.now 0 (length area.old)) }
    ensures mistake { IfErr result (λ mistake. (least : ℕ)
        → IsJsonMistake columns.now text.now least (length area.old) mistake) }
{
    let Some(opened) = passed(text, b'{') else {
        return Err(LineMistake::Opening(b'{'));
    };
    let cell = match read_values(Quoting::Escaped, columns, opened, area) {
        Ok(cell) => cell,
        Err(mistake) => return Err(LineMistake::Column(mistake)),
    };
    let Some(closed) = passed(cell.behind, b'}') else {
        return Err(LineMistake::Ending(b'}'));
    };
    let Some(behind) = passed(closed, b'\n') else {
        return Err(LineMistake::Ending(b'\n'));
    };
    Ok(RecordLine {
        length: cell.at,
        behind,
    })
}

/// Reads the record whose line a text begins with into the first bytes of the area. Where the text
/// begins with the line of no record that the area has room for, it answers a mistake.
fn read_line<'a>(
    form: &Form,
    text: &'a [u8],
    least: u16,
    area: &mut [u8],
) -> Result<RecordLine<'a>, LineMistake>
    requires whole { IsWholeForm form.now (length area.old) }
    ensures read { IfOk result (ReadsUpTo (line_text form.now) text.now area.old area.new) }
    ensures none { OnErr result (HasNoPart (line_text form.now) Anything text.now 0 (length area.old)) }
    ensures mistake { IfErr result (IsLineMistake form.now text.now least (length area.old)) }
{
    match form {
        Form::Text => read_text(text, least, area),
        Form::Csv(columns) => read_csv(text, columns, area),
        Form::Json(columns) => read_json(text, columns, area),
    }
}

/// The mistake in a line whose record has so many bytes, fewer than the least.
fn short_record(form: &Form, bytes: usize, least: u16, most: usize) -> LineMistake
    requires { IsWholeForm form.now most }
    ensures { TellsShort form.now bytes least most result }
{
    match form {
        Form::Csv(columns) | Form::Json(columns) if bytes < most => {
            LineMistake::Column(short_column(columns, bytes))
        }
        _ => LineMistake::Length {
            bytes,
            least: usize::from(least),
            most,
        },
    }
}

/// Reads the record of at least so many bytes whose line a text begins with into the first bytes of
/// the area. Where the text begins with the line of no such record that the area has room for, it
/// answers a mistake that the line has.
pub fn record_or_mistake<'a>(
    form: &Form,
    text: &'a [u8],
    least: u16,
    area: &mut [u8],
) -> Result<RecordLine<'a>, LineMistake>
    requires whole { IsWholeForm form.now (length area.old) }
    ensures read { IfOk result (ReadsRecordUpTo form.now text.now least area.old area.new) }
    ensures none { OnErr result (BeginsWithNoRecord form.now text.now least (length area.old)) }
    ensures mistake { IfErr result (IsLineMistake form.now text.now least (length area.old)) }
{
    let line = match read_line(form, text, least, area) {
        Ok(line) => line,
        Err(mistake) => return Err(mistake),
    };
    if line.length < usize::from(least) {
        return Err(short_record(form, line.length, least, area.len()));
    }
    Ok(line)
}

/// The same, without the mistake: None where the text begins with the line of no such record that the
/// area has room for.
pub fn read_record<'a>(
    form: &Form,
    text: &'a [u8],
    least: u16,
    area: &mut [u8],
) -> Option<RecordLine<'a>>
    requires whole { IsWholeForm form.now (length area.old) }
    ensures read { IfSome result (ReadsRecordUpTo form.now text.now least area.old area.new) }
    ensures none { result ≡ None → BeginsWithNoRecord form.now text.now least (length area.old) }
{
    match record_or_mistake(form, text, least, area) {
        Ok(line) => Some(line),
        Err(_) => None,
    }
}

//! The reading of a line whose values are filled up.
ghost use Rattle.std.specs.Prelude.{◌≡◌, [], ◌∷◌, length, map, IfOk, IfErr, OnErr};
ghost use Rattle.record_text.specs.Parts.{part_of_column};
ghost use Rattle.record_text.specs.declared.form.Form.TheVariants.{Text};
ghost use Rattle.record_text.specs.Whole.{AreTiled, IsWholeForm};
ghost use Rattle.record_text.specs.Mistake.{IsTextMistake};
ghost use Rattle.record_text.specs.Padded.{csv_of, json_of, SaysValues, SaysText, ReadsSaid, SaysNone};
ghost use Rattle.record_text.specs.Padded.{ReadsPadded, BeginsWithNoPadded};
ghost use Rattle.record_text.specs.PaddedPart.{LacksOneOf, IsPaddedValuesMistake, IsPaddedJsonMistake};
ghost use Rattle.record_text.specs.PaddedPart.{IsPaddedMistake};
ghost use Rattle.record_text.specs.declared.quoted.Quoting.TheVariants.{Doubled};

use crate::column::Column;
use crate::form::Form;
use crate::line_reading::RecordLine;
use crate::mistake::LineMistake;
use crate::padded_value::pad;
use crate::padded_values::read_padded_values;
use crate::passed::passed;
use crate::quoted::Quoting;
use crate::text_reading::read_text;

/// What is behind the two characters that end a line; or the first of them that is lacking.
fn passed_ending(text: &[u8], first: u8, second: u8) -> Result<&[u8], u8>
    ensures passed { IfOk result (λ behind. text.now ≡ first ∷ second ∷ behind.now) }
    ensures lacks { IfErr result (LacksOneOf first second text.now) }
{
    let Some(ended) = passed(text, first) else {
        return Err(first);
    };
    let Some(behind) = passed(ended, second) else {
        return Err(second);
    };
    Ok(behind)
}

/// Reads the record in brackets whose line a text begins with, and fills it up.
fn read_padded_text<'a>(
    text: &'a [u8],
    least: u16,
    area: &mut [u8],
) -> Result<&'a [u8], LineMistake>
    ensures read { IfOk result (λ behind. ReadsSaid (SaysText (length area.new)) text.now area.new
        behind.now) }
    ensures none { OnErr result (SaysNone (SaysText (length area.old)) text.now) }
    ensures mistake { IfErr result (IsTextMistake text.now least (length area.old)) }
{
    let line = match read_text(text, least, area) {
        Ok(line) => line,
        Err(mistake) => return Err(mistake),
    };
    pad(area, line.length, false);
    Ok(line.behind)
}

/// Reads the record whose line of CSV a text begins with, and fills its values up.
fn read_padded_csv<'a>(
    text: &'a [u8],
    columns: &[Column],
    area: &mut [u8],
) -> Result<&'a [u8], LineMistake>
    requires whole { AreTiled 0 (map part_of_column columns.now) (length area.old) }
    ensures read { IfOk result (λ behind. ReadsSaid (SaysValues csv_of columns.now) text.now area.new
        behind.now) }
    ensures none { OnErr result (SaysNone (SaysValues csv_of columns.now) text.now) }
    ensures mistake { IfErr result (IsPaddedValuesMistake Doubled columns.now text.now (13 ∷ 10 ∷ [])) }
{
    let ending = match read_padded_values(Quoting::Doubled, columns, text, area) {
        Ok(ending) => ending,
        Err(mistake) => return Err(LineMistake::Column(mistake)),
    };
    match passed_ending(ending, b'\r', b'\n') {
        Ok(behind) => Ok(behind),
        Err(char) => Err(LineMistake::Ending(char)),
    }
}

/// Reads the record whose line of JSON a text begins with, and fills its values up.
fn read_padded_json<'a>(
    text: &'a [u8],
    columns: &[Column],
    area: &mut [u8],
) -> Result<&'a [u8], LineMistake>
    requires whole { AreTiled 0 (map part_of_column columns.now) (length area.old) }
    ensures read { IfOk result (λ behind. ReadsSaid (SaysValues json_of columns.now) text.now area.new
        behind.now) }
    ensures none { OnErr result (SaysNone (SaysValues json_of columns.now) text.now) }
    ensures mistake { IfErr result (IsPaddedJsonMistake columns.now text.now) }
{
    let Some(opened) = passed(text, b'{') else {
        return Err(LineMistake::Opening(b'{'));
    };
    let ending = match read_padded_values(Quoting::Escaped, columns, opened, area) {
        Ok(ending) => ending,
        Err(mistake) => return Err(LineMistake::Column(mistake)),
    };
    match passed_ending(ending, b'}', b'\n') {
        Ok(behind) => Ok(behind),
        Err(char) => Err(LineMistake::Ending(char)),
    }
}

/// Reads the record that the line at the front of a text says, by its form.
fn read_padded_line<'a>(
    form: &Form,
    text: &'a [u8],
    least: u16,
    area: &mut [u8],
) -> Result<&'a [u8], LineMistake>
    requires whole { IsWholeForm form.now (length area.old) }
    ensures read { IfOk result (λ behind. ReadsPadded form.now text.now area.new behind.now) }
    ensures none { OnErr result (BeginsWithNoPadded form.now text.now (length area.old)) }
    ensures mistake { IfErr result (IsPaddedMistake form.now text.now least (length area.old)) }
{
    match form {
        Form::Text => read_padded_text(text, least, area),
        Form::Csv(columns) => read_padded_csv(text, columns, area),
        Form::Json(columns) => read_padded_json(text, columns, area),
    }
}

/// Reads the record that the line at the front of a text says, where each value that is shorter than its
/// column is filled up, into the area, which is all of it then. Where the text begins with no line that
/// says one, it answers a mistake that the line has.
pub fn padded_or_mistake<'a>(
    form: &Form,
    text: &'a [u8],
    least: u16,
    area: &mut [u8],
) -> Result<RecordLine<'a>, LineMistake>
    requires whole { IsWholeForm form.now (length area.old) }
    ensures read { IfOk result (λ line. ReadsPadded form.now text.now area.new line.behind.now) }
    ensures whole { IfOk result (λ line. line.length ≡ length area.new) }
    ensures none { OnErr result (BeginsWithNoPadded form.now text.now (length area.old)) }
    ensures mistake { IfErr result (IsPaddedMistake form.now text.now least (length area.old)) }
{
    match read_padded_line(form, text, least, area) {
        Ok(behind) => Ok(RecordLine {
            length: area.len(),
            behind,
        }),
        Err(mistake) => Err(mistake),
    }
}

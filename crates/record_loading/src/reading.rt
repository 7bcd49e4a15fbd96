//! The reading of a line, as a load asks for it.
ghost use Rattle.std.specs.Prelude.{◌≤◌, length, IfOk, IfErr, OnErr};
ghost use Rattle.record_text.specs.Whole.{IsWholeForm};
ghost use Rattle.record_loading.specs.LineForm.{line_form, ReadsLineUpTo, BeginsWithNone, HasMistake};

use crate::options::LoadOptions;
use record_text::{Form, LineMistake, RecordLine, padded_or_mistake, record_or_mistake};

/// Reads the record of at least so many bytes whose line a text begins with into the first bytes of the
/// area: exactly that line, or one whose values are filled up, where that is asked for. Where the text
/// begins with the line of no such record, it answers a mistake that the line has.
pub fn read_line<'a>(
    form: &Form,
    options: LoadOptions,
    text: &'a [u8],
    least: u16,
    area: &mut [u8],
) -> Result<RecordLine<'a>, LineMistake>
    requires whole { IsWholeForm form.now (length area.old) }
    requires ordered { least ≤ length area.old }
    ensures read { IfOk result
        (ReadsLineUpTo (line_form form.now options) text.now least area.old area.new) }
    ensures none { OnErr result (BeginsWithNone options.pad form.now text.now least (length area.old)) }
    ensures mistake { IfErr result (HasMistake options.pad form.now text.now least (length area.old)) }
{
    if options.pad {
        return padded_or_mistake(form, text, least, area);
    }
    record_or_mistake(form, text, least, area)
}

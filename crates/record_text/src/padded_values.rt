//! The values of columns, filled up.
ghost use Rattle.std.specs.Prelude.{◌≡◌, length, map, IfOk, IfErr, OnErr};
ghost use Rattle.record_text.specs.Parts.{part_of_column};
ghost use Rattle.record_text.specs.Whole.{AreTiled};
ghost use Rattle.record_text.specs.PaddedPart.{ReadsPaddedValues, HasNoPaddedValues, IsWrongPadded};

use crate::column::Column;
use crate::mistake::ColumnMistake;
use crate::padded_value::read_padded_value;
use crate::quoted::Quoting;

/// Reads the values of columns, which are the whole of a record, into the area, and fills each up; the
/// text behind them is answered. Where no values that the columns take give the text, it answers a mistake.
pub fn read_padded_values<'a>(
    quoting: Quoting,
    columns: &[Column],
    text: &'a [u8],
    area: &mut [u8],
) -> Result<&'a [u8], ColumnMistake>
    requires whole { AreTiled 0 (map part_of_column columns.now) (length area.old) }
    ensures read { IfOk result (λ behind. ReadsPaddedValues quoting columns.now text.now area.new
        behind.now) }
    ensures none { OnErr result (HasNoPaddedValues quoting columns.now text.now) }
    ensures mistake { IfErr result (IsWrongPadded quoting columns.now text.now) }
{
    let mut rest = text;
    let mut is_first = true;
    let mut left = columns;
    'more: while let Some((column, after)) = left.split_first() {
        rest = match read_padded_value(quoting, is_first, column, rest, area) {
            Ok(behind) => behind,
            Err(mistake) => {
                return Err(ColumnMistake {
                    number: columns.len() - after.len(),
                    name: column.name,
                    wanted: column.length,
                    mistake,
                });
            }
        };
        is_first = false;
        left = after;
    }
    Ok(rest)
}

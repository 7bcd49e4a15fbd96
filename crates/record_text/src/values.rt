//! The values of columns.
ghost use Rattle.std.specs.Prelude.{◌≡◌, length, map, IfOk, IfErr, OnErr};
ghost use Rattle.record_text.specs.Parts.{part_of_column};
ghost use Rattle.record_text.specs.Whole.{AreTiled};
ghost use Rattle.record_text.specs.Quoted.{column_end};
ghost use Rattle.record_text.specs.Part.{ReadsCells, HasNoValues};
ghost use Rattle.record_text.specs.Mistake.{IsColumnMistake, IsNext, TellsMistake};

use crate::cell::Cell;
use crate::column::Column;
use crate::mistake::{ColumnMistake, ValueMistake};
use crate::quoted::Quoting;
use crate::short::short_column;
use crate::value::read_value;

/// The place up to which the bytes of a column may reach, where so many of the record were read:
/// behind a column that was shorter than it could be there are none.
fn end_of(column: &Column, at: usize) -> usize
    ensures { result ≡ column_end column.now at }
{
    if at == usize::from(column.offset) {
        at + usize::from(column.length)
    } else {
        at
    }
}

/// The mistake in the value of a column, which is the first of those that are left, where so many
/// bytes of the record were read before it: a value behind a short one is told as that.
fn told_of(
    columns: &[Column],
    column: &Column,
    after: &[Column],
    at: usize,
    mistake: ValueMistake,
) -> ColumnMistake
    requires { IsNext columns.now column.now after.now }
    ensures { TellsMistake columns.now column.now after.now at mistake result }
{
    let number = columns.len() - after.len();
    if let ValueMistake::Long { .. } = mistake {
        if at < usize::from(column.offset) {
            return short_column(&columns[..number - 1], at);
        }
    }
    ColumnMistake {
        number,
        name: column.name,
        wanted: column.length,
        mistake,
    }
}

/// Reads the values of columns, which are the whole of a record, into the area. Where no bytes that
/// have room give the text, it answers a mistake.
pub fn read_values<'a>(
    quoting: Quoting,
    columns: &[Column],
    text: &'a [u8],
    area: &mut [u8],
) -> Result<Cell<'a>, ColumnMistake>
    requires whole { AreTiled 0 (map part_of_column columns.now) (length area.old) }
    ensures read { IfOk result (ReadsCells quoting columns.now text.now area.old area.new) }
    ensures none { OnErr result (HasNoValues quoting columns.now text.now area.old) }
    ensures mistake { IfErr result (IsColumnMistake quoting columns.now text.now) }
{
    let mut rest = text;
    let mut at = 0;
    let mut is_first = true;
    let mut left = columns;
    'more: while let Some((column, after)) = left.split_first() {
        let to = end_of(column, at);
        let cell = match read_value(quoting, is_first, &column.name, rest, area, at, to) {
            Ok(cell) => cell,
            Err(mistake) => return Err(told_of(columns, column, after, at, mistake)),
        };
        rest = cell.behind;
        at = cell.at;
        is_first = false;
        left = after;
    }
    Ok(Cell { at, behind: rest })
}

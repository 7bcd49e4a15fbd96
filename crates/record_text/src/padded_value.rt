//! The value of a column, filled up.
ghost use Rattle.std.specs.Prelude.{◌≡◌, ◌+◌, ◌<◌, ◌≤◌, length, take, true, false, IfOk, IfErr, OnErr};
ghost use Rattle.std.specs.List.{list_all};
ghost use Rattle.std.specs.Char.{is_ascii_digit};
ghost use Rattle.record_text.specs.Padded.{padded, IsPaddedByMove, may_be_padded};
ghost use Rattle.record_text.specs.PaddedPart.{ReadsPaddedValue, HasNoPaddedValue, IsPaddedValueMistake};

use crate::column::Column;
use crate::mistake::ValueMistake;
use crate::quoted::Quoting;
use crate::value::read_value;

/// Whether these are digits.
fn are_digits(bytes: &[u8]) -> bool
    ensures { result ≡ list_all is_ascii_digit bytes.now }
{
    bytes.iter().all(|byte| byte.is_ascii_digit())
}

/// Whether a value that is shorter than its column is filled up: in a column of digits only where it
/// is digits, and has some.
fn may_be_padded(numeric: bool, value: &[u8]) -> bool
    ensures { result ≡ may_be_padded numeric value.now }
{
    if !numeric {
        return true;
    }
    if value.is_empty() {
        return false;
    }
    are_digits(value)
}

/// Whether a column takes a value: it has all its bytes, or is filled up.
fn takes(column: &Column, value: &[u8]) -> bool
    ensures yes { result ≡ true → length value.now < column.now.length
        → may_be_padded column.now.numeric value.now ≡ true }
    ensures no { result ≡ false → (length value.now < column.now.length)
        × (may_be_padded column.now.numeric value.now ≡ false) }
{
    if value.len() >= usize::from(column.length) {
        return true;
    }
    may_be_padded(column.numeric, value)
}

/// A value that has room is filled up as a MOVE of it fills the item.
pub fn padded_by_move()
    ensures { IsPaddedByMove }
{}

/// Moves the first bytes of an item to its end, behind zeros.
fn justify_right(item: &mut [u8], count: usize)
    requires { count ≤ length item.old }
    ensures { item.new ≡ padded true (length item.old) (take count item.old) }
{
    let zeros = item.len() - count;
    item.copy_within(0..count, zeros);
    item[..zeros].fill(b'0');
}

/// Leaves the first bytes of an item in their place, before spaces.
fn justify_left(item: &mut [u8], count: usize)
    requires { count ≤ length item.old }
    ensures { item.new ≡ padded false (length item.old) (take count item.old) }
{
    item[count..].fill(b' ');
}

/// Fills up the value that has the first bytes of an item, so many.
pub fn pad(item: &mut [u8], count: usize, numeric: bool)
    requires { count ≤ length item.old }
    ensures { item.new ≡ padded numeric (length item.old) (take count item.old) }
{
    if numeric {
        justify_right(item, count);
    } else {
        justify_left(item, count);
    }
}

/// Reads the value of a column into its place in the area, and fills it up. Where no value that the
/// column takes gives the text, it answers a mistake.
pub fn read_padded_value<'a>(
    quoting: Quoting,
    is_first: bool,
    column: &Column,
    text: &'a [u8],
    area: &mut [u8],
) -> Result<&'a [u8], ValueMistake>
    requires place { column.now.offset + column.now.length ≤ length area.old }
    ensures read { IfOk result (λ behind. ReadsPaddedValue quoting is_first column.now text.now area.old
        area.new behind.now) }
    ensures none { OnErr result (HasNoPaddedValue quoting is_first column.now text.now) }
    ensures mistake { IfErr result (IsPaddedValueMistake quoting is_first column.now text.now) }
{
    let from = usize::from(column.offset);
    let to = from + usize::from(column.length);
    let cell = match read_value(quoting, is_first, &column.name, text, area, from, to) {
        Ok(cell) => cell,
        Err(mistake) => return Err(mistake),
    };
    let bytes = cell.at - from;
    if !takes(column, &area[from..cell.at]) {
        return Err(ValueMistake::Short { bytes });
    }
    pad(&mut area[from..to], bytes, column.numeric);
    Ok(cell.behind)
}

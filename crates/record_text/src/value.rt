//! The value of a column.
ghost use Rattle.std.specs.Prelude.{◌≡◌, ◌<◌, ℕ, ◌+◌, ◌-◌, ◌^◌, List, ◌∷◌, length, IfOk, IfErr, OnErr};
ghost use Rattle.record_text.specs.Quoted.{value_front, LacksFront};
ghost use Rattle.record_text.specs.Part.{ReadsCell, HasNoValue, HasPlaces, EndsValue};
ghost use Rattle.record_text.specs.Mistake.{IsValueMistake, IsEndMistake};

use crate::cell::{Cell, read_cell};
use crate::counted::count_on;
use crate::mistake::{ValueMistake, stray_of};
use crate::name::passed_label;
use crate::passed::{passed, passed_comma};
use crate::quoted::Quoting;
use io_state::Name;

/// What is behind all that stands before the bytes of a column: a comma, its name, and a quote.
fn passed_front<'a>(
    quoting: Quoting,
    is_first: bool,
    name: &Name,
    text: &'a [u8],
) -> Result<&'a [u8], ValueMistake>
    ensures some { IfOk result (λ behind. text.now ≡ value_front quoting is_first name.now.bytes
        behind.now) }
    ensures none { OnErr result (LacksFront (value_front quoting is_first name.now.bytes) text.now) }
    ensures mistake { IfErr result (λ mistake. (most : ℕ)
        → IsValueMistake quoting is_first name.now.bytes text.now most mistake) }
{
    let Some(column) = passed_comma(is_first, text) else {
        return Err(ValueMistake::Comma);
    };
    let Some(value) = passed_label(quoting, column, name) else {
        return Err(ValueMistake::Name);
    };
    let Some(behind) = passed(value, b'"') else {
        return Err(ValueMistake::Quote);
    };
    Ok(behind)
}

/// What is behind the quote that ends a value, of which so many bytes were read.
fn passed_end<'a>(quoting: Quoting, text: &'a [u8], bytes: usize) -> Result<&'a [u8], ValueMistake>
    requires { bytes + length text.now < 2 ^ 64 }
    ensures some { IfOk result (λ behind. text.now ≡ 34 ∷ behind.now) }
    ensures none { OnErr result ((behind : List ℕ) → EndsValue quoting behind → text.now ≡ 34 ∷ behind → ⊥) }
    ensures mistake { IfErr result (IsEndMistake quoting text.now bytes) }
{
    let counted = count_on(quoting, text, bytes);
    let Some(behind) = passed(counted.behind, b'"') else {
        return Err(ValueMistake::Byte {
            bytes: counted.bytes,
            stray: stray_of(counted.behind),
        });
    };
    if counted.bytes > bytes {
        return Err(ValueMistake::Long {
            bytes: counted.bytes,
        });
    }
    Ok(behind)
}

/// Reads the value of a column in quotes into the area from one place on, and not past another one.
/// Where no bytes that have room give the text, it answers a mistake.
pub fn read_value<'a>(
    quoting: Quoting,
    is_first: bool,
    name: &Name,
    text: &'a [u8],
    area: &mut [u8],
    from: usize,
    to: usize,
) -> Result<Cell<'a>, ValueMistake>
    requires { HasPlaces area.old from to }
    ensures read { IfOk result
        (ReadsCell quoting is_first name.now.bytes text.now area.old from to area.new) }
    ensures none { OnErr result (HasNoValue quoting is_first name.now.bytes text.now from to) }
    ensures mistake { IfErr result
        (IsValueMistake quoting is_first name.now.bytes text.now (to - from)) }
{
    let opened = match passed_front(quoting, is_first, name, text) {
        Ok(opened) => opened,
        Err(mistake) => return Err(mistake),
    };
    let cell = read_cell(quoting, opened, area, from, to);
    match passed_end(quoting, cell.behind, cell.at - from) {
        Ok(behind) => Ok(Cell {
            at: cell.at,
            behind,
        }),
        Err(mistake) => Err(mistake),
    }
}

//! The column in which a record ends.
ghost use Rattle.record_text.specs.Mistake.{EndsWithin, EndsInColumn};

use crate::column::Column;
use crate::mistake::{ColumnMistake, ValueMistake};

/// The mistake in the column in which a record of so many bytes ends: it has fewer than it wants.
pub fn short_column(columns: &[Column], length: usize) -> ColumnMistake
    requires { EndsWithin columns.now length }
    ensures { EndsInColumn columns.now length result }
{
    let mut left = columns;
    'more: while let Some((column, after)) = left.split_first() {
        let start = usize::from(column.offset);
        if length < start + usize::from(column.length) {
            return ColumnMistake {
                number: columns.len() - after.len(),
                name: column.name,
                wanted: column.length,
                mistake: ValueMistake::Short {
                    bytes: length - start,
                },
            };
        }
        left = after;
    }
    unreachable!()
}

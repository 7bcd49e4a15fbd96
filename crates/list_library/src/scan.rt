//! Scans of all rows.
ghost use Rattle.std.specs.Prelude.{◌≡◌, ◌<◌, true, false, Some, Option, length, IfSome};
ghost use Rattle.indexed_file.specs.Rank.{lower_of};
ghost use Rattle.list_library.specs.Scans.{row_of_place, IsNotLower, IsGreater, IsNotGreater, IsLowestPlace};
ghost use Rattle.list_library.specs.Scans.{IsHighestPlace};

use crate::list_row::ListRow;
use crate::wanted::{Wanted, comes_before, value};
use record_layout::Schema;

/// Whether a row is lower, by key k, than the row of a place, or there is no place.
fn is_lower(schema: &Schema, k: u8, row: &ListRow, rows: &[ListRow], best: Option<usize>) -> bool
    requires { IfSome best (λ i. i < length rows.now) }
    ensures yes { result ≡ true → lower_of schema.now k row.now (row_of_place rows.now best) ≡ row.now }
    ensures no { result ≡ false → IsNotLower schema.now k row.now rows.now best }
{
    match best {
        None => true,
        Some(i) => !comes_before(schema, k, &rows[i], row),
    }
}

/// The place of the row of least rank by key k among those wanted.
#[tactic(auto, using(crate::proofs::ScanLemmas::scan_passed, crate::proofs::ScanLemmas::scan_failed, crate::proofs::ScanLemmas::row_here))]
pub fn lowest(schema: &Schema, k: u8, wanted: &Wanted, rows: &[ListRow]) -> Option<usize>
    ensures { IsLowestPlace schema.now k wanted.now rows.now result }
{
    let mut best = None;
    let mut i = rows.len();
    while i > 0 {
        i -= 1;
        let row = &rows[i];
        if wanted.has(schema, k, row) {
            if is_lower(schema, k, row, rows, best) {
                best = Some(i);
            }
        }
    }
    best
}

/// Whether the prime value of a row is not below that of the row of a place, or there is no place.
fn is_higher(schema: &Schema, row: &ListRow, rows: &[ListRow], best: Option<usize>) -> bool
    requires { IfSome best (λ i. i < length rows.now) }
    ensures yes { result ≡ true → IsGreater schema.now row.now rows.now best }
    ensures no { result ≡ false → IsNotGreater schema.now row.now rows.now best }
{
    match best {
        None => true,
        Some(i) => value(schema, 0, row.bytes())
            .cmp(value(schema, 0, rows[i].bytes()))
            .is_ge(),
    }
}

/// The place of the row of the greatest prime value.
#[tactic(auto, using(crate::proofs::ScanLemmas::highest_from, crate::proofs::ScanLemmas::row_here))]
pub fn highest(schema: &Schema, rows: &[ListRow]) -> Option<usize>
    ensures { IsHighestPlace schema.now rows.now result }
{
    let mut best = None;
    let mut i = rows.len();
    while i > 0 {
        i -= 1;
        if is_higher(schema, &rows[i], rows, best) {
            best = Some(i);
        }
    }
    best
}

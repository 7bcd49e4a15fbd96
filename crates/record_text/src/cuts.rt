//! Columns between cuts.
ghost use Rattle.std.specs.Prelude.{◌≡◌, ◌≤◌, ◌<◌, ◌+◌, ◌-◌, ◌++◌, ◌∷◌, [], ℕ, List, map, flat_map, length};
ghost use Rattle.std.specs.Prelude.{true, false, IfOk, OnOk};
ghost use Rattle.record_text.specs.Columns.{cell_of};
ghost use Rattle.record_text.specs.Parts.{AddsParts, part_of_column, cut_part, cut_parts, do_rise};
ghost use Rattle.record_text.specs.Parts.{whole_part};

use crate::column::Column;
use crate::numbered::numbered;
use io_state::Name;
use std::alloc::{AllocError, Global};
use thiserror::Error;

/// The most bytes of a record.
const RECORD_LIMIT: u16 = 4000;

/// Why there are no columns.
#[derive(Clone, Copy, Debug, PartialEq, Eq, Error)]
pub enum CutFault {
    #[error("the cuts do not rise from 1 on")]
    Order,
    #[error("out of memory")]
    Memory,
}

/// Adds column n.
fn push_column(columns: &mut Vec<Column>, n: u32, offset: u16, length: u16) -> Result<(), CutFault>
    ensures column { OnOk result (AddsParts columns.old.items columns.new.items
        (cut_part n offset length ∷ [])) }
    ensures memory { result ≡ Err CutFault.Order → ⊥ }
{
    let name = numbered("column-", n);
    let column = Column {
        name,
        offset,
        length,
        numeric: false,
    };
    columns.push(column).map_err(|_| CutFault::Memory)
}

/// The columns of a record that is cut at rising offsets: `column-1` up to the first cut, and so
/// on. The last one is what is behind the last cut.
///
/// `Order`: a cut is 0, or not behind the one before it. `Memory`.
pub fn cut_columns(alloc: Global, cuts: &[u16]) -> Result<Vec<Column>, CutFault>
    ensures columns { IfOk result (λ columns. map part_of_column columns.items ≡ cut_parts 1 0 cuts.now) }
    ensures rise { OnOk result (do_rise 0 cuts.now ≡ true) }
    ensures order { result ≡ Err CutFault.Order → do_rise 0 cuts.now ≡ false }
{
    let mut columns = Vec::new(alloc);
    let mut n = 1;
    let mut from = 0;
    let mut rest = cuts;
    'more: while let Some((cut, more)) = rest.split_first() {
        if *cut <= from {
            return Err(CutFault::Order);
        }
        match push_column(&mut columns, n, from, *cut - from) {
            Ok(()) => {
                n += 1;
                from = *cut;
                rest = more;
            }
            Err(fault) => return Err(fault),
        }
    }
    match push_column(&mut columns, n, from, RECORD_LIMIT) {
        Ok(()) => Ok(columns),
        Err(fault) => Err(fault),
    }
}

/// The record as one column.
pub fn whole_column(alloc: Global) -> Result<Vec<Column>, AllocError>
    ensures { IfOk result (λ columns. map part_of_column columns.items ≡ whole_part ∷ []) }
{
    let mut columns = Vec::new(alloc);
    let mut name = Name::new();
    let _ = name.try_push_str("record");
    columns.push(Column {
        name,
        offset: 0,
        length: RECORD_LIMIT,
        numeric: false,
    })?;
    Ok(columns)
}

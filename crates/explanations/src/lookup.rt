//! The text that two words name.
ghost use Rattle.std.specs.Prelude.{◌≡◌, option_map, IsSome};
ghost use Rattle.io_state.specs.declared.status.Status.{Status};
ghost use Rattle.io_state.specs.Status.{digits_of};
ghost use Rattle.deck_parser.specs.declared.fault.FaultCause.{FaultCause};
ghost use Rattle.deck_parser.specs.Fault.{cause_code};
ghost use Rattle.explanations.specs.Explained.{text_in_table, text_in, digit_of};
ghost use Rattle.explanations.specs.Tables.{table_of, status_table, fault_table, explanation};

use crate::tables::{FAULTS, REASONS, STATUSES};

fn text_of(rows: &[(&'static str, &'static str)], number: &str) -> Option<&'static str>
    ensures { option_map (λ text. text.now) result ≡ text_in_table rows.now number.now }
{
    let row = rows.iter().find(|row| row.0 == number)?;
    Some(row.1)
}

/// The text of a number in a table.
fn text_in(rows: &[(&'static str, &'static str)], number: &str) -> Option<&'static str>
    ensures { option_map (λ text. text.now) result ≡ text_in (table_of rows.now) number.now }
{
    text_of(rows, number)
}

/// What is explained of a status, a code of a refused deck or a reason of the check: `status 30`,
/// `fault 7`, `unsound 6`. None: these words name none of them.
pub fn explanation_of(kind: &str, number: &str) -> Option<&'static str>
    ensures { option_map (λ text. text.now) result ≡ explanation kind.now number.now }
{
    match kind {
        "status" => text_in(&STATUSES, number),
        "fault" => text_in(&FAULTS, number),
        "unsound" => text_in(&REASONS, number),
        _ => None,
    }
}

/// Each status is explained, and each cause for which a deck is refused.
pub fn all_are_explained()
    ensures statuses { (status : Status) → IsSome (text_in status_table (digits_of status)) }
    ensures causes { (cause : FaultCause) → IsSome (text_in fault_table (digit_of (cause_code cause))) }
{}

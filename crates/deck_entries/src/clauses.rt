//! The clauses of a file description.
ghost use Rattle.std.specs.Prelude.{◌≡◌};
ghost use Rattle.deck_parser.specs.Class.{begins};
ghost use Rattle.deck_parser.specs.Rule.{any_behind};
ghost use Rattle.deck_parser.specs.Reading.{ReadsRule};
ghost use Rattle.deck_entries.specs.FileDescription.{label as label_clause, block as block_clause};
ghost use Rattle.deck_entries.specs.FileDescription.{record_clause, description_clause, no_clauses};
ghost use Rattle.deck_entries.specs.declared.clauses.DescriptionClauses.{DescriptionClauses as Said};

use crate::record_length::{RecordLength, count, length_clause};
use crate::words::{eat_one, expect_one};
use deck_parser::{FaultCause, ParseRefusal, Parser, Twice};

/// What the clauses of a file description say together.
#[derive(Drop)]
pub struct DescriptionClauses {
    pub label: bool,
    pub block: bool,
    pub lengths: Option<RecordLength>,
}

/// The lines of the clauses that there are.
#[derive(Drop)]
struct ClauseLines {
    label: u64,
    block: u64,
    lengths: u64,
}

#[tactic(auto, unfolding(crate::specs::FileDescription::label))]
fn label(
    parser: &mut Parser<'_>,
    clauses: DescriptionClauses,
    lines: &mut ClauseLines,
) -> Result<DescriptionClauses, ParseRefusal>
    ensures { ReadsRule (label_clause clauses) parser.old result parser.new }
{
    if clauses.label {
        return Err(parser.fault(FaultCause::Twice(Twice::Clause(lines.label))));
    }
    lines.label = parser.line();
    parser.expect(b"LABEL")?;
    expect_one(parser, b"RECORD", b"RECORDS")?;
    eat_one(parser, b"IS", b"ARE")?;
    expect_one(parser, b"STANDARD", b"OMITTED")?;
    let mut clauses = clauses;
    clauses.label = true;
    Ok(clauses)
}

#[tactic(auto, unfolding(crate::specs::FileDescription::block, deck_parser::specs::Notation::the))]
fn block(
    parser: &mut Parser<'_>,
    clauses: DescriptionClauses,
    lines: &mut ClauseLines,
) -> Result<DescriptionClauses, ParseRefusal>
    ensures { ReadsRule (block_clause clauses) parser.old result parser.new }
{
    if clauses.block {
        return Err(parser.fault(FaultCause::Twice(Twice::Clause(lines.block))));
    }
    lines.block = parser.line();
    parser.expect(b"BLOCK")?;
    parser.eat(b"CONTAINS");
    count(parser)?;
    if parser.eat(b"TO") {
        count(parser)?;
    }
    eat_one(parser, b"RECORDS", b"CHARACTERS")?;
    let mut clauses = clauses;
    clauses.block = true;
    Ok(clauses)
}

#[tactic(auto, unfolding(crate::specs::FileDescription::record_clause))]
fn record_clause(
    parser: &mut Parser<'_>,
    clauses: DescriptionClauses,
    lines: &mut ClauseLines,
) -> Result<DescriptionClauses, ParseRefusal>
    ensures { ReadsRule (record_clause clauses) parser.old result parser.new }
{
    if clauses.lengths.is_some() {
        return Err(parser.fault(FaultCause::Twice(Twice::Clause(lines.lengths))));
    }
    lines.lengths = parser.line();
    parser.expect(b"RECORD")?;
    let mut clauses = clauses;
    clauses.lengths = Some(length_clause(parser)?);
    Ok(clauses)
}

/// Whether a clause comes next.
#[tactic(auto, unfolding(crate::specs::FileDescription::description_clause, crate::specs::FileDescription::label, crate::specs::FileDescription::block, crate::specs::FileDescription::record_clause, deck_parser::specs::Notation::the))]
fn sees_clause(parser: &Parser<'_>) -> bool
    ensures { (said : Said) → result ≡ begins (description_clause said).starts parser.now }
{
    parser.sees_one_of(&[b"LABEL", b"BLOCK", b"RECORD"])
}

fn clause(
    parser: &mut Parser<'_>,
    clauses: DescriptionClauses,
    lines: &mut ClauseLines,
) -> Result<DescriptionClauses, ParseRefusal>
    ensures { ReadsRule (description_clause clauses) parser.old result parser.new }
{
    if parser.sees(b"LABEL") {
        return label(parser, clauses, lines);
    }
    if parser.sees(b"BLOCK") {
        return block(parser, clauses, lines);
    }
    record_clause(parser, clauses, lines)
}

/// The clauses that come next, if any.
pub fn read_clauses(parser: &mut Parser<'_>) -> Result<DescriptionClauses, ParseRefusal>
    ensures { ReadsRule (any_behind description_clause no_clauses) parser.old result parser.new }
{
    let mut clauses = DescriptionClauses {
        label: false,
        block: false,
        lengths: None,
    };
    let mut lines = ClauseLines {
        label: 0,
        block: 0,
        lengths: 0,
    };
    'more: while sees_clause(parser) {
        clauses = clause(parser, clauses, &mut lines)?;
    }
    Ok(clauses)
}

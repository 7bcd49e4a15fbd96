//! Statements, sentences and paragraphs.
ghost use Rattle.std.specs.Prelude.{◌≡◌, Some, [], ◌∷◌, codes};
ghost use Rattle.deck_parser.specs.Class.{begins, names};
ghost use Rattle.deck_parser.specs.Notation.{the, name, period, ◌▸◌, ◌◂◌};
ghost use Rattle.deck_parser.specs.Reading.{ReadsRule, ReadsAs, Stops};
ghost use Rattle.deck_parser.specs.Rule.{where_it_gives};
ghost use Rattle.deck_reader.specs.Names.{Names};
ghost use Rattle.deck_reader.specs.Reading.{AddsStatements};
ghost use Rattle.deck_reader.specs.StatementRules.{some_of};
ghost use Rattle.deck_reader.specs.declared.statement.Statement.TheVariants.{StopRun};
ghost use Rattle.deck_reader.specs.Procedure.{one_statement, statement, paragraph};
ghost use Rattle.deck_reader.specs.Parts.{one_in_its_line, paragraph_or_sentence};

use crate::closing::close_statement;
use crate::moving::move_statement;
use crate::names::Names;
use crate::opening::open_statement;
use crate::placed::PlacedStatements;
use crate::reading::read_statement;
use crate::starting::start_statement;
use crate::statement::Statement;
use crate::writing::{delete_statement, rewrite_statement, write_statement};
use deck_parser::{Expected, FaultCause, NameOf, ParseRefusal, Parser};
use io_state::Name;
use std::alloc::Global;

fn stop_statement(parser: &mut Parser<'_>) -> Result<Statement, ParseRefusal>
    ensures { ReadsRule (where_it_gives (λ _. Some StopRun) (the (codes "STOP") ▸ the (codes "RUN")))
        parser.old result parser.new }
{
    parser.expect(b"STOP")?;
    parser.expect(b"RUN")?;
    Ok(Statement::StopRun)
}

/// Whether a statement is next.
fn sees_statement(parser: &Parser<'_>) -> bool
    ensures { (known : Names) → result ≡ begins (statement known).starts parser.now }
{
    parser.sees_one_of(&[
        b"OPEN", b"CLOSE", b"READ", b"START", b"WRITE", b"REWRITE", b"DELETE", b"MOVE", b"STOP",
    ])
}

/// A statement that is one, and not several.
fn one_statement(parser: &mut Parser<'_>, names: &Names<'_>) -> Result<Statement, ParseRefusal>
    ensures { ReadsRule (one_statement names.now) parser.old result parser.new }
{
    if parser.sees(b"READ") {
        return read_statement(parser, names);
    }
    if parser.sees(b"START") {
        return start_statement(parser, names);
    }
    if parser.sees(b"WRITE") {
        return write_statement(parser, names);
    }
    if parser.sees(b"REWRITE") {
        return rewrite_statement(parser, names);
    }
    if parser.sees(b"DELETE") {
        return delete_statement(parser, names);
    }
    stop_statement(parser)
}

/// The same, in the line of its verb.
#[tactic(auto, unfolding(crate::specs::Parts::one_in_its_line))]
fn one_in_its_line(
    parser: &mut Parser<'_>,
    names: &Names<'_>,
    statements: PlacedStatements,
) -> Result<PlacedStatements, ParseRefusal>
    ensures { AddsStatements (one_in_its_line names.now) statements parser.old result parser.new }
{
    let line = parser.line();
    let statement = one_statement(parser, names)?;
    Ok(statements.with(statement, line)?)
}

fn statement(
    alloc: Global,
    parser: &mut Parser<'_>,
    names: &Names<'_>,
    statements: PlacedStatements,
) -> Result<PlacedStatements, ParseRefusal>
    ensures { AddsStatements (statement names.now) statements parser.old result parser.new }
{
    if parser.sees(b"OPEN") {
        return open_statement(parser, names, statements);
    }
    if parser.sees(b"CLOSE") {
        return close_statement(parser, names, statements);
    }
    if parser.sees(b"MOVE") {
        return move_statement(alloc, parser, names, statements);
    }
    one_in_its_line(parser, names, statements)
}

/// Statements, one or more.
fn all_statements(
    alloc: Global,
    parser: &mut Parser<'_>,
    names: &Names<'_>,
    statements: PlacedStatements,
) -> Result<PlacedStatements, ParseRefusal>
    ensures { AddsStatements (some_of (statement names.now)) statements parser.old result parser.new }
{
    let mut statements = statement(alloc, parser, names, statements)?;
    'more: while sees_statement(parser) {
        statements = statement(alloc, parser, names, statements)?;
    }
    Ok(statements)
}

fn sentence(
    alloc: Global,
    parser: &mut Parser<'_>,
    names: &Names<'_>,
    statements: PlacedStatements,
) -> Result<PlacedStatements, ParseRefusal>
    ensures { AddsStatements (some_of (statement names.now) ◂ period) statements parser.old result
        parser.new }
{
    let statements = all_statements(alloc, parser, names, statements)?;
    parser.period()?;
    Ok(statements)
}

/// A paragraph's name, which has no effect.
fn paragraph_name(parser: &mut Parser<'_>) -> Result<Name, ParseRefusal>
    ensures reads { ReadsAs (λ paragraph. paragraph.bytes) (name ◂ period) parser.old result parser.new }
    ensures stops { Stops (name ◂ period) parser.old result }
{
    let place = parser.place();
    let paragraph = parser.name(NameOf::Paragraph)?;
    match parser.period() {
        Ok(()) => Ok(paragraph),
        Err(ParseRefusal::Memory) => Err(ParseRefusal::Memory),
        Err(ParseRefusal::Fault(line, behind, _cause)) => {
            let lacking = FaultCause::Expected(Expected::Paragraph(place));
            Err(ParseRefusal::Fault(line, behind, lacking))
        }
    }
}

/// Whether a paragraph's name is next. No word that begins a statement is a name, and to see one takes less.
fn sees_paragraph(parser: &Parser<'_>) -> bool
    ensures { result ≡ begins (names ∷ []) parser.now }
{
    !sees_statement(parser) && parser.sees_name(NameOf::Paragraph)
}

/// A paragraph's name, in its line.
#[tactic(auto, unfolding(crate::specs::Procedure::paragraph))]
fn paragraph(
    parser: &mut Parser<'_>,
    statements: PlacedStatements,
) -> Result<PlacedStatements, ParseRefusal>
    ensures { AddsStatements paragraph statements parser.old result parser.new }
{
    let line = parser.line();
    let name = paragraph_name(parser)?;
    Ok(statements.with_paragraph(name, line)?)
}

#[tactic(auto, unfolding(crate::specs::Parts::paragraph_or_sentence), using(crate::proofs::ProcedureLemmas::paragraph_starts))]
pub fn paragraph_or_sentence(
    alloc: Global,
    parser: &mut Parser<'_>,
    names: &Names<'_>,
    statements: PlacedStatements,
) -> Result<PlacedStatements, ParseRefusal>
    ensures { AddsStatements (paragraph_or_sentence names.now) statements parser.old result parser.new }
{
    if sees_paragraph(parser) {
        return paragraph(parser, statements);
    }
    sentence(alloc, parser, names, statements)
}

/// Whether a paragraph or a sentence is next.
#[tactic(auto, unfolding(crate::specs::Parts::paragraph_or_sentence, crate::specs::Procedure::paragraph, deck_parser::specs::Notation::name))]
pub fn sees_sentence(parser: &Parser<'_>) -> bool
    ensures { (known : Names) → result ≡ begins (paragraph_or_sentence known).starts parser.now }
{
    sees_statement(parser) || parser.sees_name(NameOf::Paragraph)
}

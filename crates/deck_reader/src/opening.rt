//! The OPEN statement.
ghost use Rattle.std.specs.Prelude.{◌≡◌};
ghost use Rattle.deck_parser.specs.Class.{begins};
ghost use Rattle.deck_reader.specs.Names.{Names};
ghost use Rattle.deck_reader.specs.Reading.{AddsStatements};
ghost use Rattle.deck_reader.specs.StatementRules.{some_of, open_statement};
ghost use Rattle.deck_reader.specs.Parts.{name_to_open, opening};

use crate::file_name::file;
use crate::names::Names;
use crate::placed::PlacedStatements;
use crate::statement::Statement;
use deck_parser::{FaultCause, NameOf, NotAllowed, ParseRefusal, Parser};
use io_state::{FileStatement, OpenMode, Verb, permits};

/// A file that is opened in a mode.
#[tactic(auto, unfolding(crate::specs::Parts::name_to_open))]
fn opened(
    parser: &mut Parser<'_>,
    names: &Names<'_>,
    mode: OpenMode,
    statements: PlacedStatements,
) -> Result<PlacedStatements, ParseRefusal>
    ensures { AddsStatements (name_to_open names.now mode) statements parser.old result parser.new }
{
    let place = parser.place();
    let line = parser.line();
    let file = file(parser, names)?;
    if !permits(names.access(file), mode, Verb::Open) {
        return Err(place.fault(FaultCause::NotAllowed(NotAllowed::Open(file, mode))));
    }
    let statement = FileStatement::Open(mode);
    Ok(statements.with(Statement::Perform { file, statement }, line)?)
}

/// The files that are opened in a mode, one or more.
fn all_opened(
    parser: &mut Parser<'_>,
    names: &Names<'_>,
    mode: OpenMode,
    statements: PlacedStatements,
) -> Result<PlacedStatements, ParseRefusal>
    ensures { AddsStatements (some_of (name_to_open names.now mode)) statements parser.old result parser.new }
{
    let mut statements = opened(parser, names, mode, statements)?;
    'more: while parser.sees_name(NameOf::File) {
        statements = opened(parser, names, mode, statements)?;
    }
    Ok(statements)
}

/// A mode, and the files that are opened in it.
#[tactic(auto, unfolding(crate::specs::Parts::opening, deck_parser::specs::Notation::the), using(crate::proofs::JoinLemmas::second_behind))]
fn opening(
    parser: &mut Parser<'_>,
    names: &Names<'_>,
    statements: PlacedStatements,
) -> Result<PlacedStatements, ParseRefusal>
    ensures { AddsStatements (opening names.now) statements parser.old result parser.new }
{
    if parser.eat(b"INPUT") {
        return all_opened(parser, names, OpenMode::Input, statements);
    }
    if parser.eat(b"OUTPUT") {
        return all_opened(parser, names, OpenMode::Output, statements);
    }
    if parser.eat(b"I-O") {
        return all_opened(parser, names, OpenMode::InputOutput, statements);
    }
    parser.expect(b"EXTEND")?;
    all_opened(parser, names, OpenMode::Extend, statements)
}

/// Whether a mode is next.
#[tactic(auto, unfolding(crate::specs::Parts::opening, deck_parser::specs::Notation::the))]
fn sees_mode(parser: &Parser<'_>) -> bool
    ensures { (known : Names) → result ≡ begins (opening known).starts parser.now }
{
    parser.sees_one_of(&[b"INPUT", b"OUTPUT", b"I-O", b"EXTEND"])
}

/// Modes and their files, one or more.
fn all_openings(
    parser: &mut Parser<'_>,
    names: &Names<'_>,
    statements: PlacedStatements,
) -> Result<PlacedStatements, ParseRefusal>
    ensures { AddsStatements (some_of (opening names.now)) statements parser.old result parser.new }
{
    let mut statements = opening(parser, names, statements)?;
    'more: while sees_mode(parser) {
        statements = opening(parser, names, statements)?;
    }
    Ok(statements)
}

#[tactic(auto, unfolding(crate::specs::StatementRules::open_statement, crate::specs::Parts::name_to_open, crate::specs::Parts::opening), using(crate::proofs::JoinLemmas::second_behind))]
pub fn open_statement(
    parser: &mut Parser<'_>,
    names: &Names<'_>,
    statements: PlacedStatements,
) -> Result<PlacedStatements, ParseRefusal>
    ensures { AddsStatements (open_statement names.now) statements parser.old result parser.new }
{
    parser.expect(b"OPEN")?;
    all_openings(parser, names, statements)
}

//! The CLOSE statement.
ghost use Rattle.std.specs.Prelude.{Some, codes};
ghost use Rattle.deck_parser.specs.Reading.{ReadsRule};
ghost use Rattle.deck_parser.specs.Notation.{the, may, is_word_there, ◌▸◌};
ghost use Rattle.deck_parser.specs.Rule.{optional, where_it_gives};
ghost use Rattle.deck_reader.specs.Reading.{AddsStatements};
ghost use Rattle.deck_reader.specs.StatementRules.{some_of, close_statement};
ghost use Rattle.deck_reader.specs.Parts.{file_to_close};

use crate::file_name::file;
use crate::names::Names;
use crate::placed::PlacedStatements;
use crate::statement::Statement;
use deck_parser::{NameOf, ParseRefusal, Parser};
use io_state::FileStatement;

/// Whether a file is closed WITH LOCK.
#[tactic(auto, unfolding(deck_parser::specs::Notation::the))]
fn lock(parser: &mut Parser<'_>) -> Result<bool, ParseRefusal>
    ensures { ReadsRule (where_it_gives (λ there. Some (is_word_there there)) (optional (may (codes "WITH")
        ▸ the (codes "LOCK")))) parser.old result parser.new }
{
    if parser.sees(b"WITH") || parser.sees(b"LOCK") {
        parser.eat(b"WITH");
        parser.expect(b"LOCK")?;
        Ok(true)
    } else {
        Ok(false)
    }
}

/// A file that is closed.
#[tactic(auto, unfolding(crate::specs::Parts::file_to_close))]
fn closed(
    parser: &mut Parser<'_>,
    names: &Names<'_>,
    statements: PlacedStatements,
) -> Result<PlacedStatements, ParseRefusal>
    ensures { AddsStatements (file_to_close names.now) statements parser.old result parser.new }
{
    let line = parser.line();
    let file = file(parser, names)?;
    let lock = lock(parser)?;
    let statement = FileStatement::Close { lock };
    Ok(statements.with(Statement::Perform { file, statement }, line)?)
}

/// The files that are closed, one or more.
fn all_closed(
    parser: &mut Parser<'_>,
    names: &Names<'_>,
    statements: PlacedStatements,
) -> Result<PlacedStatements, ParseRefusal>
    ensures { AddsStatements (some_of (file_to_close names.now)) statements parser.old result parser.new }
{
    let mut statements = closed(parser, names, statements)?;
    'more: while parser.sees_name(NameOf::File) {
        statements = closed(parser, names, statements)?;
    }
    Ok(statements)
}

#[tactic(auto, unfolding(crate::specs::StatementRules::close_statement, crate::specs::Parts::file_to_close), using(crate::proofs::JoinLemmas::second_behind))]
pub fn close_statement(
    parser: &mut Parser<'_>,
    names: &Names<'_>,
    statements: PlacedStatements,
) -> Result<PlacedStatements, ParseRefusal>
    ensures { AddsStatements (close_statement names.now) statements parser.old result parser.new }
{
    parser.expect(b"CLOSE")?;
    all_closed(parser, names, statements)
}

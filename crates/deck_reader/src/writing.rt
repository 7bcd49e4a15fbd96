//! The WRITE, REWRITE and DELETE statements.
ghost use Rattle.std.specs.Prelude.{Some, codes};
ghost use Rattle.io_state.specs.declared.statement.FileStatement.TheVariants.{Write, Rewrite, Delete};
ghost use Rattle.deck_parser.specs.Notation.{the, may, ◌▸◌, ◌◂◌};
ghost use Rattle.deck_parser.specs.Rule.{where_it_gives};
ghost use Rattle.deck_parser.specs.Reading.{ReadsRule};
ghost use Rattle.deck_reader.specs.StatementRules.{file};
ghost use Rattle.deck_reader.specs.declared.statement.Statement.TheVariants.{Perform};
ghost use Rattle.deck_reader.specs.Parts.{write_statement, rewrite_statement, delete_statement};

use crate::file_name::{file, record_name};
use crate::names::Names;
use crate::statement::Statement;
use deck_parser::{ParseRefusal, Parser};
use io_state::FileStatement;

pub fn write_statement(
    parser: &mut Parser<'_>,
    names: &Names<'_>,
) -> Result<Statement, ParseRefusal>
    ensures { ReadsRule (write_statement names.now) parser.old result parser.new }
{
    parser.expect(b"WRITE")?;
    let file = record_name(parser, names)?;
    let statement = FileStatement::Write;
    Ok(Statement::Perform { file, statement })
}

pub fn rewrite_statement(
    parser: &mut Parser<'_>,
    names: &Names<'_>,
) -> Result<Statement, ParseRefusal>
    ensures { ReadsRule (rewrite_statement names.now) parser.old result parser.new }
{
    parser.expect(b"REWRITE")?;
    let file = record_name(parser, names)?;
    let statement = FileStatement::Rewrite;
    Ok(Statement::Perform { file, statement })
}

pub fn delete_statement(
    parser: &mut Parser<'_>,
    names: &Names<'_>,
) -> Result<Statement, ParseRefusal>
    ensures { ReadsRule (delete_statement names.now) parser.old result parser.new }
{
    parser.expect(b"DELETE")?;
    let file = file(parser, names)?;
    parser.eat(b"RECORD");
    let statement = FileStatement::Delete;
    Ok(Statement::Perform { file, statement })
}

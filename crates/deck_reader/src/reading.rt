//! The READ statement.
ghost use Rattle.std.specs.Prelude.{◌≡◌, not, ◌||◌, Some, codes, if◌then◌else◌};
ghost use Rattle.std.specs.Option.{option_map_or};
ghost use Rattle.io_state.specs.Permission.{is_sequential, is_random};
ghost use Rattle.io_state.specs.declared.statement.FileStatement.TheVariants.{Read, ReadNext};
ghost use Rattle.deck_parser.specs.Notation.{the, may, is_word_there, ◌▸◌};
ghost use Rattle.deck_parser.specs.Reading.{ReadsRule};
ghost use Rattle.deck_parser.specs.Rule.{optional, where_it_gives};
ghost use Rattle.deck_parser.specs.Following.{where_allowed};
ghost use Rattle.deck_reader.specs.StatementRules.{key, next_phrase, read_operand};
ghost use Rattle.deck_reader.specs.StatementRules.{read_statement};

use crate::file_name::file;
use crate::names::Names;
use crate::statement::Statement;
use deck_parser::{FaultCause, NameOf, NotAllowed, ParseRefusal, Parser, Unknown};
use io_state::{Access, FileStatement};

/// Whether the READ is sequential: NEXT says so, and in sequential access it always is.
fn next(parser: &mut Parser<'_>, file: usize, access: Access) -> Result<bool, ParseRefusal>
    ensures { ReadsRule (next_phrase access) parser.old result parser.new }
{
    let place = parser.place();
    if !parser.eat(b"NEXT") {
        return Ok(access == Access::Sequential);
    }
    if access == Access::Random {
        return Err(place.fault(FaultCause::NotAllowed(NotAllowed::Next(file))));
    }
    Ok(true)
}

/// The name of an item of the file that is a key.
#[tactic(auto, unfolding(crate::specs::StatementRules::key))]
fn key(parser: &mut Parser<'_>, names: &Names<'_>, file: usize) -> Result<u8, ParseRefusal>
    ensures { ReadsRule (key names.now file) parser.old result parser.new }
{
    let place = parser.place();
    let name = parser.name(NameOf::Item)?;
    let Some(field) = names.item_in(file, &name) else {
        let unknown = Unknown::KeyItem(file, names.named(&name));
        return Err(place.fault(FaultCause::Unknown(unknown)));
    };
    match names.key(file, field) {
        Some(key) => Ok(key),
        None => Err(place.fault(FaultCause::NotAllowed(NotAllowed::NoKey(file)))),
    }
}

fn read_by(sequential: bool, key: Option<u8>) -> FileStatement
    ensures { result ≡ option_map_or (λ k. Read k) key (if sequential then ReadNext else Read 0) }
{
    match key {
        Some(key) => FileStatement::Read { key },
        None if sequential => FileStatement::ReadNext,
        None => FileStatement::Read { key: 0 },
    }
}

/// Why KEY is not allowed in a sequential READ of a file: it is sequential by its access, or by NEXT.
fn no_key_phrase(names: &Names<'_>, file: usize) -> NotAllowed {
    if names.access(file) == Access::Sequential {
        NotAllowed::Key(file)
    } else {
        NotAllowed::KeyWithNext
    }
}

/// The key that KEY says, which a sequential READ may not have.
#[tactic(auto, unfolding(deck_parser::specs::Notation::the))]
fn key_phrase(
    parser: &mut Parser<'_>,
    names: &Names<'_>,
    file: usize,
    sequential: bool,
) -> Result<Option<u8>, ParseRefusal>
    ensures { ReadsRule (optional (where_allowed (not sequential) (the (codes "KEY")) ▸ may (codes "IS")
        ▸ key names.now file)) parser.old result parser.new }
{
    let place = parser.place();
    if !parser.eat(b"KEY") {
        return Ok(None);
    }
    if sequential {
        return Err(place.fault(FaultCause::NotAllowed(no_key_phrase(names, file))));
    }
    parser.eat(b"IS");
    Ok(Some(key(parser, names, file)?))
}

/// The phrases behind NEXT.
#[tactic(auto, unfolding(crate::specs::StatementRules::read_operand))]
fn read_operand(
    parser: &mut Parser<'_>,
    names: &Names<'_>,
    file: usize,
    sequential: bool,
) -> Result<Statement, ParseRefusal>
    ensures { ReadsRule (read_operand names.now file sequential) parser.old result parser.new }
{
    parser.eat(b"RECORD");
    let key = key_phrase(parser, names, file, sequential)?;
    let statement = read_by(sequential, key);
    Ok(Statement::Perform { file, statement })
}

#[tactic(auto, unfolding(crate::specs::StatementRules::read_statement))]
pub fn read_statement(parser: &mut Parser<'_>, names: &Names<'_>) -> Result<Statement, ParseRefusal>
    ensures { ReadsRule (read_statement names.now) parser.old result parser.new }
{
    parser.expect(b"READ")?;
    let file = file(parser, names)?;
    let sequential = next(parser, file, names.access(file))?;
    read_operand(parser, names, file, sequential)
}

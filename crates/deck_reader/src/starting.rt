//! The START statement.
ghost use Rattle.std.specs.Prelude.{◌≡◌, Some, None, is_some, codes, if◌then◌else◌};
ghost use Rattle.io_state.specs.Permission.{is_random};
ghost use Rattle.io_state.specs.declared.modes.Relation.TheVariants.{Greater, NotLess};
ghost use Rattle.deck_parser.specs.Notation.{the, may, ◌▸◌, ◌◂◌, ◌⊗◌, ◌∣◌};
ghost use Rattle.deck_parser.specs.Operand.{sign};
ghost use Rattle.deck_parser.specs.Reading.{ReadsRule};
ghost use Rattle.deck_parser.specs.Rule.{optional, where_it_gives};
ghost use Rattle.deck_reader.specs.Names.{access_at};
ghost use Rattle.deck_reader.specs.StatementRules.{file};
ghost use Rattle.deck_reader.specs.StatementRules.{relation, greater_relation, led_key, start_by};
ghost use Rattle.deck_reader.specs.StatementRules.{file_to_start, start_phrase, start_operand};
ghost use Rattle.deck_reader.specs.StatementRules.{start_statement};
ghost use Rattle.deck_reader.specs.declared.statement.Statement.TheVariants.{Perform};

use crate::file_name::file;
use crate::names::Names;
use crate::statement::Statement;
use deck_parser::{FaultCause, NameOf, NotAllowed, ParseRefusal, Parser, Unknown};
use io_state::{Access, FileStatement, Relation};

/// The name of a file that START is for: its access is not random.
fn file_to_start(parser: &mut Parser<'_>, names: &Names<'_>) -> Result<usize, ParseRefusal>
    ensures { ReadsRule (file_to_start names.now) parser.old result parser.new }
{
    let place = parser.place();
    let file = file(parser, names)?;
    if names.access(file) == Access::Random {
        return Err(place.fault(FaultCause::NotAllowed(NotAllowed::Start(file))));
    }
    Ok(file)
}

/// The name of an item of the file that is a key or the leading part of one: the key, and the item's length.
#[tactic(auto, unfolding(crate::specs::StatementRules::led_key))]
fn led_key(
    parser: &mut Parser<'_>,
    names: &Names<'_>,
    file: usize,
) -> Result<(u8, u16), ParseRefusal>
    ensures { ReadsRule (led_key names.now file) parser.old result parser.new }
{
    let place = parser.place();
    let name = parser.name(NameOf::Item)?;
    let Some(field) = names.item_in(file, &name) else {
        let unknown = Unknown::KeyItem(file, names.named(&name));
        return Err(place.fault(FaultCause::Unknown(unknown)));
    };
    match names.led_key(file, field) {
        Some(led) => Ok(led),
        None => Err(place.fault(FaultCause::NotAllowed(NotAllowed::NoLeadingKey(file)))),
    }
}

/// GREATER, or GREATER OR EQUAL.
#[tactic(auto, unfolding(deck_parser::specs::Notation::the))]
fn greater(parser: &mut Parser<'_>) -> Result<Relation, ParseRefusal>
    ensures { ReadsRule greater_relation parser.old result parser.new }
{
    parser.expect(b"GREATER")?;
    parser.eat(b"THAN");
    if !parser.sees(b"OR") {
        return Ok(Relation::Greater);
    }
    parser.expect(b"OR")?;
    parser.expect(b"EQUAL")?;
    parser.eat(b"TO");
    Ok(Relation::NotLess)
}

/// NOT LESS.
#[tactic(auto, unfolding(deck_parser::specs::Notation::the))]
fn not_less(parser: &mut Parser<'_>) -> Result<(), ParseRefusal>
    ensures { ReadsRule (the (codes "NOT") ▸ ((the (codes "LESS") ◂ may (codes "THAN")) ∣ sign (codes
        "<"))) parser.old result parser.new }
{
    parser.expect(b"NOT")?;
    if parser.eat(b"LESS") {
        parser.eat(b"THAN");
        return Ok(());
    }
    parser.expect_sign(b"<")
}

#[tactic(auto, unfolding(crate::specs::StatementRules::relation, deck_parser::specs::Notation::the, deck_parser::specs::Operand::sign))]
fn relation(parser: &mut Parser<'_>) -> Result<Relation, ParseRefusal>
    ensures { ReadsRule relation parser.old result parser.new }
{
    if parser.eat(b"EQUAL") {
        parser.eat(b"TO");
        return Ok(Relation::Equal);
    }
    if parser.eat_sign(b"=") {
        return Ok(Relation::Equal);
    }
    if parser.sees(b"GREATER") {
        return greater(parser);
    }
    if parser.eat_sign(b">") {
        return Ok(Relation::Greater);
    }
    if parser.sees(b"NOT") {
        not_less(parser)?;
        return Ok(Relation::NotLess);
    }
    parser.expect_sign(b">=")?;
    Ok(Relation::NotLess)
}

/// What KEY says: a relation, a key, and how much of it.
#[tactic(auto, unfolding(deck_parser::specs::Notation::the))]
fn start_phrase(
    parser: &mut Parser<'_>,
    names: &Names<'_>,
    file: usize,
) -> Result<Option<(Relation, (u8, u16))>, ParseRefusal>
    ensures { ReadsRule (start_phrase names.now file) parser.old result parser.new }
{
    if !parser.eat(b"KEY") {
        return Ok(None);
    }
    parser.eat(b"IS");
    let relation = relation(parser)?;
    let led = led_key(parser, names, file)?;
    Ok(Some((relation, led)))
}

fn start_by(names: &Names<'_>, file: usize, operand: Option<(Relation, (u8, u16))>) -> FileStatement
    ensures { result ≡ start_by names.now file operand }
{
    match operand {
        Some((relation, (key, length))) => FileStatement::Start {
            key,
            length,
            relation,
        },
        None => FileStatement::Start {
            key: 0,
            length: names.prime_length(file),
            relation: Relation::Equal,
        },
    }
}

/// The phrase behind the file's name.
fn start_operand(
    parser: &mut Parser<'_>,
    names: &Names<'_>,
    file: usize,
) -> Result<Statement, ParseRefusal>
    ensures { ReadsRule (start_operand names.now file) parser.old result parser.new }
{
    let operand = start_phrase(parser, names, file)?;
    let statement = start_by(names, file, operand);
    Ok(Statement::Perform { file, statement })
}

#[tactic(auto, unfolding(crate::specs::StatementRules::start_statement))]
pub fn start_statement(
    parser: &mut Parser<'_>,
    names: &Names<'_>,
) -> Result<Statement, ParseRefusal>
    ensures { ReadsRule (start_statement names.now) parser.old result parser.new }
{
    parser.expect(b"START")?;
    let file = file_to_start(parser, names)?;
    start_operand(parser, names, file)
}

//! The MOVE statement.
ghost use Rattle.std.specs.Prelude.{◌≡◌, true, IfOk, if◌then◌else◌, codes};
ghost use Rattle.std.specs.List.{list_all};
ghost use Rattle.std.specs.Char.{is_ascii_digit};
ghost use Rattle.record_layout.specs.Area.{is_taken_by, sent};
ghost use Rattle.record_layout.specs.declared.area.Source.TheVariants.{Text, Digits};
ghost use Rattle.deck_parser.specs.Notation.{the, ◌▸◌};
ghost use Rattle.deck_parser.specs.Reading.{ReadsRule, ReadsAs, Stops};
ghost use Rattle.deck_reader.specs.Reading.{AddsStatements};
ghost use Rattle.deck_reader.specs.StatementRules.{some_of, figure, source, moved_source};
ghost use Rattle.deck_reader.specs.StatementRules.{receiver, move_statement};

use crate::names::Names;
use crate::placed::PlacedStatements;
use crate::statement::Statement;
use deck_parser::{FaultCause, NameOf, NotAllowed, ParseRefusal, Parser, Unknown, WordPlace};
use record_layout::{Bytes, Figure, Source, takes};
use std::alloc::{AllocError, Global};

/// A figurative constant.
#[tactic(auto, unfolding(crate::specs::StatementRules::figure, deck_parser::specs::Notation::the))]
fn figure(parser: &mut Parser<'_>) -> Result<Figure, ParseRefusal>
    ensures { ReadsRule figure parser.old result parser.new }
{
    if parser.eat(b"SPACE") || parser.eat(b"SPACES") {
        return Ok(Figure::Space);
    }
    if parser.eat(b"ZERO") || parser.eat(b"ZEROS") || parser.eat(b"ZEROES") {
        return Ok(Figure::Zero);
    }
    if parser.eat(b"LOW-VALUE") || parser.eat(b"LOW-VALUES") {
        return Ok(Figure::Low);
    }
    if parser.eat(b"HIGH-VALUE") {
        return Ok(Figure::High);
    }
    parser.expect(b"HIGH-VALUES")?;
    Ok(Figure::High)
}

fn are_digits(text: &[u8]) -> bool
    ensures { result ≡ list_all is_ascii_digit text.now }
{
    text.iter().all(|byte| byte.is_ascii_digit())
}

/// What a literal sends.
fn sent_by_literal(text: Bytes) -> Source<Bytes>
    ensures { result ≡ (if list_all is_ascii_digit text then Digits text else Text text) }
{
    if are_digits(text.as_slice()) {
        Source::Digits(text)
    } else {
        Source::Text(text)
    }
}

#[tactic(auto, unfolding(crate::specs::StatementRules::source))]
fn source(alloc: Global, parser: &mut Parser<'_>) -> Result<Source<Bytes>, ParseRefusal>
    ensures { ReadsRule source parser.old result parser.new }
{
    if parser.sees_literal() {
        let text = parser.literal(alloc)?;
        return Ok(sent_by_literal(text));
    }
    if parser.sees_digits() {
        let digits = parser.digits()?;
        let copy = Vec::from_slice(alloc, digits.as_str().as_bytes())?;
        return Ok(Source::Digits(Bytes::from_vec(copy)));
    }
    let figure = figure(parser)?;
    Ok(Source::Fill(figure))
}

/// Whether a length item takes the source, as each numeric item does.
fn is_numeric(source: &Source<&[u8]>) -> bool
    ensures { result ≡ is_taken_by true (sent source.now) }
{
    matches!(source, Source::Digits(_) | Source::Fill(Figure::Zero))
}

/// A source with bytes of its own.
fn copy_of(alloc: Global, source: &Source<&[u8]>) -> Result<Source<Bytes>, AllocError>
    ensures { IfOk result (λ copy. copy ≡ sent source.now) }
{
    Ok(match source {
        Source::Text(text) => Source::Text(Bytes::from_vec(Vec::from_slice(alloc, text)?)),
        Source::Digits(digits) => Source::Digits(Bytes::from_vec(Vec::from_slice(alloc, digits)?)),
        Source::Fill(figure) => Source::Fill(*figure),
    })
}

/// A MOVE: the line of its verb, and where its source stands.
#[derive(Clone, Copy)]
struct MovePlaces {
    line: u64,
    source: WordPlace,
}

/// An item that takes the source.
#[tactic(auto, unfolding(crate::specs::StatementRules::receiver))]
fn receiver(
    alloc: Global,
    parser: &mut Parser<'_>,
    names: &Names<'_>,
    source: &Source<&[u8]>,
    statements: PlacedStatements,
    places: MovePlaces,
) -> Result<PlacedStatements, ParseRefusal>
    ensures { AddsStatements (receiver names.now places.line (sent source.now)) statements parser.old result parser.new }
{
    let place = parser.place();
    let name = parser.name(NameOf::Item)?;
    if let Some((file, field)) = names.item(&name) {
        if !takes(field, source) {
            let refused = NotAllowed::Source(places.source, field.length);
            return Err(place.fault(FaultCause::NotAllowed(refused)));
        }
        let source = copy_of(alloc, source)?;
        let moved = Statement::Move {
            file,
            field,
            source,
        };
        return Ok(statements.with(moved, places.line)?);
    }
    let Some(item) = names.length_item(name.as_str()) else {
        let unknown = Unknown::Receiver(names.named(&name));
        return Err(place.fault(FaultCause::Unknown(unknown)));
    };
    if !is_numeric(source) {
        let refused = NotAllowed::Source(places.source, names.digits(item));
        return Err(place.fault(FaultCause::NotAllowed(refused)));
    }
    let source = copy_of(alloc, source)?;
    Ok(statements.with(Statement::MoveLength { item, source }, places.line)?)
}

/// The items that take the source, one or more.
fn all_receivers(
    alloc: Global,
    parser: &mut Parser<'_>,
    names: &Names<'_>,
    source: &Source<&[u8]>,
    statements: PlacedStatements,
    places: MovePlaces,
) -> Result<PlacedStatements, ParseRefusal>
    ensures { AddsStatements (some_of (receiver names.now places.line (sent source.now))) statements parser.old result
        parser.new }
{
    let mut statements = receiver(alloc, parser, names, source, statements, places)?;
    'more: while parser.sees_name(NameOf::Item) {
        statements = receiver(alloc, parser, names, source, statements, places)?;
    }
    Ok(statements)
}

#[tactic(auto, using(crate::proofs::JoinLemmas::second_behind))]
fn receivers(
    alloc: Global,
    parser: &mut Parser<'_>,
    names: &Names<'_>,
    source: &Source<&[u8]>,
    statements: PlacedStatements,
    places: MovePlaces,
) -> Result<PlacedStatements, ParseRefusal>
    ensures { AddsStatements (the (codes "TO") ▸ some_of (receiver names.now places.line (sent source.now))) statements
        parser.old result parser.new }
{
    parser.expect(b"TO")?;
    all_receivers(alloc, parser, names, source, statements, places)
}

/// The source of a MOVE.
#[tactic(auto, unfolding(crate::specs::StatementRules::moved_source))]
fn moved_source(
    alloc: Global,
    parser: &mut Parser<'_>,
) -> Result<(WordPlace, Source<Bytes>), ParseRefusal>
    ensures reads { ReadsAs (λ moved. moved.1) moved_source parser.old result parser.new }
    ensures stops { Stops moved_source parser.old result }
{
    parser.expect(b"MOVE")?;
    let place = parser.place();
    let source = source(alloc, parser)?;
    Ok((place, source))
}

#[tactic(auto, unfolding(crate::specs::StatementRules::move_statement), using(crate::proofs::JoinLemmas::follower_behind, crate::proofs::JoinLemmas::second_behind))]
pub fn move_statement(
    alloc: Global,
    parser: &mut Parser<'_>,
    names: &Names<'_>,
    statements: PlacedStatements,
) -> Result<PlacedStatements, ParseRefusal>
    ensures { AddsStatements (move_statement names.now) statements parser.old result parser.new }
{
    let line = parser.line();
    let (source, sent) = moved_source(alloc, parser)?;
    let places = MovePlaces { line, source };
    receivers(alloc, parser, names, &sent.as_ref(), statements, places)
}

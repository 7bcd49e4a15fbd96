//! The procedure division.
ghost use Rattle.std.specs.Prelude.{◌≢◌, IfErr};
ghost use Rattle.deck_parser.specs.Fault.{GivesOrRefuses, GivesOrTells};
ghost use Rattle.deck_parser.specs.OneReading.{Determines};
ghost use Rattle.deck_parser.specs.Reading.{ReadsRule};
ghost use Rattle.deck_parser.specs.Rule.{onto};
ghost use Rattle.deck_reader.specs.Names.{Names};
ghost use Rattle.deck_reader.specs.Placed.{nothing_placed};
ghost use Rattle.deck_reader.specs.StatementRules.{joined_statements};
ghost use Rattle.deck_reader.specs.Procedure.{procedure, IsProcedure};
ghost use Rattle.deck_reader.specs.Parts.{paragraph_or_sentence};
ghost use Rattle.deck_reader.specs.OnlyAllowed.{HaveOnlyAllowed};
ghost use Rattle.deck_reader.specs.EachHasItsLine.{EachHasItsLine};
ghost use Rattle.file_control.specs.FirstFault.{TellsFault};
ghost use Rattle.deck_reader.specs.FirstFault.{IsProcedureFault};

use crate::names::Names;
use crate::placed::PlacedStatements;
use crate::sentence::{paragraph_or_sentence, sees_sentence};
use deck_parser::{
    DeckFault, NameOf, ParseRefusal, Parser, WantedList, WantedWord, WordPlace, Words,
};
use std::alloc::Global;

/// How many words a statement has, or more, in most procedures. A period is one.
const WORDS_OF_STATEMENT: usize = 4;

/// Paragraphs and sentences up to a word with which none begins. The list of the statements begins
/// with the room that it takes in most procedures, so that it is not moved as it grows.
fn all_sentences(
    alloc: Global,
    parser: &mut Parser<'_>,
    names: &Names<'_>,
) -> Result<PlacedStatements, ParseRefusal>
    ensures { ReadsRule (onto joined_statements nothing_placed (paragraph_or_sentence names.now)) parser.old result
        parser.new }
{
    let none = PlacedStatements::with_capacity(alloc, parser.left() / WORDS_OF_STATEMENT)?;
    let mut statements = none;
    'more: while sees_sentence(parser) {
        statements = paragraph_or_sentence(alloc, parser, names, statements)?;
    }
    Ok(statements)
}

#[tactic(auto, unfolding(crate::specs::Procedure::procedure, crate::specs::Parts::paragraph_or_sentence))]
fn procedure_division(
    alloc: Global,
    parser: &mut Parser<'_>,
    names: &Names<'_>,
) -> Result<PlacedStatements, ParseRefusal>
    ensures { ReadsRule (procedure names.now) parser.old result parser.new }
{
    parser.expect(b"PROCEDURE")?;
    parser.expect(b"DIVISION")?;
    parser.period()?;
    all_sentences(alloc, parser, names)
}

/// The statements that the words are, or why they are none, as `procedure`.
pub fn read_procedure(
    alloc: Global,
    names: &Names<'_>,
    words: &Words<'_>,
) -> Result<PlacedStatements, ParseRefusal>
    ensures statements { GivesOrRefuses (IsProcedure names.now words.now) result }
    ensures fault { TellsFault (IsProcedureFault names.now words.now) result }
{
    let mut parser = Parser::new(words);
    let statements = procedure_division(alloc, &mut parser, names)?;
    parser.end(WantedWord::Name(NameOf::Paragraph))?;
    Ok(statements)
}

/// The statements that the words are, all of them, from PROCEDURE on, or the first fault: code 2
/// for a word with which no procedure goes on, and at the last line where words are missing; 3 for
/// a file, a record or an item that is none; 5 for what is not allowed; 6 for a number of more than
/// 18 digits; or code 8.
pub fn procedure(
    alloc: Global,
    names: &Names<'_>,
    words: &Words<'_>,
) -> Result<PlacedStatements, DeckFault>
    ensures statements { GivesOrTells (IsProcedure names.now words.now) result }
    ensures fault { IfErr result (λ fault. fault.code ≢ 8 → IsProcedureFault names.now words.now fault) }
{
    Ok(read_procedure(alloc, names, words)?)
}

/// What is tried at the word of a place and does not fit, where the words are read as a procedure.
pub fn wanted_in_procedure(
    alloc: Global,
    names: &Names<'_>,
    words: &Words<'_>,
    place: WordPlace,
) -> WantedList {
    let mut parser = Parser::noting(words, place);
    let _ = procedure_division(alloc, &mut parser, names);
    parser.wanted()
}

/// No words are two procedures.
pub fn one_procedure()
    ensures { (names : Names) → Determines (IsProcedure names) }
{}

/// The statements of a procedure are for files, items and keys of the deck, and the access modes allow them.
pub fn only_allowed()
    ensures { HaveOnlyAllowed }
{}

/// Each statement of a procedure has a line.
pub fn each_has_its_line()
    ensures { EachHasItsLine }
{}

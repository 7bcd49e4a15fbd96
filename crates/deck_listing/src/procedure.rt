//! The verbs and paragraphs of a deck, in their order.
ghost use Rattle.std.specs.Prelude.{◌≡◌, ◌++◌, ◌^◌, ◌<◌, ◌≤◌, length, slice_get, string_bytes, OnOk, IfOk};
ghost use Rattle.std.specs.Option.{option_map_or};
ghost use Rattle.deck_listing.specs.Verbs.{verb_of};
ghost use Rattle.deck_listing.specs.Listing.{count_before, paragraph_lines, line_of_verb, verbs_with};
ghost use Rattle.deck_listing.specs.Listing.{procedure_lines};

use crate::lines::{add_paragraph, add_verb};
use crate::verbs::verb_of;
use deck_reader::{Paragraph, Statement, StatementPlaces};
use file_control::FileDesc;
use std::alloc::AllocError;

/// Adds the lines of paragraphs.
fn add_paragraphs(text: &mut String, paragraphs: &[Paragraph]) -> Result<(), AllocError>
    ensures { OnOk result (string_bytes text.new ≡ string_bytes text.old ++ paragraph_lines paragraphs.now) }
{
    for paragraph in paragraphs {
        add_paragraph(text, paragraph.line, paragraph.name.as_str())?;
    }
    Ok(())
}

/// How many of the paragraphs, of which none was listed, stand before a statement.
fn count_before(at: usize, paragraphs: &[Paragraph]) -> usize
    ensures count { result ≡ count_before at paragraphs.now }
    ensures within { result ≤ length paragraphs.now }
{
    paragraphs
        .iter()
        .take_while(|paragraph| paragraph.at <= at)
        .count()
}

/// The line of a statement.
fn line_at(lines: &[u64], at: usize) -> u64
    ensures { result ≡ option_map_or (λ line. line) (slice_get lines.now at) 0 }
{
    match lines.get(at) {
        Some(line) => *line,
        None => 0,
    }
}

/// Adds the line of a statement behind so many verbs, if it is a verb, and counts it.
fn add_statement(
    text: &mut String,
    files: &[FileDesc],
    line: u64,
    before: usize,
    statement: &Statement,
) -> Result<usize, AllocError>
    requires { before < 2 ^ 63 }
    ensures line { OnOk result (string_bytes text.new ≡ string_bytes text.old
        ++ line_of_verb line (verb_of files.now before statement.now)) }
    ensures count { IfOk result (λ count. count ≡ verbs_with before (verb_of files.now before
        statement.now)) }
{
    match verb_of(files, before, statement) {
        Some(verb) => {
            add_verb(text, line, &verb)?;
            Ok(before + 1)
        }
        None => Ok(before),
    }
}

/// Adds the lines of a procedure.
pub fn add_procedure(
    text: &mut String,
    files: &[FileDesc],
    statements: &[Statement],
    places: &StatementPlaces,
) -> Result<(), AllocError>
    ensures { OnOk result (string_bytes text.new ≡ string_bytes text.old
        ++ procedure_lines files.now places.now.lines 0 0 places.now.paragraphs statements.now) }
{
    let mut at = 0;
    let mut verbs = 0;
    let mut paragraphs = places.paragraphs();
    let mut left = statements;
    'more: while let Some((statement, more)) = left.split_first() {
        let (here, behind) = paragraphs.split_at(count_before(at, paragraphs));
        add_paragraphs(text, here)?;
        let line = line_at(places.lines(), at);
        verbs = add_statement(text, files, line, verbs, statement)?;
        paragraphs = behind;
        at += 1;
        left = more;
    }
    add_paragraphs(text, paragraphs)
}

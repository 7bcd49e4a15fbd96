//! The words of a file control entry.
ghost use Rattle.std.specs.Prelude.{◌≡◌};
ghost use Rattle.deck_parser.specs.Class.{begins};
ghost use Rattle.deck_parser.specs.Rule.{each_behind};
ghost use Rattle.deck_parser.specs.Reading.{ReadsAs, ReadsRule, Stops};
ghost use Rattle.deck_entries.specs.FileControlEntry.{indexed, mode, access, record_key};
ghost use Rattle.deck_entries.specs.FileControlEntry.{duplicates, alternate, status, clause};
ghost use Rattle.deck_entries.specs.FileControlEntry.{EntryClauses, no_clauses, entry_end, entry_keys, select_behind};
ghost use Rattle.deck_entries.specs.FileControlEntry.{select_word, new_name, new_file_name};
ghost use Rattle.deck_entries.specs.FileControlEntry.{is_selected, is_assigned};

use crate::entry::{EntryClauses, EntryKeys, Selected};
use deck_parser::{Expected, FaultCause, Limit, NameOf, NotAllowed, ParseRefusal, Parser, Twice};
use io_state::{Access, FileName, Name, file_name_of};
use std::alloc::Global;

/// The most alternate keys of a file.
const ALTERNATE_LIMIT: usize = 8;

/// The most files of a deck.
const FILE_LIMIT: usize = 8;

#[tactic(auto, unfolding(crate::specs::FileControlEntry::indexed, deck_parser::specs::Notation::the))]
fn indexed(parser: &mut Parser<'_>, clauses: EntryClauses) -> Result<EntryClauses, ParseRefusal>
    ensures { ReadsRule (indexed clauses) parser.old result parser.new }
{
    if clauses.indexed {
        return Err(parser.fault(FaultCause::Twice(Twice::Clause(clauses.lines.indexed))));
    }
    let line = parser.line();
    if parser.eat(b"ORGANIZATION") {
        parser.eat(b"IS");
    }
    parser.expect(b"INDEXED")?;
    let mut clauses = clauses;
    clauses.indexed = true;
    clauses.lines.indexed = line;
    Ok(clauses)
}

#[tactic(auto, unfolding(crate::specs::FileControlEntry::mode, deck_parser::specs::Notation::the))]
fn mode(parser: &mut Parser<'_>) -> Result<Access, ParseRefusal>
    ensures { ReadsRule mode parser.old result parser.new }
{
    if parser.eat(b"SEQUENTIAL") {
        return Ok(Access::Sequential);
    }
    if parser.eat(b"RANDOM") {
        return Ok(Access::Random);
    }
    parser.expect(b"DYNAMIC")?;
    Ok(Access::Dynamic)
}

#[tactic(auto, unfolding(crate::specs::FileControlEntry::access))]
fn access(parser: &mut Parser<'_>, clauses: EntryClauses) -> Result<EntryClauses, ParseRefusal>
    ensures { ReadsRule (access clauses) parser.old result parser.new }
{
    if clauses.access.is_some() {
        return Err(parser.fault(FaultCause::Twice(Twice::Clause(clauses.lines.access))));
    }
    let line = parser.line();
    parser.expect(b"ACCESS")?;
    parser.eat(b"MODE");
    parser.eat(b"IS");
    let mut clauses = clauses;
    clauses.lines.access = line;
    clauses.access = Some(mode(parser)?);
    Ok(clauses)
}

#[tactic(auto, unfolding(crate::specs::FileControlEntry::record_key))]
fn record_key(parser: &mut Parser<'_>, clauses: EntryClauses) -> Result<EntryClauses, ParseRefusal>
    ensures { ReadsRule (record_key clauses) parser.old result parser.new }
{
    if clauses.record_key.is_some() {
        return Err(parser.fault(FaultCause::Twice(Twice::Clause(clauses.lines.record_key))));
    }
    let line = parser.line();
    parser.expect(b"RECORD")?;
    parser.eat(b"KEY");
    parser.eat(b"IS");
    let mut clauses = clauses;
    clauses.lines.record_key = line;
    clauses.record_key = Some(parser.name(NameOf::Item)?);
    Ok(clauses)
}

#[tactic(auto, unfolding(crate::specs::FileControlEntry::duplicates, deck_parser::specs::Notation::the))]
fn duplicates(parser: &mut Parser<'_>) -> Result<bool, ParseRefusal>
    ensures { ReadsRule duplicates parser.old result parser.new }
{
    if parser.sees_one_of(&[b"WITH", b"DUPLICATES"]) {
        parser.eat(b"WITH");
        parser.expect(b"DUPLICATES")?;
        Ok(true)
    } else {
        Ok(false)
    }
}

#[tactic(auto, unfolding(crate::specs::FileControlEntry::alternate))]
fn alternate(parser: &mut Parser<'_>, clauses: EntryClauses) -> Result<EntryClauses, ParseRefusal>
    ensures { ReadsRule (alternate clauses) parser.old result parser.new }
{
    if clauses.alternate_keys.len() >= ALTERNATE_LIMIT {
        return Err(parser.fault(FaultCause::Limit(Limit::AlternateKeys)));
    }
    parser.expect(b"ALTERNATE")?;
    parser.expect(b"RECORD")?;
    parser.eat(b"KEY");
    parser.eat(b"IS");
    let name = parser.name(NameOf::Item)?;
    let duplicates = duplicates(parser)?;
    let mut clauses = clauses;
    clauses.alternate_keys.push(name, duplicates)?;
    Ok(clauses)
}

#[tactic(auto, unfolding(crate::specs::FileControlEntry::status))]
fn status(parser: &mut Parser<'_>, clauses: EntryClauses) -> Result<EntryClauses, ParseRefusal>
    ensures { ReadsRule (status clauses) parser.old result parser.new }
{
    if clauses.status {
        return Err(parser.fault(FaultCause::Twice(Twice::Clause(clauses.lines.status))));
    }
    let line = parser.line();
    parser.eat(b"FILE");
    parser.expect(b"STATUS")?;
    parser.eat(b"IS");
    parser.name(NameOf::Status)?;
    let mut clauses = clauses;
    clauses.status = true;
    clauses.lines.status = line;
    Ok(clauses)
}

/// Whether a clause comes next.
#[tactic(auto, unfolding(crate::specs::FileControlEntry::clause, crate::specs::FileControlEntry::indexed, crate::specs::FileControlEntry::access, crate::specs::FileControlEntry::record_key, crate::specs::FileControlEntry::alternate, crate::specs::FileControlEntry::status, deck_parser::specs::Notation::the))]
fn sees_clause(parser: &Parser<'_>) -> bool
    ensures { (said : EntryClauses) → result ≡ begins (clause said).starts parser.now }
{
    parser.sees_one_of(&[
        b"ORGANIZATION",
        b"INDEXED",
        b"ACCESS",
        b"RECORD",
        b"ALTERNATE",
        b"FILE",
        b"STATUS",
    ])
}

fn clause(parser: &mut Parser<'_>, clauses: EntryClauses) -> Result<EntryClauses, ParseRefusal>
    ensures { ReadsRule (clause clauses) parser.old result parser.new }
{
    if parser.sees_one_of(&[b"ORGANIZATION", b"INDEXED"]) {
        return indexed(parser, clauses);
    }
    if parser.sees(b"ACCESS") {
        return access(parser, clauses);
    }
    if parser.sees(b"RECORD") {
        return record_key(parser, clauses);
    }
    if parser.sees(b"ALTERNATE") {
        return alternate(parser, clauses);
    }
    status(parser, clauses)
}

/// One clause or more.
fn all_clauses(parser: &mut Parser<'_>, alloc: Global) -> Result<EntryClauses, ParseRefusal>
    ensures { ReadsRule (each_behind clause no_clauses) parser.old result parser.new }
{
    let mut clauses = clause(parser, EntryClauses::new(alloc))?;
    'more: while sees_clause(parser) {
        clauses = clause(parser, clauses)?;
    }
    Ok(clauses)
}

/// The period, and what the clauses say together, unless INDEXED or RECORD KEY is missing.
#[tactic(auto, unfolding(crate::specs::FileControlEntry::entry_end))]
fn entry_end(parser: &mut Parser<'_>, clauses: EntryClauses) -> Result<EntryKeys, ParseRefusal>
    ensures { ReadsRule (entry_end clauses) parser.old result parser.new }
{
    let end = parser.place();
    parser.period()?;
    if !clauses.indexed {
        return Err(end.fault(FaultCause::Expected(Expected::Indexed)));
    }
    match clauses.keys() {
        Some(keys) => Ok(keys),
        None => Err(end.fault(FaultCause::Expected(Expected::RecordKey))),
    }
}

/// The clauses, up to the period.
#[tactic(auto, unfolding(crate::specs::FileControlEntry::entry_keys))]
fn entry_keys(parser: &mut Parser<'_>, alloc: Global) -> Result<EntryKeys, ParseRefusal>
    ensures { ReadsRule entry_keys parser.old result parser.new }
{
    let clauses = all_clauses(parser, alloc)?;
    entry_end(parser, clauses)
}

#[tactic(auto, unfolding(crate::specs::FileControlEntry::select_word, deck_parser::specs::Notation::the))]
fn select_word(parser: &mut Parser<'_>, earlier: &[Selected]) -> Result<(), ParseRefusal>
    ensures { ReadsRule (select_word earlier.now) parser.old result parser.new }
{
    let place = parser.place();
    parser.expect(b"SELECT")?;
    if earlier.len() < FILE_LIMIT {
        Ok(())
    } else {
        Err(place.fault(FaultCause::Limit(Limit::Files)))
    }
}

#[tactic(auto, unfolding(crate::specs::FileControlEntry::new_name))]
fn new_name(parser: &mut Parser<'_>, earlier: &[Selected]) -> Result<Name, ParseRefusal>
    ensures reads { ReadsAs (λ name. name.bytes) (new_name earlier.now) parser.old result parser.new }
    ensures stops { Stops (new_name earlier.now) parser.old result }
{
    let place = parser.place();
    let name = parser.name(NameOf::File)?;
    if is_selected_name(earlier, name.as_str().as_bytes()) {
        let line = line_of_name(earlier, name.as_str().as_bytes());
        Err(place.fault(FaultCause::Twice(Twice::Selected(line))))
    } else {
        Ok(name)
    }
}

/// The literal of ASSIGN.
#[tactic(auto, unfolding(crate::specs::FileControlEntry::new_file_name))]
fn new_file_name(
    parser: &mut Parser<'_>,
    alloc: Global,
    earlier: &[Selected],
) -> Result<FileName, ParseRefusal>
    ensures reads { ReadsAs (λ name. name.bytes) (new_file_name earlier.now) parser.old result parser.new }
    ensures stops { Stops (new_file_name earlier.now) parser.old result }
{
    let place = parser.place();
    let text = parser.literal(alloc)?;
    let not_allowed = place.fault(FaultCause::NotAllowed(NotAllowed::FileName));
    let name = file_name_of(text.as_slice()).ok_or(not_allowed)?;
    if is_assigned_name(earlier, name.as_str().as_bytes()) {
        let line = line_of_literal(earlier, name.as_str().as_bytes());
        Err(place.fault(FaultCause::Twice(Twice::Assigned(line))))
    } else {
        Ok(name)
    }
}

/// Takes an entry behind earlier ones of its deck: it has neither the name nor the file name of one of them.
#[tactic(auto, unfolding(crate::specs::FileControlEntry::select_behind, crate::specs::FileControlEntry::select_word, crate::specs::FileControlEntry::new_name, crate::specs::FileControlEntry::new_file_name))]
pub fn select(
    parser: &mut Parser<'_>,
    alloc: Global,
    earlier: &[Selected],
) -> Result<Selected, ParseRefusal>
    ensures { ReadsRule (select_behind earlier.now) parser.old result parser.new }
{
    let place = parser.word_place();
    select_word(parser, earlier)?;
    let optional = parser.eat(b"OPTIONAL");
    let name_line = parser.line();
    let name = new_name(parser, earlier)?;
    parser.expect(b"ASSIGN")?;
    parser.eat(b"TO");
    let literal_line = parser.line();
    let file_name = new_file_name(parser, alloc, earlier)?;
    let keys = entry_keys(parser, alloc)?;
    Ok(Selected {
        name_line,
        literal_line,
        entry: keys.entry(place, optional, name, file_name),
    })
}

/// Whether one of the entries has this name.
pub fn is_selected_name(earlier: &[Selected], name: &[u8]) -> bool
    ensures { result ≡ is_selected earlier.now name.now }
{
    earlier.iter().any(|selected| selected.name() == name)
}

/// The line of the first entry's name that is this one.
fn line_of_name(earlier: &[Selected], name: &[u8]) -> u64 {
    match earlier.iter().find(|selected| selected.name() == name) {
        Some(selected) => selected.name_line,
        None => 0,
    }
}

/// The line of the first literal that is this file name.
fn line_of_literal(earlier: &[Selected], file_name: &[u8]) -> u64 {
    match earlier
        .iter()
        .find(|selected| selected.file_name() == file_name)
    {
        Some(selected) => selected.literal_line,
        None => 0,
    }
}

/// Whether one of the entries has this file name.
fn is_assigned_name(earlier: &[Selected], file_name: &[u8]) -> bool
    ensures { result ≡ is_assigned earlier.now file_name.now }
{
    earlier
        .iter()
        .any(|selected| selected.file_name() == file_name)
}

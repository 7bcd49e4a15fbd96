//! A file description: FD, its clauses, and the items of the records.
ghost use Rattle.std.specs.Prelude.{◌≡◌, []};
ghost use Rattle.deck_parser.specs.Class.{begins};
ghost use Rattle.deck_parser.specs.Rule.{each_behind};
ghost use Rattle.deck_parser.specs.Reading.{ReadsAs, ReadsRule, Stops};
ghost use Rattle.deck_entries.specs.FileDescription.{is_described, described_name, description_behind};
ghost use Rattle.deck_entries.specs.Divisions.{more_description};

use crate::clauses::{DescriptionClauses, read_clauses};
use crate::entry::Selected;
use crate::item::{Items, read_items};
use crate::record_length::RecordLength;
use crate::select::is_selected_name;
use deck_parser::{FaultCause, NameOf, ParseRefusal, Parser, Twice, Unknown, WordPlace};
use io_state::Name;
use record_layout::Item;
use std::alloc::{AllocError, Global};
use std::marker::Model;

/// A file description, where its word FD stands, and the line of its name. Contracts see the line of
/// the place and what is described.
#[derive(Drop)]
pub struct Described {
    pub place: WordPlace,
    pub name_line: u64,
    pub name: Name,
    pub lengths: Option<RecordLength>,
    pub items: Items,
}

impl Model for Described {
    ghost use Rattle.deck_entries.specs.FileDescription.{FileDescription};

    ghost Value = { FileDescription };

    ghost view = { λ d. record {
      line = d.place.line;
      name = d.name.bytes;
      lengths = d.lengths;
      items = d.items;
    } };
}

impl Described {
    ghost use Rattle.std.specs.Prelude.{◌≡◌, map};
    ghost use Rattle.record_layout.specs.Layout.{entry_of_item};

    /// The name of the file.
    pub fn name(&self) -> &[u8]
        ensures { result.now ≡ self.now.name }
    {
        self.name.as_str().as_bytes()
    }

    /// The items of the record.
    pub fn items(&self) -> &[Item]
        ensures { map entry_of_item result.now ≡ self.now.items }
    {
        self.items.as_slice()
    }
}

/// File descriptions in their order, which contracts see as a list.
#[derive(Drop)]
pub struct Descriptions {
    descriptions: Vec<Described>,
}

impl Model for Descriptions {
    ghost use Rattle.std.specs.Prelude.{List};
    ghost use Rattle.deck_entries.specs.FileDescription.{FileDescription};

    ghost Value = { List FileDescription };

    ghost view = { λ d. d.descriptions.items };
}

impl Descriptions {
    ghost use Rattle.std.specs.Prelude.{◌≡◌, [], ◌∷◌, ◌++◌, OnOk};

    fn new(alloc: Global) -> Self
        ensures { result ≡ [] }
    {
        Descriptions {
            descriptions: Vec::new(alloc),
        }
    }

    fn push(&mut self, description: Described) -> Result<(), AllocError>
        ensures { OnOk result (self.new ≡ self.old ++ description ∷ []) }
    {
        self.descriptions.push(description)?;
        Ok(())
    }

    /// The descriptions themselves.
    pub fn as_slice(&self) -> &[Described]
        ensures { result.now ≡ self.now }
    {
        self.descriptions.as_slice()
    }
}

/// Whether one of the descriptions has this name.
fn is_described_name(earlier: &[Described], name: &[u8]) -> bool
    ensures { result ≡ is_described earlier.now name.now }
{
    earlier.iter().any(|described| described.name() == name)
}

/// The line of the first description's name that is this one.
fn line_of_name(earlier: &[Described], name: &[u8]) -> u64 {
    match earlier.iter().find(|described| described.name() == name) {
        Some(described) => described.name_line,
        None => 0,
    }
}

#[tactic(auto, unfolding(crate::specs::FileDescription::described_name))]
fn described_name(
    parser: &mut Parser<'_>,
    entries: &[Selected],
    earlier: &[Described],
) -> Result<Name, ParseRefusal>
    ensures reads { ReadsAs (λ name. name.bytes) (described_name entries.now earlier.now) parser.old result
        parser.new }
    ensures stops { Stops (described_name entries.now earlier.now) parser.old result }
{
    let place = parser.place();
    let name = parser.name(NameOf::File)?;
    if !is_selected_name(entries, name.as_str().as_bytes()) {
        return Err(place.fault(FaultCause::Unknown(Unknown::Selected)));
    }
    if is_described_name(earlier, name.as_str().as_bytes()) {
        let line = line_of_name(earlier, name.as_str().as_bytes());
        return Err(place.fault(FaultCause::Twice(Twice::Described(line))));
    }
    Ok(name)
}

#[tactic(auto, unfolding(crate::specs::FileDescription::description_behind, crate::specs::FileDescription::described_name))]
fn description(
    parser: &mut Parser<'_>,
    alloc: Global,
    entries: &[Selected],
    earlier: &[Described],
) -> Result<Described, ParseRefusal>
    ensures { ReadsRule (description_behind entries.now earlier.now) parser.old result parser.new }
{
    let place = parser.word_place();
    parser.expect(b"FD")?;
    let name_line = parser.line();
    let name = described_name(parser, entries, earlier)?;
    let clauses = read_clauses(parser)?;
    let DescriptionClauses {
        label: _,
        block: _,
        lengths,
    } = clauses;
    parser.period()?;
    let items = read_items(parser, alloc)?;
    Ok(Described {
        place,
        name_line,
        name,
        lengths,
        items,
    })
}

/// The descriptions with the next one.
#[tactic(auto, unfolding(crate::specs::Divisions::more_description))]
fn one_more(
    parser: &mut Parser<'_>,
    alloc: Global,
    entries: &[Selected],
    earlier: Descriptions,
) -> Result<Descriptions, ParseRefusal>
    ensures { ReadsRule (more_description entries.now earlier) parser.old result parser.new }
{
    let description = description(parser, alloc, entries, earlier.as_slice())?;
    let mut descriptions = earlier;
    descriptions.push(description)?;
    Ok(descriptions)
}

/// Whether a description comes next.
#[tactic(auto, unfolding(crate::specs::Divisions::more_description, crate::specs::FileDescription::description_behind, deck_parser::specs::Notation::the))]
fn sees_description(parser: &Parser<'_>, entries: &[Selected], earlier: &Descriptions) -> bool
    ensures { result ≡ begins (more_description entries.now earlier.now).starts parser.now }
{
    parser.sees(b"FD")
}

/// One description or more, each of an entry that has none yet.
pub fn read_descriptions(
    parser: &mut Parser<'_>,
    alloc: Global,
    entries: &[Selected],
) -> Result<Descriptions, ParseRefusal>
    ensures { ReadsRule (each_behind (more_description entries.now) []) parser.old result parser.new }
{
    let mut read = one_more(parser, alloc, entries, Descriptions::new(alloc))?;
    'more: while sees_description(parser, entries, &read) {
        read = one_more(parser, alloc, entries, read)?;
    }
    Ok(read)
}

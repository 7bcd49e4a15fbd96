//! The divisions before the procedure.
ghost use Rattle.std.specs.Prelude.{◌≡◌, [], IfErr};
ghost use Rattle.deck_parser.specs.Class.{begins};
ghost use Rattle.deck_parser.specs.Rule.{each_behind};
ghost use Rattle.deck_parser.specs.Notation.{eaten};
ghost use Rattle.deck_parser.specs.Reading.{Reads, ReadsAs, ReadsRule, Stops, TellsStop};
ghost use Rattle.deck_entries.specs.Divisions.{identification_division, more_entry};
ghost use Rattle.deck_entries.specs.Divisions.{file_control_paragraph, reads_divisions, divisions_stop};

use crate::description_entry::{Descriptions, read_descriptions};
use crate::entry::Selected;
use crate::select::select;
use crate::storage::{StorageItems, storage_section};
use crate::words::heading;
use deck_parser::{NameOf, ParseRefusal, Parser};
use std::alloc::{AllocError, Global};
use std::marker::Model;

/// What stands before the procedure.
#[derive(Drop)]
pub struct Divisions {
    pub entries: Entries,
    pub descriptions: Descriptions,
    pub storage: StorageItems,
}

/// File control entries in their order, which contracts see as a list.
#[derive(Drop)]
pub struct Entries {
    entries: Vec<Selected>,
}

impl Model for Entries {
    ghost use Rattle.std.specs.Prelude.{List};
    ghost use Rattle.deck_entries.specs.FileControlEntry.{FileControlEntry};

    ghost Value = { List FileControlEntry };

    ghost view = { λ e. e.entries.items };
}

impl Entries {
    ghost use Rattle.std.specs.Prelude.{◌≡◌, [], ◌∷◌, ◌++◌, OnOk};

    fn new(alloc: Global) -> Self
        ensures { result ≡ [] }
    {
        Entries {
            entries: Vec::new(alloc),
        }
    }

    fn push(&mut self, selected: Selected) -> Result<(), AllocError>
        ensures { OnOk result (self.new ≡ self.old ++ selected ∷ []) }
    {
        self.entries.push(selected)?;
        Ok(())
    }

    /// The entries themselves.
    pub fn as_slice(&self) -> &[Selected]
        ensures { result.now ≡ self.now }
    {
        self.entries.as_slice()
    }
}

/// The identification division, if it comes next: whether it did.
#[tactic(auto, unfolding(deck_parser::specs::Notation::the, deck_parser::specs::Notation::name))]
fn may_identification(parser: &mut Parser<'_>) -> Result<bool, ParseRefusal>
    ensures reads { ReadsAs eaten identification_division parser.old result parser.new }
    ensures stops { Stops identification_division parser.old result }
{
    if parser.sees(b"IDENTIFICATION") {
        heading(parser, b"IDENTIFICATION", b"DIVISION")?;
        parser.expect(b"PROGRAM-ID")?;
        parser.period()?;
        parser.name(NameOf::Program)?;
        parser.period()?;
        return Ok(true);
    }
    Ok(false)
}

/// The entries with the next one.
#[tactic(auto, unfolding(crate::specs::Divisions::more_entry))]
fn one_more(
    parser: &mut Parser<'_>,
    alloc: Global,
    earlier: Entries,
) -> Result<Entries, ParseRefusal>
    ensures { ReadsRule (more_entry earlier) parser.old result parser.new }
{
    let selected = select(parser, alloc, earlier.as_slice())?;
    let mut entries = earlier;
    entries.push(selected)?;
    Ok(entries)
}

/// Whether an entry comes next.
#[tactic(auto, unfolding(crate::specs::Divisions::more_entry, crate::specs::FileControlEntry::select_behind, crate::specs::FileControlEntry::select_word, deck_parser::specs::Notation::the))]
fn sees_entry(parser: &Parser<'_>, earlier: &Entries) -> bool
    ensures { result ≡ begins (more_entry earlier.now).starts parser.now }
{
    parser.sees(b"SELECT")
}

/// One entry or more.
fn read_entries(parser: &mut Parser<'_>, alloc: Global) -> Result<Entries, ParseRefusal>
    ensures { ReadsRule (each_behind more_entry []) parser.old result parser.new }
{
    let mut read = one_more(parser, alloc, Entries::new(alloc))?;
    'more: while sees_entry(parser, &read) {
        read = one_more(parser, alloc, read)?;
    }
    Ok(read)
}

/// The divisions up to the file control entries.
#[tactic(auto, unfolding(crate::specs::Divisions::file_control_paragraph))]
pub fn read_file_control(parser: &mut Parser<'_>, alloc: Global) -> Result<Entries, ParseRefusal>
    ensures { ReadsRule file_control_paragraph parser.old result parser.new }
{
    may_identification(parser)?;
    heading(parser, b"ENVIRONMENT", b"DIVISION")?;
    heading(parser, b"INPUT-OUTPUT", b"SECTION")?;
    parser.expect(b"FILE-CONTROL")?;
    parser.period()?;
    let read = read_entries(parser, alloc)?;
    Ok(read)
}

/// The divisions before the procedure.
#[tactic(auto, unfolding(crate::specs::Divisions::data_division))]
pub fn read_divisions(parser: &mut Parser<'_>, alloc: Global) -> Result<Divisions, ParseRefusal>
    ensures reads { Reads (reads_divisions parser.old) result parser.new }
    ensures stops { IfErr result (TellsStop (divisions_stop parser.old)) }
{
    let entries = read_file_control(parser, alloc)?;
    heading(parser, b"DATA", b"DIVISION")?;
    heading(parser, b"FILE", b"SECTION")?;
    let descriptions = read_descriptions(parser, alloc, entries.as_slice())?;
    let storage = storage_section(parser, alloc)?;
    Ok(Divisions {
        entries,
        descriptions,
        storage,
    })
}

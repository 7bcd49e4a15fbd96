//! The records that are left in the file of a path.
ghost use Rattle.std.specs.Prelude.{◌≡◌};
ghost use Rattle.folder_shelf.specs.Reading.{ByReads};
ghost use Rattle.salvaged_records.specs.Salvaged.{writings, with_gate_closed};
ghost use Rattle.command_words.specs.Asks.{form_text};
ghost use Rattle.command_support.specs.DeckFile.{ComesOfDeck};
ghost use Rattle.command_support.specs.Front.{ReadBy};
ghost use Rattle.file_commands.specs.Salvaged.{IsSchemaIn, GivesSchemaAsked, GivesSalvageForm};
ghost use Rattle.file_commands.specs.Salvaged.{SalvagesClosed, SalvagesAt};
ghost use Rattle.command_support.specs.Status.{status_of};

use crate::listing::is_other;
use command_support::{
    CommandFault, FormFault, ListForm, Outcome, deck_at, fault_of as not_read, file_in, form_of,
};
use command_words::FormWords;
use folder_shelf::System;
use record_layout::Schema;
use record_listing::ListFault;
use record_text::Form;
use salvaged_records::{SalvageForm, close_gate, salvage_records};
use std::alloc::Global;
use std::io::{Read, Write};
use streams::Silent;

/// What is asked of a salvage: the path of a file, the words for the form, and whether the places of the
/// records are wanted.
#[derive(Clone, Copy)]
pub struct Salvaging<'a> {
    pub file: &'a str,
    pub form: FormWords<'a>,
    pub places: bool,
}

/// The most bytes of a file: those of as many pages as can be numbered.
const MOST_BYTES: usize = 17_592_186_044_416;

/// Why no records are told, or not all.
fn fault_of(fault: ListFault) -> CommandFault
    ensures { status_of result ≡ 4 }
{
    match fault {
        ListFault::Input => CommandFault::Input,
        ListFault::Output => CommandFault::Output,
        ListFault::Memory => CommandFault::Memory,
    }
}

/// The schema of the file of a name in the deck in the file of a path.
fn schema_in<S: System, I: Read>(
    system: &mut S,
    alloc: Global,
    deck: &str,
    name: &str,
    input: &mut I,
) -> Result<Schema, CommandFault>
    ensures { ByReads (λ calls. ComesOfDeck (IsSchemaIn calls (I.remaining input.old) deck.now name.now) result)
        (S.state system.old) (S.state system.new) }
{
    let deck = match deck_at(system, alloc, deck, input) {
        Ok(deck) => deck,
        Err(fault) => return Err(fault),
    };
    match file_in(&deck, name) {
        Ok(described) => Ok(described.schema.copy()),
        Err(fault) => Err(fault),
    }
}

/// The schema of the file of a name in a deck, where both are given.
fn schema_asked<S: System, I: Read>(
    system: &mut S,
    alloc: Global,
    deck: Option<&str>,
    name: Option<&str>,
    input: &mut I,
) -> Result<Option<Schema>, CommandFault>
    ensures { ByReads (GivesSchemaAsked (I.remaining input.old) deck.entry name.entry result)
        (S.state system.old) (S.state system.new) }
{
    match (deck, name) {
        (None, None) => Ok(None),
        (Some(deck), Some(name)) => match schema_in(system, alloc, deck, name, input) {
            Ok(schema) => Ok(Some(schema)),
            Err(fault) => Err(fault),
        },
        (Some(_), None) | (None, Some(_)) => Err(CommandFault::Form(FormFault::HalfDeck)),
    }
}

/// The form of a salvage that words ask for, and the schema of the file of a deck, if one is given. As
/// text the deck tells the lengths alone.
fn salvage_form<S: System, I: Read>(
    system: &mut S,
    alloc: Global,
    asked: FormWords<'_>,
    input: &mut I,
) -> Result<ListForm, CommandFault>
    ensures { ByReads (GivesSalvageForm (I.remaining input.old) (form_text asked.entry) result)
        (S.state system.old) (S.state system.new) }
{
    if asked.kind != "text" {
        return form_of(system, alloc, asked, input);
    }
    match schema_asked(system, alloc, asked.deck, asked.name, input) {
        Ok(schema) => Ok(ListForm {
            form: Form::Text,
            schema,
        }),
        Err(fault) => Err(fault),
    }
}

/// The bytes of a file, with its gate closed.
fn closed(bytes: Vec<u8>) -> Vec<u8>
    ensures { result.items ≡ with_gate_closed bytes.items }
{
    let mut bytes = bytes;
    close_gate(bytes.as_mut_slice());
    bytes
}

/// Writes the records that are left in the bytes of a file whose gate is closed. Where a deck has a
/// schema, and the first page is that of a file of another one, a line of each difference is written in
/// place of the records.
fn salvage_bytes<W: Write, E: Write>(
    alloc: Global,
    bytes: Vec<u8>,
    asked: &ListForm,
    places: bool,
    told: &mut E,
    out: &mut W,
) -> Result<Outcome, CommandFault>
    ensures { SalvagesClosed asked.now places bytes.items
        (writings W.contents E.contents (out.old, told.old) (out.new, told.new)) result }
{
    let form = SalvageForm {
        form: &asked.form,
        places,
    };
    match is_other(alloc, bytes.as_slice(), &asked.schema, out) {
        Ok(true) => Ok(Outcome::OtherSchema),
        Ok(false) => match salvage_records(alloc, bytes, &asked.schema, &form, told, out) {
            Ok(end) => Ok(Outcome::Salvaged(end)),
            Err(fault) => Err(fault_of(fault)),
        },
        Err(fault) => Err(fault),
    }
}

/// Writes the records that are left in the file of a path, all bytes of which are read, in a form, with
/// their places or without: by the lengths and keys of the file of a name in a deck, where both are given
/// and the first page is lost. Slots whose prime value others have are told. `Form`: there is no such
/// form, or half of the deck is given. `Deck`, `NoSuchFile`: the deck is refused, or does not have the
/// file. The file was not read then, and nothing was written.
pub fn salvage_path<S: System, I: Read, W: Write, E: Write>(
    system: &mut S,
    alloc: Global,
    asked: Salvaging<'_>,
    input: &mut I,
    told: &mut E,
    out: &mut W,
) -> Result<Outcome, CommandFault>
    ensures { ReadBy S.state system.old system.new (SalvagesAt (I.remaining input.old) asked.entry
        E.contents told.old told.new W.contents out.old out.new result) }
{
    let form = match salvage_form(system, alloc, asked.form, input) {
        Ok(form) => form,
        Err(fault) => return Err(fault),
    };
    match system.take_shared(asked.file, MOST_BYTES, &mut Silent) {
        Ok(bytes) => salvage_bytes(alloc, closed(bytes), &form, asked.places, told, out),
        Err(fault) => Err(not_read(fault)),
    }
}

//! The form in which records are listed, as the words ask for it.
ghost use Rattle.std.specs.Prelude.{◌≡◌, ℕ, List, [], Option, codes};
ghost use Rattle.command_support.specs.Cuts.{AreNoCuts};
ghost use Rattle.command_support.specs.DeckFile.{ComesOfDeck};
ghost use Rattle.folder_shelf.specs.Reading.{ByReads};
ghost use Rattle.command_support.specs.Forms.{AreBetweenCuts, IsWholeRecord, AreItemsAt, AreColumnsBy};
ghost use Rattle.command_support.specs.Forms.{IsFormToldBy, ComesOfCuts, ComesOfForm, WantsOnlyMemory};

use crate::cuts::read_cuts;
use crate::deck::{deck_at, file_in};
use crate::fault::CommandFault;
use crate::form_fault::FormFault;
use command_words::FormWords;
use folder_shelf::System;
use record_layout::Schema;
use record_text::{Column, CutFault, Form, cut_columns, item_columns, whole_column};
use std::alloc::Global;
use std::io::Read;

/// The columns of a record, and the schema of the file of a deck that they are those of, if there
/// is one.
#[derive(Drop)]
pub struct Columns {
    columns: Vec<Column>,
    schema: Option<Schema>,
}

/// A form in which records are listed, and the schema of the file of a deck that its columns are
/// those of, if there is one.
#[derive(Drop)]
pub struct ListForm {
    pub form: Form,
    pub schema: Option<Schema>,
}

/// The columns between the cuts of a text.
fn columns_between(alloc: Global, text: &str) -> Result<Columns, CommandFault>
    ensures { ComesOfCuts (AreBetweenCuts text.now) (AreNoCuts text.now) result }
{
    let cuts = match read_cuts(alloc, text) {
        Ok(cuts) => cuts,
        Err(fault) => return Err(fault),
    };
    match cut_columns(alloc, cuts.as_slice()) {
        Ok(columns) => Ok(Columns {
            columns,
            schema: None,
        }),
        Err(CutFault::Order) => Err(CommandFault::Form(FormFault::Cuts)),
        Err(CutFault::Memory) => Err(CommandFault::Memory),
    }
}

/// The columns of the record of a file of the deck in the file of a path.
fn columns_in<S: System, I: Read>(
    system: &mut S,
    alloc: Global,
    deck: &str,
    name: &str,
    input: &mut I,
) -> Result<Columns, CommandFault>
    ensures { ByReads (λ calls. ComesOfDeck (AreItemsAt calls (I.remaining input.old) deck.now name.now) result)
        (S.state system.old) (S.state system.new) }
{
    let deck = match deck_at(system, alloc, deck, input) {
        Ok(deck) => deck,
        Err(fault) => return Err(fault),
    };
    let file = match file_in(&deck, name) {
        Ok(file) => file,
        Err(fault) => return Err(fault),
    };
    match item_columns(alloc, &file.layout) {
        Ok(columns) => Ok(Columns {
            columns,
            schema: Some(file.schema.copy()),
        }),
        Err(_) => Err(CommandFault::Memory),
    }
}

/// The record as one column.
fn whole(alloc: Global) -> Result<Columns, CommandFault>
    ensures { WantsOnlyMemory IsWholeRecord result }
{
    match whole_column(alloc) {
        Ok(columns) => Ok(Columns {
            columns,
            schema: None,
        }),
        Err(_) => Err(CommandFault::Memory),
    }
}

#[tactic(auto, using(folder_shelf::proofs::ReadingLemmas::by_none))]
/// The columns that words ask for.
fn columns_of<S: System, I: Read>(
    system: &mut S,
    alloc: Global,
    asked: FormWords<'_>,
    input: &mut I,
) -> Result<Columns, CommandFault>
    ensures { ByReads (λ calls. ComesOfForm (AreColumnsBy calls (I.remaining input.old)) asked.entry result)
        (S.state system.old) (S.state system.new) }
{
    match (asked.cut, asked.deck, asked.name) {
        (None, None, None) => whole(alloc),
        (Some(text), None, None) => columns_between(alloc, text),
        (None, Some(deck), Some(name)) => columns_in(system, alloc, deck, name, input),
        (Some(_), Some(_), Some(_)) => Err(CommandFault::Form(FormFault::CutAndDeck)),
        (_, Some(_), None) | (_, None, Some(_)) => Err(CommandFault::Form(FormFault::HalfDeck)),
    }
}

/// Text, where no columns are asked for.
fn text_form(asked: FormWords<'_>) -> Result<ListForm, CommandFault>
    requires { asked.kind.now ≡ codes "text" }
    ensures { (input : Option (List ℕ)) → ComesOfForm (IsFormToldBy [] input) asked.entry result }
{
    match (asked.cut, asked.deck, asked.name) {
        (None, None, None) => Ok(ListForm {
            form: Form::Text,
            schema: None,
        }),
        _ => Err(CommandFault::Form(FormFault::TextColumns)),
    }
}

#[tactic(auto, using(folder_shelf::proofs::ReadingLemmas::by_none))]
/// The form that words ask for, with its columns. `Form`: they ask for none. `Deck`, `NoSuchFile`:
/// the deck is refused, or does not have the file.
pub fn form_of<S: System, I: Read>(
    system: &mut S,
    alloc: Global,
    asked: FormWords<'_>,
    input: &mut I,
) -> Result<ListForm, CommandFault>
    ensures { ByReads (λ calls. ComesOfForm (IsFormToldBy calls (I.remaining input.old)) asked.entry result)
        (S.state system.old) (S.state system.new) }
{
    if asked.kind == "text" {
        return text_form(asked);
    }
    if asked.kind == "csv" {
        return match columns_of(system, alloc, asked, input) {
            Ok(told) => Ok(ListForm {
                form: Form::Csv(told.columns),
                schema: told.schema,
            }),
            Err(fault) => Err(fault),
        };
    }
    if asked.kind == "json" {
        return match columns_of(system, alloc, asked, input) {
            Ok(told) => Ok(ListForm {
                form: Form::Json(told.columns),
                schema: told.schema,
            }),
            Err(fault) => Err(fault),
        };
    }
    Err(CommandFault::Form(FormFault::Kind))
}

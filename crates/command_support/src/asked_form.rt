//! The form of a list, its key, and its conditions.
ghost use Rattle.std.specs.Prelude.{◌≡◌, ◌≢◌, []};
ghost use Rattle.folder_shelf.specs.Reading.{ByReads};
ghost use Rattle.command_words.specs.Asks.{form_text};
ghost use Rattle.command_support.specs.AskedForm.{IsFormWord, IsWrittenAs, GivesFormOfFile, list_words};
ghost use Rattle.command_support.specs.AskedForm.{ComesOfAskedForm, ComesOfFormAlone, TellsFormFault, TellsDeckWanted};
ghost use Rattle.command_support.specs.Conditions.{texts_of};
ghost use Rattle.command_support.specs.Forms.{WantsOnlyMemory};
ghost use Rattle.command_support.specs.Front.{ReadBy};

use crate::condition_fault::ConditionFault;
use crate::conditions::conditions_of;
use crate::deck::{deck_at, file_in};
use crate::fault::CommandFault;
use crate::form_fault::FormFault;
use crate::forms::{ListForm, form_of};
use crate::key::{key_in, key_without_deck};
use command_words::FormWords;
use folder_shelf::System;
use record_layout::Layout;
use record_listing::Condition;
use record_text::{Form, item_columns};
use std::alloc::Global;
use std::io::Read;

/// The form of a list, the number of the key in whose order it is, and the conditions that its records
/// have to meet.
#[derive(Drop)]
pub struct AskedForm {
    pub told: ListForm,
    pub key: u8,
    pub conditions: Vec<Condition>,
}

/// What is wrong with the words of a form whose deck is given for a key or conditions: they ask for no
/// form, or for cuts.
fn fault_beside(asked: FormWords<'_>) -> Option<FormFault>
    ensures { TellsFormFault (form_text asked.entry) result }
{
    let is_text = asked.kind == "text";
    if !is_text && asked.kind != "csv" && asked.kind != "json" {
        return Some(FormFault::Kind);
    }
    match asked.cut {
        None => None,
        Some(_) if is_text => Some(FormFault::TextColumns),
        Some(_) => Some(FormFault::CutAndDeck),
    }
}

/// The form of a word, with the elementary items of a record for its columns.
fn form_by(alloc: Global, kind: &str, layout: &Layout) -> Result<Form, CommandFault>
    requires { IsFormWord kind.now }
    ensures { WantsOnlyMemory (IsWrittenAs kind.now layout.now) result }
{
    if kind == "text" {
        return Ok(Form::Text);
    }
    match item_columns(alloc, layout) {
        Ok(columns) if kind == "csv" => Ok(Form::Csv(columns)),
        Ok(columns) => Ok(Form::Json(columns)),
        Err(_) => Err(CommandFault::Memory),
    }
}

/// The form, the key and the conditions that words ask for, by the record and the keys of a file of the
/// deck in the file of a path.
fn form_where<S: System, I: Read>(
    system: &mut S,
    alloc: Global,
    asked: FormWords<'_>,
    deck: &str,
    name: &str,
    key: &str,
    words: &[&str],
    input: &mut I,
) -> Result<AskedForm, CommandFault>
    requires { IsFormWord asked.kind.now }
    ensures { ReadBy S.state system.old system.new (GivesFormOfFile (I.remaining input.old) deck.now name.now
        (list_words asked.entry key.now words.now) result) }
{
    let deck = match deck_at(system, alloc, deck, input) {
        Ok(deck) => deck,
        Err(fault) => return Err(fault),
    };
    let file = match file_in(&deck, name) {
        Ok(file) => file,
        Err(fault) => return Err(fault),
    };
    let key = match key_in(alloc, file, key) {
        Ok(key) => key,
        Err(fault) => return Err(fault),
    };
    let conditions = match conditions_of(alloc, file.layout.items(), words) {
        Ok(conditions) => conditions,
        Err(fault) => return Err(fault),
    };
    match form_by(alloc, asked.kind, &file.layout) {
        Ok(form) => Ok(AskedForm {
            told: ListForm {
                form,
                schema: Some(file.schema.copy()),
            },
            key,
            conditions,
        }),
        Err(fault) => Err(fault),
    }
}

/// The form of a list that words ask for, in the order of the key of a number, without conditions.
fn form_alone<S: System, I: Read>(
    system: &mut S,
    alloc: Global,
    asked: FormWords<'_>,
    key: u8,
    input: &mut I,
) -> Result<AskedForm, CommandFault>
    ensures { ByReads (ComesOfFormAlone (I.remaining input.old) (form_text asked.entry) key result)
        (S.state system.old) (S.state system.new) }
{
    match form_of(system, alloc, asked, input) {
        Ok(told) => Ok(AskedForm {
            told,
            key,
            conditions: Vec::new(alloc),
        }),
        Err(fault) => Err(fault),
    }
}

/// What is wrong where there is no deck for a key that is no number, or for conditions.
fn fault_without_deck(words: &[&str]) -> CommandFault
    ensures { TellsDeckWanted (texts_of words.now) result }
{
    if words.is_empty() {
        return CommandFault::LoneKeyName;
    }
    CommandFault::Condition(ConditionFault::NoDeck)
}

#[tactic(auto, using(folder_shelf::proofs::ReadingLemmas::by_none))]
/// The form of a list that words ask for, its key, which may have its name in a file of a deck, and its
/// conditions, which are those of such a file. `Form`: they ask for none. `LoneKeyName`: the key has a name,
/// and there is no deck. `Condition`: there is no deck, or a word is no condition on the record of the file.
/// `Deck`, `NoSuchFile`, `NoSuchKey`: the deck is refused, does not have the file, or gives it no key of
/// that name.
pub fn form_and_conditions<S: System, I: Read>(
    system: &mut S,
    alloc: Global,
    asked: FormWords<'_>,
    key: &str,
    words: &[&str],
    input: &mut I,
) -> Result<AskedForm, CommandFault>
    ensures { ByReads (ComesOfAskedForm (I.remaining input.old) (list_words asked.entry key.now words.now)
        result) (S.state system.old) (S.state system.new) }
{
    if let Some(number) = key_without_deck(key, words) {
        return form_alone(system, alloc, asked, number, input);
    }
    match (asked.deck, asked.name) {
        (Some(deck), Some(name)) => match fault_beside(asked) {
            Some(fault) => Err(CommandFault::Form(fault)),
            None => form_where(system, alloc, asked, deck, name, key, words, input),
        },
        (None, None) => Err(fault_without_deck(words)),
        (Some(_), None) | (None, Some(_)) => Err(CommandFault::Form(FormFault::HalfDeck)),
    }
}

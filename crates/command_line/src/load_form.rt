//! The form of the text of a load.
ghost use Rattle.std.specs.Prelude.{◌≡◌, codes, IfOk, IfErr, IfSome, None};
ghost use Rattle.command_line.specs.LoadForm.{form_word, IsNoFormWord, IsFormOf, AreColumnsOf};

use command_support::CommandFault;
use file_control::FileDesc;
use record_text::{Column, Form, item_columns};
use std::alloc::Global;

/// The forms that a text can have.
#[derive(Clone, Copy, Debug, PartialEq, Eq)]
pub enum FormKind {
    Text,
    Csv,
    Json,
}

/// The form that a word asks for.
pub fn kind_of(word: &str) -> Option<FormKind>
    ensures kind { IfSome result (λ kind. word.now ≡ form_word kind) }
    ensures none { result ≡ None → IsNoFormWord word.now }
{
    if word == "text" {
        return Some(FormKind::Text);
    }
    if word == "csv" {
        return Some(FormKind::Csv);
    }
    if word == "json" {
        return Some(FormKind::Json);
    }
    None
}

/// The columns of a file: the elementary items of its record.
fn columns_of(alloc: Global, file: &FileDesc) -> Result<Vec<Column>, CommandFault>
    ensures columns { IfOk result (λ columns. AreColumnsOf file.now columns.items) }
    ensures fault { IfErr result (λ fault. fault ≡ CommandFault.Memory) }
{
    match item_columns(alloc, &file.layout) {
        Ok(columns) => Ok(columns),
        Err(_) => Err(CommandFault::Memory),
    }
}

/// The form, with the columns of a file.
pub fn form_of(alloc: Global, kind: FormKind, file: &FileDesc) -> Result<Form, CommandFault>
    ensures form { IfOk result (IsFormOf (form_word kind) file.now) }
    ensures fault { IfErr result (λ fault. fault ≡ CommandFault.Memory) }
{
    match kind {
        FormKind::Text => Ok(Form::Text),
        FormKind::Csv => match columns_of(alloc, file) {
            Ok(columns) => Ok(Form::Csv(columns)),
            Err(fault) => Err(fault),
        },
        FormKind::Json => match columns_of(alloc, file) {
            Ok(columns) => Ok(Form::Json(columns)),
            Err(fault) => Err(fault),
        },
    }
}

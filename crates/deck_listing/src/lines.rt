//! The lines of the list of a deck.
ghost use Rattle.std.specs.Prelude.{◌≡◌, ◌++◌, option_map, string_bytes, OnOk};
ghost use Rattle.record_layout.specs.Layout.{item_of};
ghost use Rattle.deck_listing.specs.Lines.{name_or_filler, digits_word, item_line, key_kind, key_line};
ghost use Rattle.deck_listing.specs.Lines.{access_word, optional_word, lengths_text, heading_with};
ghost use Rattle.deck_listing.specs.Lines.{verb_line, paragraph_note, paragraph_line};

use crate::verbs::NumberedVerb;
use deck_reader::verb_text;
use io_state::{Access, Name};
use record_layout::{KeyKind, KeyPart, Placed};
use std::alloc::AllocError;

/// The name of an item as it is listed.
pub fn item_name(name: &Option<Name>) -> &str
    ensures { result.now ≡ name_or_filler (option_map (λ name. name.bytes) name.now) }
{
    match name {
        Some(name) => name.as_str(),
        None => "FILLER",
    }
}

fn digits_word(numeric: bool) -> &'static str
    ensures { result.now ≡ digits_word numeric }
{
    if numeric { " digits" } else { "" }
}

/// Adds the line of an item.
pub fn add_item(text: &mut String, item: &Placed) -> Result<(), AllocError>
    ensures { OnOk result (string_bytes text.new ≡ string_bytes text.old ++ item_line (item_of item.now)) }
{
    let name = item_name(&item.name);
    let offset = item.field.offset;
    let length = item.field.length;
    let digits = digits_word(item.field.numeric);
    writeln!(
        text,
        "  item {name} offset {offset} length {length}{digits}"
    )
}

fn key_kind(kind: KeyKind) -> &'static str
    ensures { result.now ≡ key_kind kind }
{
    match kind {
        KeyKind::Prime => "prime",
        KeyKind::Unique => "unique",
        KeyKind::Duplicates => "duplicates",
    }
}

/// Adds the line of a key, whose item has this name.
pub fn add_key(text: &mut String, k: usize, name: &str, key: &KeyPart) -> Result<(), AllocError>
    ensures { OnOk result (string_bytes text.new ≡ string_bytes text.old ++ key_line k name.now key.now) }
{
    let offset = key.offset;
    let length = key.length;
    let kind = key_kind(key.kind);
    writeln!(
        text,
        "  key {k} {name} offset {offset} length {length} {kind}"
    )
}

fn access_word(access: Access) -> &'static str
    ensures { result.now ≡ access_word access }
{
    match access {
        Access::Sequential => "sequential",
        Access::Random => "random",
        Access::Dynamic => "dynamic",
    }
}

fn optional_word(optional: bool) -> &'static str
    ensures { result.now ≡ optional_word optional }
{
    if optional { " optional" } else { "" }
}

/// Adds the lengths that the records of a file may have.
fn add_lengths(text: &mut String, least: u16, greatest: u16) -> Result<(), AllocError>
    ensures { OnOk result (string_bytes text.new ≡ string_bytes text.old ++ lengths_text least greatest) }
{
    if least == greatest {
        write!(text, "{greatest}")
    } else {
        write!(text, "{least} to {greatest}")
    }
}

/// Adds the line of a file.
pub fn add_heading(
    text: &mut String,
    name: &str,
    file: &str,
    lengths: (u16, u16),
    access: Access,
    optional: bool,
) -> Result<(), AllocError>
    ensures { OnOk result (string_bytes text.new ≡ string_bytes text.old
        ++ heading_with name.now file.now lengths access optional) }
{
    write!(text, "file {name} {file} record ")?;
    add_lengths(text, lengths.0, lengths.1)?;
    let access = access_word(access);
    let optional = optional_word(optional);
    writeln!(text, " access {access}{optional}")
}

/// Adds the line of a verb that stands in this line of the deck.
pub fn add_verb(text: &mut String, line: u64, verb: &NumberedVerb) -> Result<(), AllocError>
    ensures { OnOk result (string_bytes text.new ≡ string_bytes text.old ++ verb_line line verb.now) }
{
    let number = verb.number;
    let does = verb_text(&verb.statement);
    let file = verb.file.as_str();
    writeln!(text, "verb {number} line {line} {does} {file}")
}

/// What is said of a paragraph that has the name of a statement of other COBOLs.
fn paragraph_note(name: &str) -> &'static str
    ensures { result.now ≡ paragraph_note name.now }
{
    match name {
        "GOBACK" | "EXIT" | "COMMIT" | "ROLLBACK" => ": no statement, it does nothing",
        _ => "",
    }
}

/// Adds the line of a paragraph.
pub fn add_paragraph(text: &mut String, line: u64, name: &str) -> Result<(), AllocError>
    ensures { OnOk result (string_bytes text.new ≡ string_bytes text.old ++ paragraph_line line name.now) }
{
    let note = paragraph_note(name);
    writeln!(text, "paragraph {name} line {line}{note}")
}

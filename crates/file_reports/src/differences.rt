//! The differences of two schemas.
ghost use Rattle.std.specs.Prelude.{◌≡◌, ◌++◌, ◌+◌, ◌≤◌, [], length, decimal, codes, OnOk, IfOk};
ghost use Rattle.record_layout.specs.Schema.{same_schema};
ghost use Rattle.file_reports.specs.Differences.{record_difference, number_difference};
ghost use Rattle.file_reports.specs.Differences.{kind_difference, key_difference, key_text, key_of_file};
ghost use Rattle.file_reports.specs.Differences.{key_of_deck, key_differences, differences, is_none};

use crate::schema_text::{add, add_lengths, add_number, kind_word};
use record_layout::{KeyKind, KeyPart, Schema};
use std::alloc::{AllocError, Global};

/// Adds how the lengths of records differ.
fn add_record_difference(
    lines: &mut Vec<u8>,
    file: &Schema,
    deck: &Schema,
) -> Result<(), AllocError>
    ensures { OnOk result (lines.new.items ≡ lines.old.items ++ record_difference file.now deck.now) }
{
    if file.least() == deck.least() && file.greatest() == deck.greatest() {
        return Ok(());
    }
    add(lines, b"record ")?;
    add_lengths(lines, file.least(), file.greatest())?;
    add(lines, b", deck ")?;
    add_lengths(lines, deck.least(), deck.greatest())?;
    add(lines, b"\n")
}

/// Adds the number of a key.
fn add_key(lines: &mut Vec<u8>, k: u8) -> Result<(), AllocError>
    ensures { OnOk result (lines.new.items ≡ lines.old.items ++ (codes "key " ++ decimal k)) }
{
    add(lines, b"key ")?;
    add_number(lines, u64::from(k))
}

/// Adds how a number of key k differs.
fn add_number_difference(
    lines: &mut Vec<u8>,
    k: u8,
    name: &[u8],
    file: u16,
    deck: u16,
) -> Result<(), AllocError>
    ensures { OnOk result (lines.new.items ≡ lines.old.items ++ number_difference k name.now file deck) }
{
    if file == deck {
        return Ok(());
    }
    add_key(lines, k)?;
    add(lines, name)?;
    add_number(lines, u64::from(file))?;
    add(lines, b", deck ")?;
    add_number(lines, u64::from(deck))?;
    add(lines, b"\n")
}

/// Adds how the kind of key k differs.
fn add_kind_difference(
    lines: &mut Vec<u8>,
    k: u8,
    file: KeyKind,
    deck: KeyKind,
) -> Result<(), AllocError>
    ensures { OnOk result (lines.new.items ≡ lines.old.items ++ kind_difference k file deck) }
{
    if file == deck {
        return Ok(());
    }
    add_key(lines, k)?;
    add(lines, b" ")?;
    add(lines, kind_word(file))?;
    add(lines, b", deck ")?;
    add(lines, kind_word(deck))?;
    add(lines, b"\n")
}

/// Adds how key k differs, which both have.
fn add_key_difference(
    lines: &mut Vec<u8>,
    k: u8,
    file: KeyPart,
    deck: KeyPart,
) -> Result<(), AllocError>
    ensures { OnOk result (lines.new.items ≡ lines.old.items ++ key_difference k file deck) }
{
    add_number_difference(lines, k, b" offset ", file.offset, deck.offset)?;
    add_number_difference(lines, k, b" length ", file.length, deck.length)?;
    add_kind_difference(lines, k, file.kind, deck.kind)
}

/// Adds all of a key.
fn add_key_text(lines: &mut Vec<u8>, part: KeyPart) -> Result<(), AllocError>
    ensures { OnOk result (lines.new.items ≡ lines.old.items ++ key_text part) }
{
    add(lines, b"offset ")?;
    add_number(lines, u64::from(part.offset))?;
    add(lines, b" length ")?;
    add_number(lines, u64::from(part.length))?;
    add(lines, b" ")?;
    add(lines, kind_word(part.kind))
}

/// Adds key k, which the file alone has.
fn add_key_of_file(lines: &mut Vec<u8>, k: u8, part: KeyPart) -> Result<(), AllocError>
    ensures { OnOk result (lines.new.items ≡ lines.old.items ++ key_of_file k part) }
{
    add_key(lines, k)?;
    add(lines, b" ")?;
    add_key_text(lines, part)?;
    add(lines, b", deck none\n")
}

/// Adds key k, which the deck alone has.
fn add_key_of_deck(lines: &mut Vec<u8>, k: u8, part: KeyPart) -> Result<(), AllocError>
    ensures { OnOk result (lines.new.items ≡ lines.old.items ++ key_of_deck k part) }
{
    add_key(lines, k)?;
    add(lines, b" none, deck ")?;
    add_key_text(lines, part)?;
    add(lines, b"\n")
}

/// Adds how the keys from key k on differ.
fn add_key_differences(
    lines: &mut Vec<u8>,
    k: u8,
    file: &[KeyPart],
    deck: &[KeyPart],
) -> Result<(), AllocError>
    requires file { k + length file.now ≤ 9 }
    requires deck { k + length deck.now ≤ 9 }
    ensures { OnOk result (lines.new.items ≡ lines.old.items ++ key_differences k file.now deck.now) }
{
    match (file.split_first(), deck.split_first()) {
        (None, None) => Ok(()),
        (Some((part, file)), None) => {
            add_key_of_file(lines, k, *part)?;
            add_key_differences(lines, k + 1, file, &[])
        }
        (None, Some((part, deck))) => {
            add_key_of_deck(lines, k, *part)?;
            add_key_differences(lines, k + 1, &[], deck)
        }
        (Some((part, file)), Some((other, deck))) => {
            add_key_difference(lines, k, *part, *other)?;
            add_key_differences(lines, k + 1, file, deck)
        }
    }
}

/// The lines that tell how the schema of a file differs from that of a deck: none exactly where
/// they are the same.
pub fn difference_lines(alloc: Global, file: &Schema, deck: &Schema) -> Result<Vec<u8>, AllocError>
    ensures lines { IfOk result (λ lines. lines.items ≡ differences file.now deck.now) }
    ensures none { IfOk result (λ lines. is_none lines.items ≡ same_schema file.now deck.now) }
{
    let _file = file.key_count();
    let _deck = deck.key_count();
    let mut lines = Vec::new(alloc);
    add_record_difference(&mut lines, file, deck)?;
    add_key_differences(&mut lines, 0, file.keys(), deck.keys())?;
    Ok(lines)
}

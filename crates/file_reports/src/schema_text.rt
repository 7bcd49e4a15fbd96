//! The lines.
ghost use Rattle.std.specs.Prelude.{◌≡◌, ◌++◌, ◌+◌, ◌*◌, ◌≤◌, length, decimal, OnOk, IfOk};
ghost use Rattle.open_file.specs.Bounds.{IsHeader};
ghost use Rattle.file_reports.specs.SchemaLines.{record_lengths_text, record_line, kind_text, place_text};
ghost use Rattle.file_reports.specs.SchemaLines.{tree_text};
ghost use Rattle.file_reports.specs.SchemaLines.{schema_key_line, schema_key_lines, number_text, number_line};
ghost use Rattle.file_reports.specs.SchemaLines.{count_lines};
ghost use Rattle.file_reports.specs.SchemaLines.{all_header_lines};

use itoa::Buffer;
use open_file::{Header, TreeNumbers};
use pages::PAGE_SIZE;
use record_layout::{KeyKind, KeyPart, Schema};
use std::alloc::{AllocError, Global};

/// Adds a text.
pub fn add(lines: &mut Vec<u8>, text: &[u8]) -> Result<(), AllocError>
    ensures { OnOk result (lines.new.items ≡ lines.old.items ++ text.now) }
{
    lines.extend_from_slice(text)
}

/// Adds a number.
pub fn add_number(lines: &mut Vec<u8>, n: u64) -> Result<(), AllocError>
    ensures { OnOk result (lines.new.items ≡ lines.old.items ++ decimal n) }
{
    let mut buffer = Buffer::new();
    lines.extend_from_slice(buffer.format(n).as_bytes())
}

/// Adds how long records are.
pub fn add_lengths(lines: &mut Vec<u8>, least: u16, greatest: u16) -> Result<(), AllocError>
    ensures { OnOk result (lines.new.items ≡ lines.old.items ++ record_lengths_text least greatest) }
{
    if least == greatest {
        return add_number(lines, u64::from(greatest));
    }
    add_number(lines, u64::from(least))?;
    add(lines, b" to ")?;
    add_number(lines, u64::from(greatest))
}

/// Adds the line of the lengths of records.
fn add_record_line(lines: &mut Vec<u8>, schema: &Schema) -> Result<(), AllocError>
    ensures { OnOk result (lines.new.items ≡ lines.old.items ++ record_line schema.now) }
{
    add(lines, b"record ")?;
    add_lengths(lines, schema.least(), schema.greatest())?;
    add(lines, b"\n")
}

/// The kind of a key, in a word.
pub fn kind_word(kind: KeyKind) -> &'static [u8]
    ensures { result.now ≡ kind_text kind }
{
    match kind {
        KeyKind::Prime => b"prime",
        KeyKind::Unique => b"unique",
        KeyKind::Duplicates => b"duplicates",
    }
}

/// Adds a key by its number, and where it is in a record.
fn add_place(lines: &mut Vec<u8>, k: u8, part: KeyPart) -> Result<(), AllocError>
    ensures { OnOk result (lines.new.items ≡ lines.old.items ++ place_text k part) }
{
    add(lines, b"key ")?;
    add_number(lines, u64::from(k))?;
    add(lines, b" offset ")?;
    add_number(lines, u64::from(part.offset))?;
    add(lines, b" length ")?;
    add_number(lines, u64::from(part.length))
}

/// Adds the kind of a key, and the levels of its tree, and ends the line.
fn add_tree(lines: &mut Vec<u8>, kind: &[u8], height: u8) -> Result<(), AllocError>
    ensures { OnOk result (lines.new.items ≡ lines.old.items ++ tree_text kind.now height) }
{
    add(lines, b" ")?;
    add(lines, kind)?;
    add(lines, b" height ")?;
    add_number(lines, u64::from(height))?;
    add(lines, b"\n")
}

/// Adds the line of key k.
fn add_key_line(
    lines: &mut Vec<u8>,
    k: u8,
    part: KeyPart,
    tree: TreeNumbers,
) -> Result<(), AllocError>
    ensures { OnOk result (lines.new.items ≡ lines.old.items ++ schema_key_line k part tree) }
{
    add_place(lines, k, part)?;
    add_tree(lines, kind_word(part.kind), tree.height)
}

/// Adds the lines of the keys from key k on, each with its tree.
fn add_key_lines(
    lines: &mut Vec<u8>,
    k: u8,
    keys: &[KeyPart],
    trees: &[TreeNumbers],
) -> Result<(), AllocError>
    requires { k + length keys.now ≤ 9 }
    ensures { OnOk result (lines.new.items ≡ lines.old.items ++ schema_key_lines k keys.now trees.now) }
{
    let Some((part, keys)) = keys.split_first() else {
        return Ok(());
    };
    let Some((tree, trees)) = trees.split_first() else {
        return Ok(());
    };
    add_key_line(lines, k, *part, *tree)?;
    add_key_lines(lines, k + 1, keys, trees)
}

/// Adds a name and a number.
fn add_number_text(lines: &mut Vec<u8>, name: &[u8], n: u64) -> Result<(), AllocError>
    ensures { OnOk result (lines.new.items ≡ lines.old.items ++ number_text name.now n) }
{
    add(lines, name)?;
    add(lines, b" ")?;
    add_number(lines, n)?;
    add(lines, b"\n")
}

/// Adds the line of a name and a number.
fn add_number_line(lines: &mut Vec<u8>, name: &[u8], n: u64) -> Result<(), AllocError>
    ensures { OnOk result (lines.new.items ≡ lines.old.items ++ number_line name.now n) }
{
    add_number_text(lines, name, n)
}

/// The bytes of so many pages.
fn bytes_of(pages: u32) -> u64
    ensures { result ≡ pages * 4096 }
{
    u64::from(pages) * PAGE_SIZE as u64
}

/// Adds what the header counts.
fn add_count_lines(lines: &mut Vec<u8>, header: &Header) -> Result<(), AllocError>
    ensures { OnOk result (lines.new.items ≡ lines.old.items ++ count_lines header.now) }
{
    add_number_line(lines, b"records", header.records)?;
    add_number_line(lines, b"pages", u64::from(header.pages))?;
    add_number_line(lines, b"free pages", u64::from(header.free))?;
    add_number_line(lines, b"next stamp", header.next_stamp)?;
    add_number_line(lines, b"bytes", bytes_of(header.pages))
}

/// The lines that tell of a file by its header.
pub fn schema_lines(alloc: Global, header: &Header) -> Result<Vec<u8>, AllocError>
    requires { IsHeader header.now }
    ensures { IfOk result (λ lines. lines.items ≡ all_header_lines header.now) }
{
    let mut lines = Vec::new(alloc);
    add_record_line(&mut lines, &header.schema)?;
    add_key_lines(&mut lines, 0, header.schema.keys(), header.trees.as_slice())?;
    add_count_lines(&mut lines, header)?;
    Ok(lines)
}

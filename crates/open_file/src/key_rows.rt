//! The keys of the header, from byte 64 on: 16 bytes a key, with its tree.
//!
//! | Bytes | Content |
//! |---|---|
//! | 0 to 1 | offset |
//! | 2 to 3 | length |
//! | 4 | kind: 0 prime, 1 unique, 2 duplicates |
//! | 5 | height of its tree |
//! | 6 to 7 | zero |
//! | 8 to 11 | root page |
//! | 12 to 15 | zero |
ghost use Rattle.std.specs.Prelude.{◌≡◌, ◌≤◌, length, map, flat_map, zip, if◌then◌else◌};
ghost use Rattle.record_layout.specs.declared.schema.KeyKind.TheVariants.{Prime, Unique};
ghost use Rattle.record_layout.specs.Schema.{same_kind};
ghost use Rattle.open_file.specs.FirstPage.{key_row_bytes};
ghost use Rattle.open_file.specs.FirstPageReading.{kind_in, part_in, tree_in, key_rows_in};

use crate::first_page::TreeNumbers;
use crate::numbers::END;
use arrayvec::ArrayVec;
use byteorder::{BigEndian, ByteOrder};
use pages::PAGE_SIZE;
use record_layout::{KeyKind, KeyPart};

const OFFSET: usize = 0;

const LENGTH: usize = 2;

const KIND: usize = 4;

const HEIGHT: usize = 5;

const ROOT: usize = 8;

const ROOT_END: usize = 12;

/// The bytes of a row.
const ROW: usize = 16;

/// The rows of the keys, with their trees.
pub fn key_rows(keys: &[KeyPart], trees: &[TreeNumbers]) -> ArrayVec<u8, 144>
    requires { length trees.now ≤ 9 }
    ensures { result.items ≡ flat_map (λ row. key_row_bytes row.0 row.1) (zip keys.now trees.now) }
{
    let mut rows = ArrayVec::new();
    for k in 0..keys.len().min(trees.len()) {
        let _ = rows.try_extend_from_slice(&row(keys[k], trees[k]));
    }
    rows
}

/// The byte of a kind.
fn kind_byte(kind: KeyKind) -> u8
    ensures { result ≡ (if same_kind kind Prime then 0 else if same_kind kind Unique then 1 else 2) }
{
    match kind {
        KeyKind::Prime => 0,
        KeyKind::Unique => 1,
        KeyKind::Duplicates => 2,
    }
}

/// The row of a key.
fn row(part: KeyPart, tree: TreeNumbers) -> [u8; ROW]
    ensures { result ≡ key_row_bytes part tree }
{
    let mut bytes = [0; ROW];
    BigEndian::write_u16(&mut bytes[OFFSET..LENGTH], part.offset);
    BigEndian::write_u16(&mut bytes[LENGTH..KIND], part.length);
    bytes[KIND] = kind_byte(part.kind);
    bytes[HEIGHT] = tree.height;
    BigEndian::write_u32(&mut bytes[ROOT..ROOT_END], tree.root);
    bytes
}

/// The parts of the records that the first `count` keys are.
pub fn parts_in(page: &[u8; PAGE_SIZE], count: usize) -> ArrayVec<KeyPart, 9>
    requires { count ≤ 9 }
    ensures { result.items ≡ map part_in (key_rows_in page.now count) }
{
    let mut parts = ArrayVec::new();
    for k in 0..count {
        parts.push(part_in(&page[END + ROW * k..END + ROW * k + ROW]));
    }
    parts
}

/// The trees of the first `count` keys.
pub fn trees_in(page: &[u8; PAGE_SIZE], count: usize) -> ArrayVec<TreeNumbers, 9>
    requires { count ≤ 9 }
    ensures { result.items ≡ map tree_in (key_rows_in page.now count) }
{
    let mut trees = ArrayVec::new();
    for k in 0..count {
        trees.push(tree_in(&page[END + ROW * k..END + ROW * k + ROW]));
    }
    trees
}

/// The kind that a byte tells. A page with a byte that is not that of a kind is refused later on.
fn kind_in(byte: u8) -> KeyKind
    ensures { result ≡ kind_in byte }
{
    match byte {
        0 => KeyKind::Prime,
        2 => KeyKind::Duplicates,
        _ => KeyKind::Unique,
    }
}

fn part_in(row: &[u8]) -> KeyPart
    requires { 16 ≤ length row.now }
    ensures { result ≡ part_in row.now }
{
    KeyPart {
        offset: BigEndian::read_u16(&row[OFFSET..LENGTH]),
        length: BigEndian::read_u16(&row[LENGTH..KIND]),
        kind: kind_in(row[KIND]),
    }
}

fn tree_in(row: &[u8]) -> TreeNumbers
    requires { 16 ≤ length row.now }
    ensures { result ≡ tree_in row.now }
{
    TreeNumbers {
        height: row[HEIGHT],
        root: BigEndian::read_u32(&row[ROOT..ROOT_END]),
    }
}

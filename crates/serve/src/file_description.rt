//! The request for a number of a file.
//!
//! | Bytes of the body | Content |
//! |---|---|
//! | 0 | 1 |
//! | 1 | number of the file |
//! | 2 | access: 0 sequential, 1 random, 2 dynamic |
//! | 3 | 1 where the file is OPTIONAL, else 0 |
//! | 4 to 5 | least length of a record |
//! | 6 to 7 | greatest length of a record |
//! | 8 | number of keys, k: 1 to 9 |
//! | 9 to 8 + 5 k | for each key, the prime key first: offset (2), length (2), duplicates (1) |
//! | 9 + 5 k to the end | the file's name in its folder |
//!
//! The byte for duplicates is 1 where the key allows them, else 0.
ghost use Rattle.std.specs.Prelude.{◌≡◌, ◌≤◌, ◌*◌, length, option_map};
ghost use Rattle.serve.specs.Request.{described_of};
ghost use Rattle.serve.specs.Reading.{access_in, kind_by_flag, key_in, keys_in, described_in};

use crate::statement::flag_of;
use arrayvec::ArrayVec;
use byteorder::{BigEndian, ByteOrder};
use io_state::Access;
use record_layout::{KeyKind, KeyPart};

const FILE: usize = 1;

const ACCESS: usize = 2;

const OPTIONAL: usize = 3;

const LEAST: usize = 4;

const GREATEST: usize = 6;

const COUNT: usize = 8;

const KEYS: usize = 9;

/// The bytes of a key.
const ROW: usize = 5;

/// The most keys of a file.
const KEY_LIMIT: usize = 9;

/// How a program describes a file, and the number that it wants for it.
#[derive(Drop)]
pub struct FileDescription<'a> {
    pub file: u8,
    pub access: Access,
    pub optional: bool,
    pub least: u16,
    pub greatest: u16,
    pub keys: ArrayVec<KeyPart, 9>,
    pub name: &'a [u8],
}

fn access_of(byte: u8) -> Option<Access>
    ensures { result ≡ access_in byte }
{
    match byte {
        0 => Some(Access::Sequential),
        1 => Some(Access::Random),
        2 => Some(Access::Dynamic),
        _ => None,
    }
}

/// The kind of key k, by its flag. A prime key with duplicates makes no schema later on.
fn kind_by_flag(k: usize, duplicates: bool) -> KeyKind
    ensures { result ≡ kind_by_flag k duplicates }
{
    match (k, duplicates) {
        (_, true) => KeyKind::Duplicates,
        (0, false) => KeyKind::Prime,
        (_, false) => KeyKind::Unique,
    }
}

/// Key k, of the first row.
fn key_of(k: usize, rows: &[u8]) -> Option<KeyPart>
    requires { 5 ≤ length rows.now }
    ensures { result ≡ key_in k rows.now }
{
    Some(KeyPart {
        offset: BigEndian::read_u16(&rows[0..2]),
        length: BigEndian::read_u16(&rows[2..4]),
        kind: kind_by_flag(k, flag_of(rows[4])?),
    })
}

/// The keys of the first rows.
fn keys_of(rows: &[u8], count: usize) -> Option<ArrayVec<KeyPart, 9>>
    requires few { count ≤ 9 }
    requires whole { 5 * count ≤ length rows.now }
    ensures { option_map (λ keys. keys.items) result ≡ keys_in 0 count rows.now }
{
    let mut keys = ArrayVec::new();
    let mut rest = rows;
    for k in 0..count {
        match key_of(k, rest) {
            Some(key) => keys.push(key),
            None => return None,
        }
        let (_, later) = rest.split_at(ROW);
        rest = later;
    }
    Some(keys)
}

/// What a body of this kind asks for, where it is that of a request.
pub fn read_description(body: &[u8]) -> Option<FileDescription<'_>>
    ensures { option_map described_of result ≡ described_in body.now }
{
    if body.len() < KEYS {
        return None;
    }
    let count = usize::from(body[COUNT]);
    let end = KEYS + ROW * count;
    if count == 0 || count > KEY_LIMIT || body.len() < end {
        return None;
    }
    let access = access_of(body[ACCESS])?;
    let optional = flag_of(body[OPTIONAL])?;
    let keys = keys_of(&body[KEYS..], count)?;
    Some(FileDescription {
        file: body[FILE],
        access,
        optional,
        least: BigEndian::read_u16(&body[LEAST..GREATEST]),
        greatest: BigEndian::read_u16(&body[GREATEST..COUNT]),
        keys,
        name: &body[end..],
    })
}

//! The request for a verb.
//!
//! | Bytes of the body | Content |
//! |---|---|
//! | 0 | 2 |
//! | 1 | number of the file |
//! | 2 | verb: 0 OPEN, 1 CLOSE, 2 READ NEXT, 3 READ, 4 START, 5 WRITE, 6 REWRITE, 7 DELETE |
//! | 3 | OPEN: 0 INPUT, 1 OUTPUT, 2 I-O, 3 EXTEND |
//! | 3 | CLOSE: 1 WITH LOCK, else 0 |
//! | 3 | START: 0 equal, 1 greater, 2 not less; 0 for the other verbs |
//! | 4 | READ, START: the key; else 0 |
//! | 5 to 6 | START: how many of the key's first bytes are compared; else 0 |
//! | 7 to 8 | WRITE, REWRITE: length of the record; else 0 |
//! | 9 to the end | bytes that take the place of the first ones of the record area |
ghost use Rattle.std.specs.Prelude.{◌≡◌, option_map};
ghost use Rattle.serve.specs.Request.{performed_of};
ghost use Rattle.serve.specs.Reading.{flag_in, mode_in, relation_in, statement_in, has_length};
ghost use Rattle.serve.specs.Reading.{performed_in};

use byteorder::{BigEndian, ByteOrder};
use io_state::{FileStatement, OpenMode, Relation};

const FILE: usize = 1;

const VERB: usize = 2;

const OPERAND: usize = 3;

const KEY: usize = 4;

const PART: usize = 5;

const LENGTH: usize = 7;

const BYTES: usize = 9;

/// A verb on the file of a number: the length of the record that it stores, and the first bytes of
/// the record area.
#[derive(Drop)]
pub struct Performance<'a> {
    pub file: u8,
    pub statement: FileStatement,
    pub length: u16,
    pub bytes: &'a [u8],
}

/// 1 is yes, and 0 no.
pub fn flag_of(byte: u8) -> Option<bool>
    ensures { result ≡ flag_in byte }
{
    match byte {
        0 => Some(false),
        1 => Some(true),
        _ => None,
    }
}

fn mode_of(byte: u8) -> Option<OpenMode>
    ensures { result ≡ mode_in byte }
{
    match byte {
        0 => Some(OpenMode::Input),
        1 => Some(OpenMode::Output),
        2 => Some(OpenMode::InputOutput),
        3 => Some(OpenMode::Extend),
        _ => None,
    }
}

fn relation_of(byte: u8) -> Option<Relation>
    ensures { result ≡ relation_in byte }
{
    match byte {
        0 => Some(Relation::Equal),
        1 => Some(Relation::Greater),
        2 => Some(Relation::NotLess),
        _ => None,
    }
}

/// The statement of a verb with these operands.
fn statement_of(verb: u8, operand: u8, key: u8, part: u16) -> Option<FileStatement>
    ensures { result ≡ statement_in verb operand key part }
{
    match verb {
        0 if key == 0 && part == 0 => Some(FileStatement::Open(mode_of(operand)?)),
        1 if key == 0 && part == 0 => Some(FileStatement::Close {
            lock: flag_of(operand)?,
        }),
        2 if operand == 0 && key == 0 && part == 0 => Some(FileStatement::ReadNext),
        3 if operand == 0 && part == 0 => Some(FileStatement::Read { key }),
        4 => Some(FileStatement::Start {
            key,
            length: part,
            relation: relation_of(operand)?,
        }),
        5 if operand == 0 && key == 0 && part == 0 => Some(FileStatement::Write),
        6 if operand == 0 && key == 0 && part == 0 => Some(FileStatement::Rewrite),
        7 if operand == 0 && key == 0 && part == 0 => Some(FileStatement::Delete),
        _ => None,
    }
}

/// Whether the statement has the length of a record.
fn has_length(statement: &FileStatement) -> bool
    ensures { result ≡ has_length statement.now }
{
    matches!(statement, FileStatement::Write | FileStatement::Rewrite)
}

/// What a body of this kind asks for, where it is that of a request.
pub fn read_performance(body: &[u8]) -> Option<Performance<'_>>
    ensures { option_map performed_of result ≡ performed_in body.now }
{
    if body.len() < BYTES {
        return None;
    }
    let part = BigEndian::read_u16(&body[PART..LENGTH]);
    let length = BigEndian::read_u16(&body[LENGTH..BYTES]);
    let statement = statement_of(body[VERB], body[OPERAND], body[KEY], part)?;
    if length != 0 && !has_length(&statement) {
        return None;
    }
    Some(Performance {
        file: body[FILE],
        statement,
        length,
        bytes: &body[BYTES..],
    })
}

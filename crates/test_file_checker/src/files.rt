//! Files of numbered records, and their bytes.

ghost use Rattle.memory_shelf.specs.MemShelves.{mem_state_of};
ghost use Rattle.shelf_library.specs.Standing.{IsReady};

use crate::checks::assert_equal_for;
use byteorder::{BigEndian, ByteOrder};
use indexed_file::Added;
use io_state::{FileName, Key};
use memory_shelf::MemShelf;
use page_store::Shelf;
use record_layout::{KeyKind, KeyPart, Schema};
use shelf_library::ShelfFile;
use std::alloc::Global;
use std::num::NonZeroUsize;
use std::process::Abort;

/// The length of a record, which has three keys of 60 bytes.
const LENGTH: u16 = 200;

const KEY: u16 = 60;

/// Where the numbers stand that the keys end with.
const NUMBER: usize = 56;

const GROUP: usize = 116;

const CODE: usize = 176;

/// A number and a code that are one record's alone, and a group that several are of.
const KEYS: [KeyPart; 3] = [
    KeyPart {
        offset: 0,
        length: KEY,
        kind: KeyKind::Prime,
    },
    KeyPart {
        offset: 60,
        length: KEY,
        kind: KeyKind::Duplicates,
    },
    KeyPart {
        offset: 120,
        length: KEY,
        kind: KeyKind::Unique,
    },
];

/// The record of a number: its group is one of seven, and codes fall where numbers rise.
fn record(n: u32) -> [u8; 200] {
    let mut record = [0; 200];
    BigEndian::write_u32(&mut record[NUMBER..], n);
    BigEndian::write_u32(&mut record[GROUP..], n % 7);
    BigEndian::write_u32(&mut record[CODE..], u32::MAX - n);
    record
}

pub fn name(rt: &impl Abort) -> FileName {
    FileName::from("FILE").expect(rt, "a name")
}

/// Adds the record of a number.
fn adds<S: Shelf>(rt: &impl Abort, held: &mut ShelfFile, shelf: &mut S, n: u32)
    requires { IsReady held.old (S.state shelf.old) }
    ensures { IsReady held.new (S.state shelf.new) }
{
    let schema = held.parts().schema();
    assert!(rt; schema.least() == LENGTH);
    assert!(rt; schema.greatest() == LENGTH);
    let added = held.add(shelf, &record(n)).expect(rt, "an answer");
    assert_equal_for(rt, n, added == Added::Clash, false);
}

/// Removes the record of a number.
fn removes<S: Shelf>(rt: &impl Abort, held: &mut ShelfFile, shelf: &mut S, n: u32)
    requires { IsReady held.old (S.state shelf.old) }
    ensures { IsReady held.new (S.state shelf.new) }
{
    let mut value = [0; 60];
    BigEndian::write_u32(&mut value[NUMBER..], n);
    let mut key = Key::new();
    let _ = key.try_extend_from_slice(&value);
    let is_removed = held.remove(shelf, &key).expect(rt, "an answer");
    assert_equal_for(rt, n, is_removed, true);
}

/// Adds records of so many numbers, in no order, and removes those of the first ones.
fn fills<S: Shelf>(rt: &impl Abort, held: &mut ShelfFile, shelf: &mut S, count: u32, removed: u32)
    requires { IsReady held.old (S.state shelf.old) }
    ensures { IsReady held.new (S.state shelf.new) }
{
    for i in 0..count {
        adds(rt, held, shelf, i.wrapping_mul(1231) % count);
    }
    for n in 0..removed {
        removes(rt, held, shelf, n);
    }
}

/// The bytes of the file of a shelf.
pub fn bytes_of<S: Shelf>(rt: &impl Abort, alloc: Global, shelf: &mut S) -> Vec<u8> {
    shelf.attach(&[name(rt)]).expect(rt, "attached");
    let is_there = shelf.exists(0).expect(rt, "an answer");
    assert!(rt; is_there);
    let size = shelf.size(0).expect(rt, "a size");
    let mut bytes = vec![in alloc; 0; size as usize].expect(rt, "memory");
    shelf.read_at(0, 0, &mut bytes).expect(rt, "the bytes");
    bytes
}

/// Makes a file on a shelf, with records of so many numbers but for the first ones, which are removed, and
/// closes it.
fn makes(
    rt: &impl Abort,
    alloc: Global,
    shelf: &mut MemShelf,
    schema: &Schema,
    count: u32,
    removed: u32,
) {
    let frames = NonZeroUsize::new(4096).unwrap_or(NonZeroUsize::MIN);
    shelf.attach(&[name(rt)]).expect(rt, "attached");
    let mut held = ShelfFile::create(alloc, shelf, 0, frames, 100_000, schema).expect(
        rt,
        "a new file",
    );
    fills(rt, &mut held, shelf, count, removed);
    held.close(shelf).expect(rt, "closed");
}

/// A shelf with a file that was closed with records of so many numbers, but for the first ones, which were
/// removed.
pub fn made_shelf(rt: &impl Abort, alloc: Global, count: u32, removed: u32) -> MemShelf {
    let schema = Schema::from_parts(LENGTH, LENGTH, &KEYS).expect(rt, "a schema");
    let mut shelf = MemShelf::new(alloc);
    makes(rt, alloc, &mut shelf, &schema, count, removed);
    shelf
}

/// The bytes of such a file.
pub fn made(rt: &impl Abort, alloc: Global, count: u32, removed: u32) -> Vec<u8> {
    let mut shelf = made_shelf(rt, alloc, count, removed);
    bytes_of(rt, alloc, &mut shelf)
}

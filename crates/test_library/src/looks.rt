//! Files that are refused when a unit is looked at.

ghost use Rattle.indexed_file.specs.Clients.{IsOpenWith, IsNotOpen};

use crate::checks::{assert_equal, assert_that};
use indexed_file::Library;
use memory_shelf::MemShelf;
use record_layout::{KeyKind, KeyPart, Schema};
use std::alloc::Global;
use std::process::Abort;
use unit_calls::{
    Told, adds_numbers, attaches, creates, library_over, looks, opens, puts, schema, shuts,
};

const KEYS: [KeyPart; 2] = [
    KeyPart {
        offset: 0,
        length: 4,
        kind: KeyKind::Prime,
    },
    KeyPart {
        offset: 4,
        length: 5,
        kind: KeyKind::Duplicates,
    },
];

/// Records of 9 bytes, with a prime key and an alternate one.
fn numbers(rt: &impl Abort) -> Schema {
    schema(9, 9, &KEYS).expect(rt, "a schema")
}

/// Whether a file of these bytes is unsound.
fn is_unsound(rt: &impl Abort, alloc: Global, schema: &Schema, bytes: &[u8]) -> bool {
    let mut shelf = MemShelf::new(alloc);
    puts(&mut shelf, bytes).expect(rt, "a file");
    let mut library = library_over(alloc, shelf, 100, 2).expect(rt, "a library");
    let told = looks(&mut library, 0, schema).expect(rt, "an answer");
    matches!(told, Told::Unsound)
}

#[test]
fn a_file_without_a_first_page_is_unsound(rt: HostRuntime) {
    let schema = numbers(&rt);
    let zeros = [0; 4096];
    let closed = [b'C'; 4096];
    for &bytes in &[b"".as_slice(), b"C", b"CUSTO", &zeros, &closed] {
        assert_that(&rt, is_unsound(&rt, rt.alloc(), &schema, bytes));
    }
}

/// A new file with a customer.
fn makes<L: Library>(rt: &impl Abort, library: &mut L, schema: &Schema)
    requires { IsNotOpen (L.shown.world library.old) 0 }
    ensures { IsOpenWith (L.shown.world library.new) 0 schema.now }
{
    creates(library, 0, schema).expect(rt, "a new file");
    adds_numbers(library, 0, schema, &[1, 1]).expect(rt, "an answer");
}

// OPEN statement: a file that was changed since it was opened, and not closed, can't be opened; a new one may
// be made in its place.
#[test]
fn a_file_that_was_changed_and_not_shut_is_unsound(rt: HostRuntime) {
    let schema = numbers(&rt);
    let alloc = rt.alloc();
    let mut library = library_over(alloc, MemShelf::new(alloc), 100, 2).expect(&rt, "a library");
    makes(&rt, &mut library, &schema);
    attaches(&mut library).expect(&rt, "attached");
    assert_equal(&rt, looks(&mut library, 0, &schema), Ok(Told::Unsound));
    makes(&rt, &mut library, &schema);
    shuts(&mut library, 0, &schema).expect(&rt, "shut");
    assert_equal(&rt, opens(&mut library, 0, &schema), Ok(Told::Sound));
}

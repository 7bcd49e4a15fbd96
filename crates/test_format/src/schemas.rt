//! Files with a prime key and alternate keys.

use crate::checks::{assert_equal, assert_equal_for, assert_that};
use crate::entries::{Row, layout_of};
use io_state::Name;
use record_layout::{Field, KeyKind, KeyPart, Layout, Schema, SchemaFault};
use std::alloc::Global;
use std::process::Abort;

// A record of a number, a name, a code and a note.
const CUSTOMER: &[Row] = &[
    (1, "CUSTOMER", ""),
    (5, "ID", "9(4)"),
    (5, "NAME", ""),
    (10, "FIRST", "X(3)"),
    (10, "LAST", "X(5)"),
    (5, "CODE", "X(2)"),
    (5, "NOTE", "X(251)"),
];

fn field(offset: u16, length: u16) -> Field {
    Field {
        offset,
        length,
        numeric: false,
    }
}

const ID: KeyPart = KeyPart {
    offset: 0,
    length: 4,
    kind: KeyKind::Prime,
};

const NAME: KeyPart = KeyPart {
    offset: 4,
    length: 8,
    kind: KeyKind::Unique,
};

const CODE: KeyPart = KeyPart {
    offset: 12,
    length: 2,
    kind: KeyKind::Duplicates,
};

/// ID is the prime key; CODE and NAME are alternate keys.
fn customers(rt: &impl Abort, alloc: Global) -> Schema {
    let layout = layout_of(rt, alloc, CUSTOMER);
    let alternates = named(rt, alloc, &[("CODE", true), ("NAME", false)]);
    assert!(rt; layout.length() == 265);
    Schema::varying(&layout, 14, "ID", &alternates).expect(rt, "a schema")
}

// Each key of a customer: its number, where it stands, and its value in 0042ANNMILLEX7.
const KEYS: [(u8, KeyPart, &[u8]); 3] = [
    (0, ID, b"0042"),
    (1, NAME, b"ANNMILLE"),
    (2, CODE, b"X7"),
];

#[test]
fn alternate_keys_are_numbered_by_where_they_stand(rt: HostRuntime) {
    let schema = customers(&rt, rt.alloc());
    assert!(rt; schema.least() == 14);
    assert_equal(&rt, schema.greatest(), 265);
    assert_equal(&rt, schema.key_count(), 3);
    for &(k, part, value) in &KEYS {
        assert!(rt; usize::from(k) < schema.key_count());
        assert_equal_for(&rt, k, schema.part(k), part);
        assert_equal_for(&rt, k, schema.value(b"0042ANNMILLEX7", k), value);
        let key = schema.extract(b"0042ANNMILLEX7", k);
        assert_equal_for(&rt, k, key.as_slice(), value);
    }
}

// Where an item stands and how long it is, the key that it is, and the key that it leads.
const ITEMS: [(u16, u16, Option<u8>, Option<(u8, u16)>); 6] = [
    (0, 4, Some(0), Some((0, 4))),
    (4, 8, Some(1), Some((1, 8))),
    (4, 3, None, Some((1, 3))),
    (4, 9, None, None),
    (7, 5, None, None),
    (12, 2, Some(2), Some((2, 2))),
];

#[test]
fn an_item_is_a_key_or_leads_one(rt: HostRuntime) {
    let schema = customers(&rt, rt.alloc());
    for &(offset, length, key, partial) in &ITEMS {
        let item = field(offset, length);
        assert_equal_for(&rt, item, schema.key_of(item), key);
        assert_equal_for(&rt, item, schema.partial(item), partial);
    }
}

/// The fault of keys of the customer of 265 bytes, of which every record has 13.
fn fault_of(
    rt: &impl Abort,
    alloc: Global,
    layout: &Layout,
    prime: &str,
    alternates: &[(&str, bool)],
) -> Option<SchemaFault> {
    let alternates = named(rt, alloc, alternates);
    if layout.length() != 265 {
        return None;
    }
    Schema::varying(layout, 13, prime, &alternates).err()
}

// Names of alternate keys, and whether each may have duplicates.
fn named(rt: &impl Abort, alloc: Global, rows: &[(&str, bool)]) -> Vec<(Name, bool)> {
    let mut named = Vec::new(alloc);
    for &(text, duplicates) in rows {
        let name = Name::from(text).expect(rt, "a name");
        named.push((name, duplicates)).expect(rt, "memory");
    }
    named
}

const FAULTY: [(&str, &[(&str, bool)], SchemaFault); 7] = [
    ("NUMBER", &[], SchemaFault::NoSuchField),
    ("ID", &[("NUMBER", false)], SchemaFault::NoSuchField),
    ("NOTE", &[], SchemaFault::KeyTooLong),
    (
        "ID",
        &[("NAME", false), ("FIRST", true)],
        SchemaFault::SameLeftmost,
    ),
    ("ID", &[("CODE", false)], SchemaFault::KeyPastLeast),
    (
        "ID",
        &[("CODE", false), ("NOTE", false)],
        SchemaFault::KeyPastLeast,
    ),
    ("NUMBER", &[("NUMBER", false); 9], SchemaFault::TooManyKeys),
];

// FILE-CONTROL entry: the leftmost character of no key is that of another. RECORD clause: keys are
// within the least length.
#[test]
fn the_first_fault_of_the_keys_is_told(rt: HostRuntime) {
    let layout = layout_of(&rt, rt.alloc(), CUSTOMER);
    for &(prime, alternates, fault) in &FAULTY {
        let found = fault_of(&rt, rt.alloc(), &layout, prime, alternates);
        assert_equal_for(&rt, (prime, alternates), found, Some(fault));
    }
}

fn with_keys(rt: &impl Abort, alloc: Global, alternates: &[(&str, bool)]) -> Schema {
    let layout = layout_of(rt, alloc, CUSTOMER);
    Schema::new(&layout, "ID", &named(rt, alloc, alternates)).expect(rt, "a schema")
}

#[test]
fn schemas_are_the_same_whatever_the_order_of_their_clauses(rt: HostRuntime) {
    let schema = with_keys(&rt, rt.alloc(), &[("CODE", true), ("NAME", false)]);
    let turned = with_keys(&rt, rt.alloc(), &[("NAME", false), ("CODE", true)]);
    let unique = with_keys(&rt, rt.alloc(), &[("NAME", false), ("CODE", false)]);
    let varying = customers(&rt, rt.alloc());
    assert_that(&rt, schema.same(&turned));
    assert_that(&rt, schema.same(&schema.copy()));
    assert_that(&rt, !schema.same(&unique));
    assert_that(&rt, !schema.same(&varying));
}

// A part that ends past the record.
const PAST: KeyPart = KeyPart {
    offset: 12,
    length: 9,
    kind: KeyKind::Unique,
};

// A part of 0007ANNSMITHXY, and no more than the record has.
const PARTS: [(KeyPart, &[u8]); 2] = [(NAME, b"ANNSMITH"), (PAST, b"XY")];

#[test]
fn a_key_is_a_part_of_a_record(rt: HostRuntime) {
    let schema = customers(&rt, rt.alloc());
    assert_equal(&rt, schema.keys(), [ID, NAME, CODE].as_slice());
    for &(part, bytes) in &PARTS {
        assert_equal(&rt, part.of(b"0007ANNSMITHXY"), bytes);
    }
}

// A key of the greatest length, and one that ends with it.
const LONG_ID: KeyPart = KeyPart {
    offset: 0,
    length: 250,
    kind: KeyKind::Prime,
};

const LONG_CODE: KeyPart = KeyPart {
    offset: 12,
    length: 238,
    kind: KeyKind::Duplicates,
};

const LONG: &[KeyPart] = &[LONG_ID, NAME, LONG_CODE];

const TURNED: &[KeyPart] = &[ID, CODE, NAME];

// A key one byte past the least record, alternates out of order, and no key.
const NO_SCHEMAS: [(u16, u16, &[KeyPart]); 3] = [
    (249, 4000, LONG),
    (20, 20, TURNED),
    (20, 20, &[]),
];

#[test]
fn a_schema_is_made_from_the_numbers_of_one(rt: HostRuntime) {
    let schema = Schema::from_parts(250, 4000, LONG).expect(&rt, "these make a schema");
    assert_equal(&rt, schema.keys(), LONG);
    for &(least, greatest, keys) in &NO_SCHEMAS {
        let found = Schema::from_parts(least, greatest, keys);
        assert_equal_for(&rt, (least, keys), found.is_none(), true);
    }
}

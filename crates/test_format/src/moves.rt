//! Moves to an item of a record area.

use crate::checks::{assert_equal, assert_equal_for};
use record_layout::{Bytes, Field, Figure, Source, put, takes};
use std::process::Abort;

const fn item(length: u16, numeric: bool) -> Field {
    Field {
        offset: 1,
        length,
        numeric,
    }
}

fn area_after(rt: &impl Abort, field: Field, source: &Source<&[u8]>) -> [u8; 6] {
    let mut area = *b"......";
    assert!(rt; takes(field, source), "{source:?}");
    assert!(rt; field.offset <= 2 && field.length <= 4);
    put(&mut area, field, source);
    area
}

// The length of the item, whether it is numeric, what is moved to it, and the area then.
const MOVES: [(u16, bool, Source<&[u8]>, &[u8; 6]); 12] = [
    (4, false, Source::Text(b"ABCD"), b".ABCD."),
    (4, false, Source::Text(b"ABCDEF"), b".ABCD."),
    (4, false, Source::Text(b"AB"), b".AB  ."),
    (4, false, Source::Text(b""), b".    ."),
    (4, false, Source::Digits(b"123456"), b".1234."),
    (4, true, Source::Digits(b"12"), b".0012."),
    (4, true, Source::Digits(b"123456"), b".3456."),
    (2, true, Source::Fill(Figure::Zero), b".00..."),
    (2, false, Source::Fill(Figure::Zero), b".00..."),
    (2, false, Source::Fill(Figure::Space), b".  ..."),
    (2, false, Source::Fill(Figure::Low), b".\x00\x00..."),
    (2, false, Source::Fill(Figure::High), b".\xff\xff..."),
];

// MOVE statement, general rules: alphanumeric moves from the left, numeric moves from the right;
// figurative constants.
#[test]
fn a_move_fits_its_source_to_the_item(rt: HostRuntime) {
    for (length, numeric, source, expected) in &MOVES {
        let area = area_after(&rt, item(*length, *numeric), source);
        assert_equal_for(&rt, source, area, **expected);
    }
}

const TAKEN: [(Source<&[u8]>, bool); 6] = [
    (Source::Digits(b"12"), true),
    (Source::Fill(Figure::Zero), true),
    (Source::Text(b"12"), false),
    (Source::Fill(Figure::Space), false),
    (Source::Fill(Figure::Low), false),
    (Source::Fill(Figure::High), false),
];

#[test]
fn a_numeric_item_takes_digits_and_zero_alone(rt: HostRuntime) {
    for (source, expected) in &TAKEN {
        assert_equal_for(&rt, source, takes(item(2, true), source), *expected);
        assert_equal_for(&rt, source, takes(item(2, false), source), true);
    }
}

#[test]
fn a_source_with_bytes_of_its_own_can_be_moved(rt: HostRuntime) {
    let text = Bytes::from_vec(b"AB".to_vec(rt.alloc()).expect(&rt, "memory"));
    let source = Source::Text(text);
    let area = area_after(&rt, item(3, false), &source.as_ref());
    assert_equal(&rt, area, *b".AB ..");
}

//! Texts that are sorted, and loaded sorted.

use crate::checks::assert_equal_for;
use crate::loading::{USUAL, codes, lists, loads_by};
use memory_shelf::MemShelf;
use record_loading::{Load, LoadOptions, sorted_text};
use record_text::Form;
use std::alloc::Global;
use std::process::Abort;

const SORT: LoadOptions = LoadOptions {
    sort: true,
    ..USUAL
};

// A text, and the same one sorted.
const SORTED: [[&str; 2]; 7] = [
    ["", ""],
    ["[0001AA]\n", "[0001AA]\n"],
    [
        "[0003CC]\n[0002BB]\n[0001AA]\n",
        "[0001AA]\n[0002BB]\n[0003CC]\n",
    ],
    [
        "[0002AA]\n[0001ZZ]\n[0002CC]\n[0001BB]\n[0002BB]\n",
        "[0001ZZ]\n[0001BB]\n[0002AA]\n[0002CC]\n[0002BB]\n",
    ],
    [
        "[0002BB]\nno line\n[0001AA]\n\n[0000CC]\n",
        "[0000CC]\n[0001AA]\n[0002BB]\nno line\n\n",
    ],
    ["no line\n[0001AA]", "no line\n[0001AA]"],
    [
        "[0002BB]\n[0\\ffAAA]\n[0001AA]\n[0000",
        "[0001AA]\n[0002BB]\n[0\\ffAAA]\n[0000",
    ],
];

#[test]
fn lines_are_sorted_by_the_first_key_with_those_of_no_record_last(rt: HostRuntime) {
    let schema = codes(&rt);
    for &[text, sorted] in &SORTED {
        let given = sorted_text(rt.alloc(), &schema, &Form::Text, SORT, text.as_bytes());
        let given = given.expect(&rt, "memory");
        let given = String::from_utf8(given).expect(&rt, "a text");
        assert_equal_for(&rt, text, given.as_str(), sorted);
    }
}

/// A text that is loaded into a new file with these options is answered so, and the file is listed so.
fn gives(rt: &impl Abort, alloc: Global, options: LoadOptions, answer: &str, list: &str) {
    let (shelf, told) = loads_by(rt, alloc, MemShelf::new(alloc), Load::New, options, MIXED);
    assert_equal_for(rt, answer, told.as_str(), answer);
    assert_equal_for(rt, answer, lists(rt, alloc, shelf).as_str(), list);
}

// Two lines of one value in the first key, two in the second one, and two of no record.
const MIXED: &str = "[0003BB]\n0004DD\n[0002BB]\n[0005EE]\n[0001AA]\n[0002CC]\n[0006F";

#[test]
fn the_lines_of_a_sorted_load_are_told_as_those_of_the_sorted_text(rt: HostRuntime) {
    let alloc = rt.alloc();
    let list = "[0001AA]\n[0002BB]\n";
    gives(&rt, alloc, SORT, "line 3: status 22\n", list);
    let going = LoadOptions {
        keep_going: true,
        ..SORT
    };
    let answer = "line 3: status 22\nline 4: status 22\n\
line 6: no record of this file\nline 6: no [ at its beginning\n\
line 7: no record of this file\nline 7: 5 characters, then no ] and LF\nloaded 3, rejected 4\n";
    gives(&rt, alloc, going, answer, "[0001AA]\n[0002BB]\n[0005EE]\n");
    let skipping = LoadOptions { skip: 3, ..going };
    let answer = "line 6: no record of this file\nline 6: no [ at its beginning\n\
line 7: no record of this file\nline 7: 5 characters, then no ] and LF\nloaded 2, rejected 2\n";
    gives(&rt, alloc, skipping, answer, "[0003BB]\n[0005EE]\n");
}

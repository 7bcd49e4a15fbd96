//! Loads, and what they leave.

use crate::checks::{assert_equal, assert_equal_for};
use crate::loading::{USUAL, lists, loads, loads_by};
use memory_shelf::MemShelf;
use record_loading::{Load, LoadOptions};
use std::alloc::Global;
use std::process::Abort;
use unit_calls::{bytes_of, puts};

/// A text that is loaded over a shelf is answered so.
fn answers(
    rt: &impl Abort,
    alloc: Global,
    shelf: MemShelf,
    load: Load,
    text: &str,
    answer: &str,
) -> MemShelf {
    let (shelf, told) = loads(rt, alloc, shelf, load, text);
    assert_equal_for(rt, text, told.as_str(), answer);
    shelf
}

/// The file on a shelf is listed so.
fn is_listed(rt: &impl Abort, alloc: Global, shelf: MemShelf, list: &str) {
    assert_equal(rt, lists(rt, alloc, shelf).as_str(), list);
}

/// A text that is loaded into a new file is answered so, and the file is listed so.
fn gives(rt: &impl Abort, alloc: Global, text: &str, answer: &str, list: &str) {
    let shelf = answers(rt, alloc, MemShelf::new(alloc), Load::New, text, answer);
    is_listed(rt, alloc, shelf, list);
}

/// The same of a text of two parts.
fn gives_of(rt: &impl Abort, alloc: Global, parts: [&str; 2], answer: &str, list: &str) {
    let text = parts.concat(alloc).expect(rt, "memory");
    gives(rt, alloc, &text, answer, list);
}

/// Two lines that are loaded and listed in the order of their first key, with bytes that are escaped.
const TWO: &str = "[0002\\5c\\00]\n[0001]]\\ff]\n";

const TWO_IN_ORDER: &str = "[0001]]\\ff]\n[0002\\5c\\00]\n";

#[test]
fn lines_are_loaded_and_listed_as_they_were(rt: HostRuntime) {
    let alloc = rt.alloc();
    gives(&rt, alloc, TWO, "loaded 2\n", TWO_IN_ORDER);
    gives(&rt, alloc, TWO_IN_ORDER, "loaded 2\n", TWO_IN_ORDER);
    gives(&rt, alloc, "", "loaded 0\n", "");
}

const BEFORE: &str = "[0002BB]\n[0001AA]\n";

const BEFORE_IN_ORDER: &str = "[0001AA]\n[0002BB]\n";

const REFUSED: [&str; 3] = ["[0001CC]\n[0003DD]\n", "[0003AA]\n", "[0003BBXX]\n"];

#[test]
fn a_line_whose_record_is_refused_ends_a_load(rt: HostRuntime) {
    let answer = "line 3: status 22\n";
    for &third in &REFUSED {
        gives_of(&rt, rt.alloc(), [BEFORE, third], answer, BEFORE_IN_ORDER);
    }
}

// Lines that are those of no record, each with its mistake.
const NO_RECORDS: [[&str; 2]; 13] = [
    ["[0002B]\n", "5 characters, 6 to 8 wanted\n"],
    ["[0002BBXXX]\n", "9 characters, 6 to 8 wanted\n"],
    ["0002BB\n", "no [ at its beginning\n"],
    ["[0002BB\n", "6 characters, then no ] and LF\n"],
    ["[0002BB]", "7 characters, then no ] and LF\n"],
    [
        "[0002BB]\r\n",
        "7 characters, then byte 0d, which no list writes\n",
    ],
    ["[0002BB] \n", "8 characters, then no ] and LF\n"],
    [
        "[0002B\\42]\n",
        "5 characters, then an escape that no list writes\n",
    ],
    [
        "[0002B\\0A]\n",
        "5 characters, then an escape that no list writes\n",
    ],
    [
        "[0002B\\]\n",
        "5 characters, then an escape that no list writes\n",
    ],
    [
        "[0002B\t]\n",
        "5 characters, then byte 09, which no list writes\n",
    ],
    ["\n", "no [ at its beginning\n"],
    ["[]\n", "0 characters, 6 to 8 wanted\n"],
];

#[test]
fn a_line_of_no_record_ends_a_load(rt: HostRuntime) {
    let (alloc, first) = (rt.alloc(), "[0001AA]\n");
    let told = "line 2: no record of this file\nline 2: ";
    for &[second, mistake] in &NO_RECORDS {
        let answer = [told, mistake].concat(alloc).expect(&rt, "memory");
        gives_of(&rt, alloc, [first, second], &answer, first);
    }
}

/// A shelf with a file of these bytes.
fn shelf_of(rt: &impl Abort, alloc: Global, bytes: &[u8]) -> MemShelf {
    let mut shelf = MemShelf::new(alloc);
    puts(&mut shelf, bytes).expect(rt, "memory");
    shelf
}

/// A file of these bytes is not replaced by a new one.
fn stays(rt: &impl Abort, alloc: Global, bytes: &[u8]) {
    let shelf = shelf_of(rt, alloc, bytes);
    let mut shelf = answers(rt, alloc, shelf, Load::New, TWO, "is there");
    let left = bytes_of(alloc, &mut shelf).expect(rt, "memory");
    assert_equal(rt, left.as_slice(), bytes);
}

#[test]
fn a_file_that_is_there_is_not_replaced(rt: HostRuntime) {
    let alloc = rt.alloc();
    let shelf = MemShelf::new(alloc);
    let shelf = answers(&rt, alloc, shelf, Load::New, TWO, "loaded 2\n");
    let shelf = answers(&rt, alloc, shelf, Load::New, "[0003AA]\n", "is there");
    is_listed(&rt, alloc, shelf, TWO_IN_ORDER);
    stays(&rt, alloc, b"");
    stays(&rt, alloc, b"no book");
}

#[test]
fn lines_are_loaded_into_a_file(rt: HostRuntime) {
    let alloc = rt.alloc();
    let shelf = MemShelf::new(alloc);
    let shelf = answers(&rt, alloc, shelf, Load::Into, TWO, "open: status 35\n");
    let shelf = answers(&rt, alloc, shelf, Load::New, "[0002BB]\n", "loaded 1\n");
    let three = "[0003CC]\n[0001AA]\n[0002DD]\n";
    let shelf = answers(&rt, alloc, shelf, Load::Into, three, "line 3: status 22\n");
    is_listed(&rt, alloc, shelf, "[0001AA]\n[0002BB]\n[0003CC]\n");
    let shelf = shelf_of(&rt, alloc, b"no book");
    answers(&rt, alloc, shelf, Load::Into, TWO, "open: status 91\n");
}

/// A text that is loaded into a new file with these options is answered so, and the file is listed so.
fn gives_by(
    rt: &impl Abort,
    alloc: Global,
    options: LoadOptions,
    text: &str,
    answer: &str,
    list: &str,
) {
    let (shelf, told) = loads_by(rt, alloc, MemShelf::new(alloc), Load::New, options, text);
    assert_equal_for(rt, text, told.as_str(), answer);
    is_listed(rt, alloc, shelf, list);
}

const KEEP_GOING: LoadOptions = LoadOptions {
    keep_going: true,
    ..USUAL
};

const REPLACE: LoadOptions = LoadOptions {
    replace: true,
    ..USUAL
};

// Lines 2 and 5 have a key of a record before them, and lines 3 and 7 are no records.
const MIXED: &str = "[0002BB]\n[0003BB]\n0004DD\n[0001AA]\n[0002CC]\n[0005EE]\n[0006F";

#[test]
fn a_load_goes_on_behind_lines_that_are_rejected(rt: HostRuntime) {
    let answer =
        "line 2: status 22\nline 3: no record of this file\nline 3: no [ at its beginning\n\
line 5: status 22\nline 7: no record of this file\nline 7: 5 characters, then no ] and LF\n\
loaded 3, rejected 4\n";
    let list = "[0001AA]\n[0002BB]\n[0005EE]\n";
    gives_by(&rt, rt.alloc(), KEEP_GOING, MIXED, answer, list);
    gives_by(&rt, rt.alloc(), KEEP_GOING, TWO, "loaded 2\n", TWO_IN_ORDER);
    gives_by(
        &rt,
        rt.alloc(),
        KEEP_GOING,
        "\n\n",
        "line 1: no record of this file\nline 1: no [ at its beginning\n\
line 2: no record of this file\nline 2: no [ at its beginning\nloaded 0, rejected 2\n",
        "",
    );
}

#[test]
fn lines_are_skipped_unread(rt: HostRuntime) {
    let alloc = rt.alloc();
    let text = "no line\n[0003]\n[0002BB]\n[0001AA]\n[0002CC]\n";
    let options = LoadOptions { skip: 2, ..USUAL };
    gives_by(
        &rt,
        alloc,
        options,
        text,
        "line 5: status 22\n",
        BEFORE_IN_ORDER,
    );
    let options = LoadOptions {
        skip: 2,
        ..KEEP_GOING
    };
    let answer = "line 5: status 22\nloaded 2, rejected 1\n";
    gives_by(&rt, alloc, options, text, answer, BEFORE_IN_ORDER);
    let options = LoadOptions {
        skip: u64::MAX,
        ..USUAL
    };
    gives_by(&rt, alloc, options, text, "loaded 0\n", "");
}

/// A text that is loaded into a file of two records with these options is answered so, and the file is
/// listed so.
fn gives_into(
    rt: &impl Abort,
    alloc: Global,
    options: LoadOptions,
    text: &str,
    answer: &str,
    list: &str,
) {
    let shelf = answers(
        rt,
        alloc,
        MemShelf::new(alloc),
        Load::New,
        BEFORE,
        "loaded 2\n",
    );
    let (shelf, told) = loads_by(rt, alloc, shelf, Load::Into, options, text);
    assert_equal_for(rt, text, told.as_str(), answer);
    is_listed(rt, alloc, shelf, list);
}

// Lines 1 and 5 have the first key of a record of the file, line 3 the second key of another one besides, and
// line 4 the second key of another one alone.
const REPLACING: &str = "[0001CC]\n[0003DD]\n[0002CC]\n[0004DD]\n[0002BBXX]\n";

#[test]
fn a_record_takes_the_place_of_the_one_of_its_first_key(rt: HostRuntime) {
    let alloc = rt.alloc();
    let going = LoadOptions {
        keep_going: true,
        ..REPLACE
    };
    let answer = "line 3: status 22\nline 4: status 22\nloaded 1, replaced 2, rejected 2\n";
    let list = "[0001CC]\n[0002BBXX]\n[0003DD]\n";
    gives_into(&rt, alloc, going, REPLACING, answer, list);
    let list = "[0001CC]\n[0002BB]\n[0003DD]\n";
    gives_into(&rt, alloc, REPLACE, REPLACING, "line 3: status 22\n", list);
    let one = "[0002CC]\n";
    let list = "[0001AA]\n[0002CC]\n";
    gives_into(&rt, alloc, REPLACE, one, "loaded 0, replaced 1\n", list);
    gives_into(
        &rt,
        alloc,
        USUAL,
        one,
        "line 1: status 22\n",
        BEFORE_IN_ORDER,
    );
    gives_into(
        &rt,
        alloc,
        REPLACE,
        "[0003CC]\n",
        "loaded 1\n",
        "[0001AA]\n[0002BB]\n[0003CC]\n",
    );
}

// OPEN OUTPUT makes a new file, in which REWRITE is not allowed.
#[test]
fn nothing_is_replaced_in_a_new_file(rt: HostRuntime) {
    let text = "[0001AA]\n[0001BB]\n[0002CC]\n";
    let answer = "line 2: status 22\n";
    gives_by(&rt, rt.alloc(), REPLACE, text, answer, "[0001AA]\n");
}

// Texts whose records rise, or do not at the second line or the last, or clash, or end at a line of no record.
const OF_NEW_FILES: [[&str; 3]; 7] = [
    ["", "loaded 0\n", ""],
    [
        "[0001AA]\n[0002BB]\n[0003CC]\n",
        "loaded 3\n",
        "[0001AA]\n[0002BB]\n[0003CC]\n",
    ],
    [
        "[0002BB]\n[0001AA]\n[0003CC]\n",
        "loaded 3\n",
        "[0001AA]\n[0002BB]\n[0003CC]\n",
    ],
    [
        "[0001AA]\n[0003CC]\n[0002BB]\n",
        "loaded 3\n",
        "[0001AA]\n[0002BB]\n[0003CC]\n",
    ],
    ["[0001AA]\n[0002AA]\n", "line 2: status 22\n", "[0001AA]\n"],
    [
        "[0001AA]\n[0002BB]\n[0002CC]\n",
        "line 3: status 22\n",
        BEFORE_IN_ORDER,
    ],
    [
        "[0001AA]\n0002BB]\n[0003CC]\n",
        "line 2: no record of this file\nline 2: no [ at its beginning\n",
        "[0001AA]\n",
    ],
];

// No memory for entries, too little for two records, and enough.
const MEMORIES: [usize; 3] = [0, 60, 1 << 20];

#[test]
fn a_new_file_is_the_same_whether_or_not_it_is_built(rt: HostRuntime) {
    for &memory in &MEMORIES {
        for &[text, answer, list] in &OF_NEW_FILES {
            let options = LoadOptions { memory, ..USUAL };
            gives_by(&rt, rt.alloc(), options, text, answer, list);
        }
    }
}

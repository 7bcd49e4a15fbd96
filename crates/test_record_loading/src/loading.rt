//! Texts that are loaded into a file on a shelf, and its records listed.
ghost use Rattle.std.specs.Prelude.{⊤};

use crate::checks::assert_that;
use io_state::{FileName, Key};
use memory_shelf::MemShelf;
use page_store::Shelf;
use record_layout::{KeyKind, KeyPart, Schema};
use record_listing::{Asked, ListEnd, list_records};
use record_loading::{
    Load, LoadOptions, RejectLog, RejectedLine, ShelfEnd, add_answer, add_rejected_line,
    load_lines_on_shelf, write_end_mistake, write_mistake,
};
use record_text::Form;
use shelf_library::ShelfLibrary;
use std::alloc::Global;
use std::num::NonZeroUsize;
use std::process::Abort;
use streams::{Progress, Silent};
use unit_calls::{schema, two_names};

/// The name of the file.
fn name() -> FileName {
    let [first, _] = two_names();
    first
}

const PARTS: [KeyPart; 2] = [
    KeyPart {
        offset: 0,
        length: 4,
        kind: KeyKind::Prime,
    },
    KeyPart {
        offset: 4,
        length: 2,
        kind: KeyKind::Unique,
    },
];

/// Records of 6 to 8 bytes: a key of four bytes, and a second one of two, which is unique.
pub fn codes(rt: &impl Abort) -> Schema {
    schema(6, 8, &PARTS).expect(rt, "a schema")
}

/// The lines that are told of the end of a load, with the mistake of its last line, or that the name has
/// a file.
fn reported(rt: &impl Abort, alloc: Global, end: ShelfEnd) -> String {
    match &end {
        ShelfEnd::IsThere => "is there".to_string(alloc).expect(rt, "memory"),
        ShelfEnd::Loaded(end) => {
            let mut answer = Vec::new(alloc);
            add_answer(&mut answer, *end).expect(rt, "memory");
            write_end_mistake(&mut answer, *end).expect(rt, "memory");
            String::from_utf8(answer).expect(rt, "a text")
        }
    }
}

/// The lines that tell of rejected ones and of their mistakes, as far as there is memory for them.
#[derive(Drop)]
struct RejectedLines {
    lines: Vec<u8>,
}

impl RejectLog for RejectedLines {
    ghost tells = { λ _ _ _ _. ⊤ };

    fn tell(&mut self, rejected: RejectedLine, _line: &[u8]) {
        let line = &rejected;
        let _told = add_rejected_line(&mut self.lines, *line);
        let _mistake = write_mistake(&mut self.lines, line.line, line.reason);
    }
}

/// A load that skips no line, ends at the first that it cannot take, and may build a new file.
pub const USUAL: LoadOptions = LoadOptions {
    skip: 0,
    keep_going: false,
    replace: false,
    pad: false,
    memory: 1 << 20,
    sort: false,
};

/// What is told of a load over a shelf, whose units are forgotten.
pub fn loads(
    rt: &impl Abort,
    alloc: Global,
    shelf: MemShelf,
    load: Load,
    text: &str,
) -> (MemShelf, String) {
    loads_with(rt, alloc, shelf, load, text, &mut Silent)
}

/// The same of a load with these options: the lines of what it rejects come first.
pub fn loads_by(
    rt: &impl Abort,
    alloc: Global,
    shelf: MemShelf,
    load: Load,
    options: LoadOptions,
    text: &str,
) -> (MemShelf, String) {
    loads_so(rt, alloc, shelf, load, options, text, &mut Silent)
}

/// The same, and how far the load is, is told.
pub fn loads_with<P: Progress>(
    rt: &impl Abort,
    alloc: Global,
    shelf: MemShelf,
    load: Load,
    text: &str,
    progress: &mut P,
) -> (MemShelf, String) {
    loads_so(rt, alloc, shelf, load, USUAL, text, progress)
}

/// The same of a load with these options.
fn loads_so<P: Progress>(
    rt: &impl Abort,
    alloc: Global,
    shelf: MemShelf,
    load: Load,
    options: LoadOptions,
    text: &str,
    progress: &mut P,
) -> (MemShelf, String) {
    let mut rejects = RejectedLines {
        lines: Vec::with_capacity(alloc, 1000).expect(rt, "memory"),
    };
    let mut shelf = shelf;
    shelf.attach(&[]).expect(rt, "memory");
    let schema = codes(rt);
    let (shelf, end) = load_lines_on_shelf(
        alloc,
        shelf,
        name(),
        &schema,
        load,
        &Form::Text,
        options,
        text.as_bytes(),
        100,
        NonZeroUsize::MIN,
        &mut rejects,
        progress,
    );
    let mut told = String::from_utf8(rejects.lines).expect(rt, "a text");
    let end = reported(rt, alloc, end.expect(rt, "memory"));
    told.push_str(&end).expect(rt, "memory");
    (shelf, told)
}

/// The lines of the records of the file on a shelf, whose units are forgotten.
pub fn lists(rt: &impl Abort, alloc: Global, shelf: MemShelf) -> String {
    let mut shelf = shelf;
    shelf.attach(&[]).expect(rt, "memory");
    let mut library = ShelfLibrary::new(alloc, shelf, 100, NonZeroUsize::MIN);
    let asked = Asked {
        key: 0,
        from: Key::new(),
        to: None,
        first: 100,
        conditions: Vec::new(alloc),
    };
    let mut out: Vec<u8> = Vec::with_capacity(alloc, 1000).expect(rt, "memory");
    let end = list_records(alloc, &mut library, name(), asked, &Form::Text, &mut out);
    assert_that(rt, matches!(end, Ok(ListEnd::Listed)));
    String::from_utf8(out).expect(rt, "a text")
}

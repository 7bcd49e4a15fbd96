//! The WORKING-STORAGE SECTION.

use crate::lines::ProgramLines;
use crate::literal::{literal, short_literal};
use file_control::{FileDesc, LengthItem};

/// The items of a file: its status, whether it is open, and its record area.
const OF_FILE: [&str; 3] = [
    "77 STATUS-# PIC~XX~VALUE~SPACES.",
    "77 OPEN-# PIC~X~VALUE~\"N\".",
    "77 AREA-# PIC~X(%).",
];

/// What a record is shown by.
const SHOWN: [&str; 10] = [
    "77 SHOWN PIC X(12005).",
    "77 SHOWN-LENGTH PIC 9(5).",
    "77 READ-BYTES PIC X(4000).",
    "77 READ-LENGTH PIC 9(5).",
    "77 READ-PLACE PIC 9(5).",
    "77 ONE-BYTE PIC X.",
    "77 BYTE-CODE PIC 9(3).",
    "77 HIGH-HALF PIC 9(2).",
    "77 LOW-HALF PIC 9(2).",
    "77 HEX-DIGITS PIC X(16) VALUE \"0123456789abcdef\".",
];

/// Adds the items of a file, and its name in the folder if that is long.
fn add_file(lines: &mut ProgramLines, u: usize, file: &FileDesc) {
    lines.add_all(&OF_FILE, &[u, usize::from(file.schema.greatest())]);
    let name = file.file.as_str();
    if short_literal(name).is_none() {
        lines.add("01 NAME-#.", &[u]);
        for part in name.as_bytes().chunks(24) {
            let value = literal(part);
            lines.add_with(
                "    02~FILLER PIC~X(%) VALUE @.",
                value.as_str(),
                &[part.len()],
            );
        }
    }
}

/// Adds the section.
pub fn add_storage(lines: &mut ProgramLines, files: &[FileDesc], items: &[LengthItem]) {
    lines.add("WORKING-STORAGE SECTION.", &[]);
    for (i, item) in items.iter().enumerate() {
        lines.add(
            "77 ITEM-# PIC~9(%) VALUE~ZERO.",
            &[i, usize::from(item.digits)],
        );
    }
    for (u, file) in files.iter().enumerate() {
        add_file(lines, u, file);
    }
    lines.add_all(&SHOWN, &[]);
}

//! The entries of FILE-CONTROL.

use crate::lines::ProgramLines;
use crate::literal::short_literal;
use file_control::FileDesc;
use io_state::Access;
use record_layout::KeyPart;

/// What stands before the entries.
const HEADINGS: [&str; 8] = [
    "IDENTIFICATION DIVISION.",
    "PROGRAM-ID.~DECK.",
    "ENVIRONMENT DIVISION.",
    "CONFIGURATION SECTION.",
    "SPECIAL-NAMES.",
    "    CLASS PLAIN-BYTE IS 33 THRU 92, 94 THRU 127.",
    "INPUT-OUTPUT SECTION.",
    "FILE-CONTROL.",
];

fn access_word(access: Access) -> &'static str {
    match access {
        Access::Sequential => "SEQUENTIAL",
        Access::Random => "RANDOM",
        Access::Dynamic => "DYNAMIC",
    }
}

fn add_key(lines: &mut ProgramLines, u: usize, k: usize, key: &KeyPart) {
    lines.add(
        if k == 0 {
            "        RECORD KEY IS KEY-#-%"
        } else {
            "        ALTERNATE RECORD KEY IS KEY-#-%"
        },
        &[u, k],
    );
    if key.has_duplicates() {
        lines.go_on("WITH DUPLICATES", "", &[]);
    }
}

/// Adds the entry of a file: the name of the file in its folder stands there, or the item that has
/// it where it is long.
fn add_select(lines: &mut ProgramLines, u: usize, file: &FileDesc) {
    let optional = if file.optional {
        "SELECT OPTIONAL"
    } else {
        "SELECT"
    };
    lines.add_with("    @ FILE-# ASSIGN TO", optional, &[u]);
    match short_literal(file.file.as_str()) {
        Some(word) => lines.go_on("@", word.as_str(), &[]),
        None => lines.go_on("NAME-#", "", &[u]),
    }
    let access = access_word(file.access);
    lines.add_with(
        "        ORGANIZATION IS INDEXED ACCESS MODE IS @",
        access,
        &[],
    );
    for (k, key) in file.schema.keys().iter().enumerate() {
        add_key(lines, u, k, key);
    }
    lines.add("        FILE STATUS IS STATUS-#.", &[u]);
}

/// Adds the divisions up to the entries of all files.
pub fn add_selects(lines: &mut ProgramLines, files: &[FileDesc]) {
    lines.add_all(&HEADINGS, &[]);
    for (u, file) in files.iter().enumerate() {
        add_select(lines, u, file);
    }
}

//! The FILE SECTION.

use crate::lines::ProgramLines;
use crate::records::add_key_record;
use file_control::FileDesc;

/// Adds the clause of the lengths of records.
fn add_lengths(lines: &mut ProgramLines, file: &FileDesc) {
    let least = usize::from(file.schema.least());
    let greatest = usize::from(file.schema.greatest());
    let Some(item) = file.depends_on else {
        return lines.go_on("RECORD~CONTAINS % CHARACTERS.", "", &[greatest]);
    };
    lines.go_on("RECORD~IS~VARYING~IN~SIZE~FROM %", "", &[least]);
    if least < greatest {
        lines.go_on("TO %", "", &[greatest]);
    }
    lines.go_on("CHARACTERS~DEPENDING~ON ITEM-#.", "", &[item]);
}

/// Adds the description of a file, with the record that WRITE and REWRITE name, and a record for
/// each key: keys may overlap.
fn add_file(lines: &mut ProgramLines, u: usize, file: &FileDesc) {
    lines.add("FD FILE-#", &[u]);
    add_lengths(lines, file);
    let greatest = file.schema.greatest();
    lines.add("01 RECORD-# PIC~X(%).", &[u, usize::from(greatest)]);
    for (k, key) in file.schema.keys().iter().enumerate() {
        add_key_record(lines, u, k, file.layout.items(), key, greatest);
    }
}

/// Adds the descriptions of all files.
pub fn add_files(lines: &mut ProgramLines, files: &[FileDesc]) {
    lines.add_all(&["DATA DIVISION.", "FILE SECTION."], &[]);
    for (u, file) in files.iter().enumerate() {
        add_file(lines, u, file);
    }
}

//! The verbs.

use crate::lines::ProgramLines;
use crate::literal::spaced;
use io_state::{FileStatement, OpenMode, Relation};

/// Displays the line of a verb that delivers no record.
pub fn add_line(lines: &mut ProgramLines, does: &str, file: usize, name: &str) {
    let text = spaced(does, name);
    lines.add_with("    DISPLAY @ STATUS-#.", text.as_str(), &[file]);
}

/// Takes what a READ delivered, and displays its line.
fn add_line_of_read(lines: &mut ProgramLines, does: &str, file: usize, name: &str) {
    lines.add("    PERFORM TAKE-#.", &[file]);
    let text = spaced(does, name);
    lines.add_with("    DISPLAY @ SHOWN(1:SHOWN-LENGTH).", text.as_str(), &[]);
}

fn mode_word(mode: OpenMode) -> &'static str {
    match mode {
        OpenMode::Input => "OPEN INPUT",
        OpenMode::Output => "OPEN OUTPUT",
        OpenMode::InputOutput => "OPEN I-O",
        OpenMode::Extend => "OPEN EXTEND",
    }
}

fn add_open(lines: &mut ProgramLines, file: usize, name: &str, mode: OpenMode) {
    let does = mode_word(mode);
    lines.add_with("    @ FILE-#.", does, &[file]);
    lines.add("    PERFORM OPENED-#.", &[file]);
    add_line(lines, does, file, name);
}

fn add_close(lines: &mut ProgramLines, file: usize, name: &str, lock: bool) {
    let does = if lock {
        "    CLOSE FILE-# WITH LOCK."
    } else {
        "    CLOSE FILE-#."
    };
    lines.add_all(&[does, "    PERFORM CLOSED-#."], &[file]);
    add_line(lines, "CLOSE", file, name);
}

fn add_read_next(lines: &mut ProgramLines, file: usize, name: &str) {
    lines.add("    READ FILE-# NEXT RECORD.", &[file]);
    add_line_of_read(lines, "READ NEXT", file, name);
}

fn add_read(lines: &mut ProgramLines, file: usize, name: &str, key: u8) {
    let read = [
        "    PERFORM GIVE-#.",
        "    READ FILE-# RECORD KEY IS KEY-#-%.",
    ];
    lines.add_all(&read, &[file, file, usize::from(key)]);
    add_line_of_read(lines, "READ", file, name);
}

fn relation_word(relation: Relation) -> &'static str {
    match relation {
        Relation::Equal => "KEY IS EQUAL TO",
        Relation::Greater => "KEY IS GREATER THAN",
        Relation::NotLess => "KEY IS NOT LESS THAN",
    }
}

/// Adds START by the first bytes of a key, so many of them.
fn add_start(
    lines: &mut ProgramLines,
    file: usize,
    name: &str,
    key: (u8, u16),
    relation: Relation,
) {
    lines.add("    PERFORM GIVE-#.", &[file]);
    let part = [file, file, usize::from(key.0), usize::from(key.1)];
    lines.add_with(
        "    START FILE-# @ PART-#-%-%.",
        relation_word(relation),
        &part,
    );
    add_line(lines, "START", file, name);
}

/// Adds a verb that stores or removes a record.
fn add_change(lines: &mut ProgramLines, does: &str, sentence: &str, file: usize, name: &str) {
    lines.add_all(&["    PERFORM GIVE-#.", sentence], &[file]);
    add_line(lines, does, file, name);
}

/// Adds a statement on a file.
pub fn add_verb(lines: &mut ProgramLines, file: usize, name: &str, statement: &FileStatement) {
    match statement {
        FileStatement::Open(mode) => add_open(lines, file, name, *mode),
        FileStatement::Close { lock } => add_close(lines, file, name, *lock),
        FileStatement::ReadNext => add_read_next(lines, file, name),
        FileStatement::Read { key } => add_read(lines, file, name, *key),
        FileStatement::Start {
            key,
            length,
            relation,
        } => add_start(lines, file, name, (*key, *length), *relation),
        FileStatement::Write => add_change(lines, "WRITE", "    WRITE RECORD-#.", file, name),
        FileStatement::Rewrite => {
            add_change(lines, "REWRITE", "    REWRITE RECORD-#.", file, name)
        }
        FileStatement::Delete => add_change(lines, "DELETE", "    DELETE FILE-#.", file, name),
    }
}

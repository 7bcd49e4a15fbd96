//! The PROCEDURE DIVISION.

use crate::lines::ProgramLines;
use crate::moves::{add_fill, add_move, add_move_to_item};
use crate::verbs::add_verb;
use deck_reader::Statement;
use file_control::{FileDesc, LengthItem};
use record_layout::{Figure, Placed};

/// The procedure of a status of a file that is no success: the program goes on.
const ERROR: [&str; 4] = [
    "ERROR-#~SECTION.",
    "    USE AFTER STANDARD ERROR PROCEDURE ON FILE-#.",
    "GO-ON-#.",
    "    EXIT.",
];

/// Fills an item with zeros, if it is numeric.
fn add_zeros(lines: &mut ProgramLines, file: usize, item: &Placed) {
    if item.field.numeric {
        let place = usize::from(item.field.offset);
        let length = usize::from(item.field.length);
        add_fill(lines, file, place, length, Figure::Zero);
    }
}

/// Adds what stands before the first statement: the declaratives, and each record area filled as it
/// is at the beginning.
fn add_beginning(lines: &mut ProgramLines, files: &[FileDesc]) {
    lines.add_all(&["PROCEDURE DIVISION.", "DECLARATIVES."], &[]);
    for (file, _) in files.iter().enumerate() {
        lines.add_all(&ERROR, &[file]);
    }
    lines.add_all(&["END DECLARATIVES.", "MAIN SECTION.", "BEGIN-DECK."], &[]);
    for (file, desc) in files.iter().enumerate() {
        lines.add("    MOVE SPACES TO AREA-#.", &[file]);
        for item in desc.layout.items() {
            add_zeros(lines, file, item);
        }
    }
}

/// Adds a statement; a verb in a paragraph of its own, with its number in the transcript, which
/// counts from 0 here.
fn add_statement(
    lines: &mut ProgramLines,
    number: usize,
    files: &[FileDesc],
    items: &[LengthItem],
    statement: &Statement,
) {
    match statement {
        Statement::Perform { file, statement } => {
            if let Some(desc) = files.get(*file) {
                lines.add("VERB-#.", &[number]);
                add_verb(lines, *file, desc.name.as_str(), statement);
            }
        }
        Statement::Move {
            file,
            field,
            source,
        } => add_move(lines, *file, *field, source),
        Statement::MoveLength { item, source } => {
            add_move_to_item(lines, *item, digits_of(items, *item), source)
        }
        Statement::StopRun => lines.add("    GO TO END-DECK.", &[]),
    }
}

/// How many digits an item has.
fn digits_of(items: &[LengthItem], place: usize) -> usize {
    match items.get(place) {
        Some(item) => usize::from(item.digits),
        None => 0,
    }
}

fn add_statements(
    lines: &mut ProgramLines,
    files: &[FileDesc],
    items: &[LengthItem],
    statements: &[Statement],
) {
    let mut number = 0;
    for statement in statements {
        add_statement(lines, number, files, items, statement);
        if matches!(
            statement,
            Statement::Perform {
                file: _,
                statement: _
            }
        ) {
            number += 1;
        }
    }
}

/// Adds the division up to its end, but for the paragraphs that the verbs perform.
pub fn add_procedure(
    lines: &mut ProgramLines,
    files: &[FileDesc],
    items: &[LengthItem],
    statements: &[Statement],
) {
    add_beginning(lines, files);
    add_statements(lines, files, items, statements);
    lines.add("END-DECK.", &[]);
    for (file, _) in files.iter().enumerate() {
        lines.add_all(
            &["    IF OPEN-# = \"Y\"", "        PERFORM SHUT-#."],
            &[file],
        );
    }
    lines.add("    STOP RUN.", &[]);
}

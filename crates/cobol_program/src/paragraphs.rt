//! The paragraphs that the verbs perform.

use crate::lines::ProgramLines;
use crate::verbs::add_line;
use file_control::FileDesc;

/// The paragraphs of a file that keep in mind whether it is open, and that give the record area to
/// an open file; and the beginning of the one that takes what a READ delivered, and makes the end
/// of its line.
const BEFORE_LENGTH: [&str; 13] = [
    "OPENED-#.",
    "    IF STATUS-# < \"10\"",
    "        MOVE \"Y\" TO OPEN-#.",
    "CLOSED-#.",
    "    IF STATUS-# NOT = \"42\"",
    "        MOVE \"N\" TO OPEN-#.",
    "GIVE-#.",
    "    IF OPEN-# = \"Y\"",
    "        MOVE AREA-# TO RECORD-#.",
    "TAKE-#.",
    "    MOVE STATUS-# TO SHOWN.",
    "    MOVE 2 TO SHOWN-LENGTH.",
    "    IF STATUS-# < \"10\"",
];

/// The rest of it, and the paragraph that closes a file at the end.
const BEHIND_LENGTH: [&str; 5] = [
    "        MOVE RECORD-# TO READ-BYTES",
    "        MOVE READ-BYTES(1:READ-LENGTH) TO AREA-# (1:READ-LENGTH)",
    "        PERFORM SHOW-RECORD.",
    "SHUT-#.",
    "    CLOSE FILE-#.",
];

/// The paragraphs that show the record that was read: byte after byte, and those that cannot be
/// printed by a backslash and two hexadecimal digits.
const SHOWING: [&str; 26] = [
    "SHOW-RECORD.",
    "    MOVE \" [\" TO SHOWN(3:2).",
    "    MOVE 4 TO SHOWN-LENGTH.",
    "    PERFORM SHOW-BYTE",
    "        VARYING READ-PLACE FROM 1 BY 1",
    "        UNTIL READ-PLACE > READ-LENGTH.",
    "    ADD 1 TO SHOWN-LENGTH.",
    "    MOVE \"]\" TO SHOWN(SHOWN-LENGTH:1).",
    "SHOW-BYTE.",
    "    MOVE READ-BYTES(READ-PLACE:1) TO ONE-BYTE.",
    "    ADD 1 TO SHOWN-LENGTH.",
    "    IF ONE-BYTE IS PLAIN-BYTE",
    "        MOVE ONE-BYTE TO SHOWN(SHOWN-LENGTH:1)",
    "    ELSE",
    "        PERFORM SHOW-CODE.",
    "SHOW-CODE.",
    "    MOVE \"\\\" TO SHOWN(SHOWN-LENGTH:1).",
    "    COMPUTE BYTE-CODE = FUNCTION ORD(ONE-BYTE) - 1.",
    "    DIVIDE 16 INTO BYTE-CODE GIVING HIGH-HALF.",
    "    COMPUTE LOW-HALF = BYTE-CODE - 16 * HIGH-HALF.",
    "    ADD 1 TO HIGH-HALF.",
    "    ADD 1 TO LOW-HALF.",
    "    ADD 1 TO SHOWN-LENGTH.",
    "    MOVE HEX-DIGITS(HIGH-HALF:1) TO SHOWN(SHOWN-LENGTH:1).",
    "    ADD 1 TO SHOWN-LENGTH.",
    "    MOVE HEX-DIGITS(LOW-HALF:1) TO SHOWN(SHOWN-LENGTH:1).",
];

/// Moves the length of the record that was read.
fn add_length_read(lines: &mut ProgramLines, desc: &FileDesc) {
    let greatest = usize::from(desc.schema.greatest());
    match desc.depends_on {
        Some(item) => lines.add("        MOVE ITEM-# TO READ-LENGTH", &[item]),
        None => lines.add("        MOVE % TO READ-LENGTH", &[greatest]),
    }
}

/// Adds the paragraphs of all files, and those that show a record.
pub fn add_paragraphs(lines: &mut ProgramLines, files: &[FileDesc]) {
    lines.add("PERFORMED SECTION.", &[]);
    for (file, desc) in files.iter().enumerate() {
        lines.add_all(&BEFORE_LENGTH, &[file]);
        add_length_read(lines, desc);
        lines.add_all(&BEHIND_LENGTH, &[file]);
        add_line(lines, "CLOSE", file, desc.name.as_str());
    }
    lines.add_all(&SHOWING, &[]);
}

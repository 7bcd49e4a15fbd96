//! A deck of records of which a page holds one, each statement beside the line that it gives in the
//! transcript.

use crate::decks::Step;

/// Records of 4,000 bytes.
pub const WIDE: &str = "ENVIRONMENT DIVISION.
INPUT-OUTPUT SECTION.
FILE-CONTROL.
    SELECT WIDE ASSIGN TO \"wide.dat\"
        ORGANIZATION IS INDEXED
        ACCESS MODE IS DYNAMIC
        RECORD KEY IS WIDE-ID.
DATA DIVISION.
FILE SECTION.
FD WIDE.
01 WIDE-REC.
    05 WIDE-ID PIC 9(4).
    05 WIDE-TEXT PIC X(3996).
PROCEDURE DIVISION.
";

/// With a limit of 16 pages 14 are available at first, a record takes one, and WRITE wants three.
pub const FILLED_UP: &[Step] = &[
    ("OPEN OUTPUT WIDE.", "OPEN OUTPUT WIDE 00"),
    ("MOVE 1 TO WIDE-ID. WRITE WIDE-REC.", "WRITE WIDE 00"),
    ("MOVE 2 TO WIDE-ID. WRITE WIDE-REC.", "WRITE WIDE 00"),
    ("MOVE 3 TO WIDE-ID. WRITE WIDE-REC.", "WRITE WIDE 00"),
    ("MOVE 4 TO WIDE-ID. WRITE WIDE-REC.", "WRITE WIDE 00"),
    ("MOVE 5 TO WIDE-ID. WRITE WIDE-REC.", "WRITE WIDE 00"),
    ("MOVE 6 TO WIDE-ID. WRITE WIDE-REC.", "WRITE WIDE 00"),
    ("MOVE 7 TO WIDE-ID. WRITE WIDE-REC.", "WRITE WIDE 00"),
    ("MOVE 8 TO WIDE-ID. WRITE WIDE-REC.", "WRITE WIDE 00"),
    ("MOVE 9 TO WIDE-ID. WRITE WIDE-REC.", "WRITE WIDE 00"),
    ("MOVE 10 TO WIDE-ID. WRITE WIDE-REC.", "WRITE WIDE 00"),
    ("MOVE 11 TO WIDE-ID. WRITE WIDE-REC.", "WRITE WIDE 00"),
    ("MOVE 12 TO WIDE-ID. WRITE WIDE-REC.", "WRITE WIDE 00"),
    ("MOVE 13 TO WIDE-ID. WRITE WIDE-REC.", "WRITE WIDE 24"),
    ("WRITE WIDE-REC.", "WRITE WIDE 24"),
    ("STOP RUN.", "CLOSE WIDE 00"),
];

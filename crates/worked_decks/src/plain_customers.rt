//! Decks of customers that are read and written in order, each statement beside the line that it gives in the
//! transcript.

use crate::decks::{Step, Worked};

/// Customers with a number and a text, read and written in order.
pub const PLAIN: &str = "ENVIRONMENT DIVISION.
INPUT-OUTPUT SECTION.
FILE-CONTROL.
    SELECT CUST ASSIGN TO \"cust.dat\"
        ORGANIZATION IS INDEXED
        RECORD KEY IS CUST-ID.
DATA DIVISION.
FILE SECTION.
FD CUST.
01 CUST-REC.
    05 CUST-ID PIC 9(4).
    05 CUST-TEXT PIC X(6).
PROCEDURE DIVISION.
";

/// There is no file.
const ABSENT: &[Step] = &[("OPEN INPUT CUST.", "OPEN INPUT CUST 35")];

/// There is one that is refused.
pub const REFUSED: &[Step] = &[("OPEN INPUT CUST.", "OPEN INPUT CUST 91")];

/// Makes a file of one customer, and reads it to its end.
pub const ONE_IS_WRITTEN: &[Step] = &[
    ("OPEN OUTPUT CUST.", "OPEN OUTPUT CUST 00"),
    ("MOVE 1 TO CUST-ID. MOVE \"SMITH\" TO CUST-TEXT.", ""),
    ("WRITE CUST-REC.", "WRITE CUST 00"),
    ("WRITE CUST-REC.", "WRITE CUST 21"),
    ("CLOSE CUST.", "CLOSE CUST 00"),
    ("OPEN INPUT CUST.", "OPEN INPUT CUST 00"),
    ("READ CUST.", "READ NEXT CUST 00 [0001SMITH ]"),
    ("READ CUST.", "READ NEXT CUST 10"),
    ("CLOSE CUST.", "CLOSE CUST 00"),
    ("STOP RUN.", ""),
];

pub const ONE_IS_READ: &[Step] = &[
    ("OPEN INPUT CUST.", "OPEN INPUT CUST 00"),
    ("READ CUST.", "READ NEXT CUST 00 [0001SMITH ]"),
    ("READ CUST.", "READ NEXT CUST 10"),
    ("STOP RUN.", "CLOSE CUST 00"),
];

/// One record is written, its twin is refused, and the file is read to its end.
pub const WRITTEN_AND_READ_BACK: Worked = Worked {
    heading: PLAIN,
    file: "CUST",
    assigned: "cust.dat",
    before: &[],
    steps: ONE_IS_WRITTEN,
    reads: &[ABSENT, ONE_IS_READ, ONE_IS_READ],
    astray: &[],
    refused: REFUSED,
};

/// Each change is refused: a prime key that does not rise, or that is not that of the record read last.
pub const REFUSED_IN_ORDER: Worked = Worked {
    heading: PLAIN,
    file: "CUST",
    assigned: "cust.dat",
    before: ONE_IS_WRITTEN,
    steps: &[
        ("OPEN EXTEND CUST.", "OPEN EXTEND CUST 00"),
        ("MOVE 1 TO CUST-ID. WRITE CUST-REC.", "WRITE CUST 21"),
        ("CLOSE CUST.", "CLOSE CUST 00"),
        ("OPEN I-O CUST.", "OPEN I-O CUST 00"),
        ("READ CUST.", "READ NEXT CUST 00 [0001SMITH ]"),
        ("MOVE 7 TO CUST-ID. REWRITE CUST-REC.", "REWRITE CUST 21"),
        ("DELETE CUST.", "DELETE CUST 43"),
        ("READ CUST.", "READ NEXT CUST 10"),
        ("STOP RUN.", "CLOSE CUST 00"),
    ],
    reads: &[ONE_IS_READ, ONE_IS_READ, ONE_IS_READ],
    astray: &[],
    refused: REFUSED,
};

//! Decks of customers of three cities, each statement beside the line that it gives in the transcript.

use crate::decks::{Step, Worked};
use crate::plain_customers::REFUSED;

/// Customers with a number, a name that is of one alone, and a city that several may have.
pub const CUSTOMERS: &str = "ENVIRONMENT DIVISION.
INPUT-OUTPUT SECTION.
FILE-CONTROL.
    SELECT CUST ASSIGN TO \"cust.dat\"
        ORGANIZATION IS INDEXED
        ACCESS MODE IS DYNAMIC
        RECORD KEY IS CUST-ID
        ALTERNATE RECORD KEY IS CUST-NAME
        ALTERNATE RECORD KEY IS CUST-CITY WITH DUPLICATES.
DATA DIVISION.
FILE SECTION.
FD CUST.
01 CUST-REC.
    05 CUST-ID PIC 9(4).
    05 CUST-NAME.
        10 NAME-1 PIC X(1).
        10 NAME-REST PIC X(5).
    05 CUST-CITY PIC X(6).
PROCEDURE DIVISION.
";

/// Makes a file of three customers of three cities.
pub const THREE_CITIES: &[Step] = &[
    ("OPEN OUTPUT CUST.", "OPEN OUTPUT CUST 00"),
    ("MOVE 1 TO CUST-ID. MOVE \"ADAMS\" TO CUST-NAME.", ""),
    (
        "MOVE \"OSLO\" TO CUST-CITY. WRITE CUST-REC.",
        "WRITE CUST 00",
    ),
    ("MOVE 2 TO CUST-ID. MOVE \"SMITH\" TO CUST-NAME.", ""),
    (
        "MOVE \"BERGEN\" TO CUST-CITY. WRITE CUST-REC.",
        "WRITE CUST 00",
    ),
    ("MOVE 3 TO CUST-ID. MOVE \"SVEN\" TO CUST-NAME.", ""),
    (
        "MOVE \"TROMSO\" TO CUST-CITY. WRITE CUST-REC.",
        "WRITE CUST 00",
    ),
    ("STOP RUN.", "CLOSE CUST 00"),
];

const THREE_ARE_READ: &[Step] = &[
    ("OPEN INPUT CUST.", "OPEN INPUT CUST 00"),
    ("READ CUST NEXT.", "READ NEXT CUST 00 [0001ADAMS OSLO  ]"),
    ("READ CUST NEXT.", "READ NEXT CUST 00 [0002SMITH BERGEN]"),
    ("READ CUST NEXT.", "READ NEXT CUST 00 [0003SVEN  TROMSO]"),
    ("READ CUST NEXT.", "READ NEXT CUST 10"),
    ("MOVE LOW-VALUES TO CUST-CITY.", ""),
    ("START CUST KEY NOT LESS CUST-CITY.", "START CUST 00"),
    ("READ CUST NEXT.", "READ NEXT CUST 00 [0002SMITH BERGEN]"),
    ("READ CUST NEXT.", "READ NEXT CUST 00 [0001ADAMS OSLO  ]"),
    ("READ CUST NEXT.", "READ NEXT CUST 00 [0003SVEN  TROMSO]"),
    ("READ CUST NEXT.", "READ NEXT CUST 10"),
    ("STOP RUN.", "CLOSE CUST 00"),
];

/// A record that clashes in a unique alternate key leaves no trace in any key.
pub const A_CLASH: Worked = Worked {
    heading: CUSTOMERS,
    file: "CUST",
    assigned: "cust.dat",
    before: THREE_CITIES,
    steps: &[
        ("OPEN I-O CUST.", "OPEN I-O CUST 00"),
        ("MOVE 4 TO CUST-ID. MOVE \"SMITH\" TO CUST-NAME.", ""),
        (
            "MOVE \"MOSS\" TO CUST-CITY. WRITE CUST-REC.",
            "WRITE CUST 22",
        ),
        ("READ CUST.", "READ CUST 23"),
        ("READ CUST KEY IS CUST-CITY.", "READ CUST 23"),
        ("MOVE \"BERGEN\" TO CUST-CITY.", ""),
        (
            "READ CUST KEY IS CUST-CITY.",
            "READ CUST 00 [0002SMITH BERGEN]",
        ),
        ("STOP RUN.", "CLOSE CUST 00"),
    ],
    reads: &[THREE_ARE_READ, THREE_ARE_READ],
    astray: &[],
    refused: REFUSED,
};

/// Each change is refused: a value that is there already, or a record that is not there.
pub const REFUSED_BY_KEY: Worked = Worked {
    heading: CUSTOMERS,
    file: "CUST",
    assigned: "cust.dat",
    before: THREE_CITIES,
    steps: &[
        ("OPEN I-O CUST.", "OPEN I-O CUST 00"),
        ("MOVE 1 TO CUST-ID. MOVE \"ROTH\" TO CUST-NAME.", ""),
        ("WRITE CUST-REC.", "WRITE CUST 22"),
        ("MOVE 4 TO CUST-ID. REWRITE CUST-REC.", "REWRITE CUST 23"),
        ("DELETE CUST.", "DELETE CUST 23"),
        (
            "MOVE \"SVEN\" TO CUST-NAME. WRITE CUST-REC.",
            "WRITE CUST 22",
        ),
        ("MOVE 2 TO CUST-ID. REWRITE CUST-REC.", "REWRITE CUST 22"),
        ("READ CUST.", "READ CUST 00 [0002SMITH BERGEN]"),
        ("STOP RUN.", "CLOSE CUST 00"),
    ],
    reads: &[THREE_ARE_READ, THREE_ARE_READ],
    astray: &[],
    refused: REFUSED,
};

/// A record is read by a unique key and deleted; a new record of the same value does not come next.
pub const A_NEW_TWIN: Worked = Worked {
    heading: CUSTOMERS,
    file: "CUST",
    assigned: "cust.dat",
    before: THREE_CITIES,
    steps: &[
        ("OPEN I-O CUST.", "OPEN I-O CUST 00"),
        ("MOVE \"SMITH\" TO CUST-NAME.", ""),
        (
            "READ CUST KEY IS CUST-NAME.",
            "READ CUST 00 [0002SMITH BERGEN]",
        ),
        ("DELETE CUST.", "DELETE CUST 00"),
        ("MOVE 9 TO CUST-ID. MOVE \"SMITH\" TO CUST-NAME.", ""),
        (
            "MOVE \"MOSS\" TO CUST-CITY. WRITE CUST-REC.",
            "WRITE CUST 00",
        ),
        ("READ CUST NEXT.", "READ NEXT CUST 00 [0003SVEN  TROMSO]"),
        ("READ CUST NEXT.", "READ NEXT CUST 10"),
        ("STOP RUN.", "CLOSE CUST 00"),
    ],
    reads: &[
        THREE_ARE_READ,
        &[
            ("OPEN INPUT CUST.", "OPEN INPUT CUST 00"),
            ("READ CUST NEXT.", "READ NEXT CUST 00 [0001ADAMS OSLO  ]"),
            ("READ CUST NEXT.", "READ NEXT CUST 00 [0003SVEN  TROMSO]"),
            ("READ CUST NEXT.", "READ NEXT CUST 00 [0009SMITH MOSS  ]"),
            ("READ CUST NEXT.", "READ NEXT CUST 10"),
            ("MOVE \"SMITH\" TO CUST-NAME.", ""),
            (
                "READ CUST KEY CUST-NAME.",
                "READ CUST 00 [0009SMITH MOSS  ]",
            ),
            ("MOVE LOW-VALUES TO CUST-CITY.", ""),
            ("START CUST KEY NOT LESS CUST-CITY.", "START CUST 00"),
            ("READ CUST NEXT.", "READ NEXT CUST 00 [0009SMITH MOSS  ]"),
            ("READ CUST NEXT.", "READ NEXT CUST 00 [0001ADAMS OSLO  ]"),
            ("READ CUST NEXT.", "READ NEXT CUST 00 [0003SVEN  TROMSO]"),
            ("READ CUST NEXT.", "READ NEXT CUST 10"),
            ("STOP RUN.", "CLOSE CUST 00"),
        ],
    ],
    astray: &[],
    refused: REFUSED,
};

/// Makes a file of one customer.
const ROTH_IS_WRITTEN: &[Step] = &[
    ("OPEN OUTPUT CUST.", "OPEN OUTPUT CUST 00"),
    ("MOVE 7 TO CUST-ID. MOVE \"ROTH\" TO CUST-NAME.", ""),
    (
        "MOVE \"MOSS\" TO CUST-CITY. WRITE CUST-REC.",
        "WRITE CUST 00",
    ),
    ("STOP RUN.", "CLOSE CUST 00"),
];

const ROTH_IS_READ: &[Step] = &[
    ("OPEN INPUT CUST.", "OPEN INPUT CUST 00"),
    ("READ CUST NEXT.", "READ NEXT CUST 00 [0007ROTH  MOSS  ]"),
    ("READ CUST NEXT.", "READ NEXT CUST 10"),
    ("MOVE \"ROTH\" TO CUST-NAME.", ""),
    (
        "READ CUST KEY CUST-NAME.",
        "READ CUST 00 [0007ROTH  MOSS  ]",
    ),
    ("STOP RUN.", "CLOSE CUST 00"),
];

/// A file is replaced.
pub const REPLACED: Worked = Worked {
    heading: CUSTOMERS,
    file: "CUST",
    assigned: "cust.dat",
    before: THREE_CITIES,
    steps: ROTH_IS_WRITTEN,
    reads: &[THREE_ARE_READ, ROTH_IS_READ],
    astray: &[],
    refused: REFUSED,
};

/// A file that is refused is replaced. No deck makes it.
pub const REPLACED_WHERE_REFUSED: Worked = Worked {
    heading: CUSTOMERS,
    file: "CUST",
    assigned: "cust.dat",
    before: &[],
    steps: ROTH_IS_WRITTEN,
    reads: &[REFUSED, ROTH_IS_READ],
    astray: &[],
    refused: REFUSED,
};

/// A read fails, where the first READ NEXT has answered 30.
pub const READ_THAT_FAILS: &[Step] = &[
    ("OPEN INPUT CUST.", "OPEN INPUT CUST 00"),
    ("READ CUST NEXT.", "READ NEXT CUST 30"),
    ("READ CUST NEXT.", "READ NEXT CUST 46"),
    (
        "MOVE 2 TO CUST-ID. READ CUST.",
        "READ CUST 00 [0002SMITH BERGEN]",
    ),
    ("CLOSE CUST.", "CLOSE CUST 00"),
    ("STOP RUN.", ""),
];

/// A write fails within the WRITE.
pub const WRITE_THAT_FAILS: &[Step] = &[
    ("OPEN I-O CUST.", "OPEN I-O CUST 00"),
    ("MOVE 4 TO CUST-ID. MOVE \"ROTH\" TO CUST-NAME.", ""),
    (
        "MOVE \"MOSS\" TO CUST-CITY. WRITE CUST-REC.",
        "WRITE CUST 30",
    ),
    ("READ CUST.", "READ CUST 92"),
    ("OPEN INPUT CUST.", "OPEN INPUT CUST 41"),
    ("CLOSE CUST.", "CLOSE CUST 30"),
    ("STOP RUN.", ""),
];

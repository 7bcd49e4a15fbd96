//! A deck of two files, whose statements stand among one another, each beside the line that it gives in the
//! transcript.

use crate::decks::{Step, Worked};

const TWO_FILES: &str = "ENVIRONMENT DIVISION.
INPUT-OUTPUT SECTION.
FILE-CONTROL.
    SELECT CUST ASSIGN TO \"cust.dat\"
        ORGANIZATION IS INDEXED
        ACCESS MODE IS DYNAMIC
        RECORD KEY IS CUST-ID
        ALTERNATE RECORD KEY IS CUST-CITY WITH DUPLICATES.
    SELECT STOCK ASSIGN TO \"stock.dat\"
        ORGANIZATION IS INDEXED
        RECORD KEY IS STOCK-ID.
DATA DIVISION.
FILE SECTION.
FD CUST.
01 CUST-REC.
    05 CUST-ID PIC 9(4).
    05 CUST-CITY PIC X(6).
FD STOCK.
01 STOCK-REC.
    05 STOCK-ID PIC 9(4).
PROCEDURE DIVISION.
";

const STEPS: &[Step] = &[
    ("OPEN OUTPUT CUST.", "OPEN OUTPUT CUST 00"),
    ("OPEN OUTPUT STOCK.", "OPEN OUTPUT STOCK 00"),
    ("MOVE 1 TO CUST-ID. MOVE \"OSLO\" TO CUST-CITY.", ""),
    ("WRITE CUST-REC.", "WRITE CUST 00"),
    ("MOVE 10 TO STOCK-ID.", ""),
    ("WRITE STOCK-REC.", "WRITE STOCK 00"),
    ("MOVE 2 TO CUST-ID.", ""),
    ("WRITE CUST-REC.", "WRITE CUST 02"),
    ("CLOSE CUST.", "CLOSE CUST 00"),
    ("MOVE 20 TO STOCK-ID.", ""),
    ("WRITE STOCK-REC.", "WRITE STOCK 00"),
    ("OPEN I-O CUST.", "OPEN I-O CUST 00"),
    ("CLOSE STOCK.", "CLOSE STOCK 00"),
    ("MOVE 1 TO CUST-ID.", ""),
    ("DELETE CUST.", "DELETE CUST 00"),
    ("OPEN INPUT STOCK.", "OPEN INPUT STOCK 00"),
    ("READ STOCK.", "READ NEXT STOCK 00 [0010]"),
    ("READ CUST NEXT.", "READ NEXT CUST 00 [0002OSLO  ]"),
    ("READ STOCK.", "READ NEXT STOCK 00 [0020]"),
    ("CLOSE CUST.", "CLOSE CUST 00"),
    ("CLOSE STOCK.", "CLOSE STOCK 00"),
    ("STOP RUN.", ""),
];

const STOCK_IS_READ: &[Step] = &[
    ("OPEN INPUT STOCK.", "OPEN INPUT STOCK 00"),
    ("READ STOCK.", "READ NEXT STOCK 00 [0010]"),
    ("READ STOCK.", "READ NEXT STOCK 00 [0020]"),
    ("READ STOCK.", "READ NEXT STOCK 10"),
    ("CLOSE STOCK.", "CLOSE STOCK 00"),
];

/// The deck, as each of its files meets it.
pub const SIDE_BY_SIDE: &[Worked] = &[
    Worked {
        heading: TWO_FILES,
        file: "CUST",
        assigned: "cust.dat",
        before: &[],
        steps: STEPS,
        reads: &[
            &[("OPEN INPUT CUST.", "OPEN INPUT CUST 35")],
            &[
                ("OPEN INPUT CUST.", "OPEN INPUT CUST 00"),
                ("READ CUST NEXT.", "READ NEXT CUST 00 [0001OSLO  ]"),
                ("READ CUST NEXT.", "READ NEXT CUST 00 [0002OSLO  ]"),
                ("READ CUST NEXT.", "READ NEXT CUST 10"),
                ("READ CUST KEY CUST-CITY.", "READ CUST 02 [0001OSLO  ]"),
                ("READ CUST NEXT.", "READ NEXT CUST 00 [0002OSLO  ]"),
                ("CLOSE CUST.", "CLOSE CUST 00"),
            ],
            &[
                ("OPEN INPUT CUST.", "OPEN INPUT CUST 00"),
                ("READ CUST NEXT.", "READ NEXT CUST 00 [0002OSLO  ]"),
                ("READ CUST NEXT.", "READ NEXT CUST 10"),
                ("READ CUST KEY CUST-CITY.", "READ CUST 00 [0002OSLO  ]"),
                ("CLOSE CUST.", "CLOSE CUST 00"),
            ],
        ],
        astray: &[],
        refused: &[("OPEN INPUT CUST.", "OPEN INPUT CUST 91")],
    },
    Worked {
        heading: TWO_FILES,
        file: "STOCK",
        assigned: "stock.dat",
        before: &[],
        steps: STEPS,
        reads: &[
            &[("OPEN INPUT STOCK.", "OPEN INPUT STOCK 35")],
            STOCK_IS_READ,
            STOCK_IS_READ,
        ],
        astray: &[],
        refused: &[("OPEN INPUT STOCK.", "OPEN INPUT STOCK 91")],
    },
];

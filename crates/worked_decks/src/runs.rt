//! Decks that are run one after another over the same files, each statement beside the line that it gives in
//! the transcript.

use crate::customers::{CUSTOMERS, THREE_CITIES};
use crate::decks::Runs;
use crate::one_city::ONE_CITY;
use crate::plain_customers::{ONE_IS_WRITTEN, PLAIN};

/// Customers that are read and written in order of their keys.
const IN_ORDER: &str = "ENVIRONMENT DIVISION.
INPUT-OUTPUT SECTION.
FILE-CONTROL.
    SELECT CUST ASSIGN TO \"cust.dat\"
        ORGANIZATION IS INDEXED
        RECORD KEY IS CUST-ID
        ALTERNATE RECORD KEY IS CUST-NAME
        ALTERNATE RECORD KEY IS CUST-CITY WITH DUPLICATES.
DATA DIVISION.
FILE SECTION.
FD CUST.
01 CUST-REC.
    05 CUST-ID PIC 9(4).
    05 CUST-NAME.
        10 NAME-1 PIC X(1).
        10 NAME-REST PIC X(5).
    05 CUST-CITY PIC X(6).
PROCEDURE DIVISION.
";

/// A file that need not be there.
const OPTIONAL: &str = "ENVIRONMENT DIVISION.
INPUT-OUTPUT SECTION.
FILE-CONTROL.
    SELECT OPTIONAL CUST ASSIGN TO \"cust.dat\"
        ORGANIZATION IS INDEXED
        ACCESS MODE IS DYNAMIC
        RECORD KEY IS CUST-ID
        ALTERNATE RECORD KEY IS CUST-NAME
        ALTERNATE RECORD KEY IS CUST-CITY WITH DUPLICATES.
DATA DIVISION.
FILE SECTION.
FD CUST.
01 CUST-REC.
    05 CUST-ID PIC 9(4).
    05 CUST-NAME.
        10 NAME-1 PIC X(1).
        10 NAME-REST PIC X(5).
    05 CUST-CITY PIC X(6).
PROCEDURE DIVISION.
";

/// Customers whose records have 10 to 16 bytes, without a key in the last 6.
const VARYING: &str = "ENVIRONMENT DIVISION.
INPUT-OUTPUT SECTION.
FILE-CONTROL.
    SELECT CUST ASSIGN TO \"cust.dat\"
        ORGANIZATION IS INDEXED
        ACCESS MODE IS DYNAMIC
        RECORD KEY IS CUST-ID
        ALTERNATE RECORD KEY IS CUST-NAME.
DATA DIVISION.
FILE SECTION.
FD CUST
    RECORD IS VARYING IN SIZE FROM 10 TO 16 CHARACTERS DEPENDING ON CUST-LEN.
01 CUST-REC.
    05 CUST-ID PIC 9(4).
    05 CUST-NAME.
        10 NAME-1 PIC X(1).
        10 NAME-REST PIC X(5).
    05 CUST-CITY PIC X(6).
WORKING-STORAGE SECTION.
77 CUST-LEN PIC 9(2).
PROCEDURE DIVISION.
";

/// Customers, and a file of stock that need not be there.
const WITH_STOCK: &str = "ENVIRONMENT DIVISION.
INPUT-OUTPUT SECTION.
FILE-CONTROL.
    SELECT CUST ASSIGN TO \"cust.dat\"
        ORGANIZATION IS INDEXED
        ACCESS MODE IS DYNAMIC
        RECORD KEY IS CUST-ID
        ALTERNATE RECORD KEY IS CUST-NAME
        ALTERNATE RECORD KEY IS CUST-CITY WITH DUPLICATES.
    SELECT OPTIONAL STOCK ASSIGN TO \"stock.dat\"
        ORGANIZATION IS INDEXED
        ACCESS MODE IS DYNAMIC
        RECORD KEY IS STOCK-ID.
DATA DIVISION.
FILE SECTION.
FD CUST.
01 CUST-REC.
    05 CUST-ID PIC 9(4).
    05 CUST-NAME PIC X(6).
    05 CUST-CITY PIC X(6).
FD STOCK.
01 STOCK-REC.
    05 STOCK-ID PIC 9(4).
PROCEDURE DIVISION.
";

/// The plain customers, whose records all have 10 bytes, as a record of varying length.
const FROM_10_TO_10: &str = "ENVIRONMENT DIVISION.
INPUT-OUTPUT SECTION.
FILE-CONTROL.
    SELECT CUST ASSIGN TO \"cust.dat\"
        ORGANIZATION IS INDEXED
        RECORD KEY IS CUST-ID.
DATA DIVISION.
FILE SECTION.
FD CUST
    RECORD IS VARYING IN SIZE FROM 10 TO 10 CHARACTERS DEPENDING ON CUST-LEN.
01 CUST-REC.
    05 CUST-ID PIC 9(4).
    05 CUST-TEXT PIC X(6).
WORKING-STORAGE SECTION.
77 CUST-LEN PIC 9(2).
PROCEDURE DIVISION.
";

/// As a record of 4 to 10 bytes.
const FROM_4_TO_10: &str = "ENVIRONMENT DIVISION.
INPUT-OUTPUT SECTION.
FILE-CONTROL.
    SELECT CUST ASSIGN TO \"cust.dat\"
        ORGANIZATION IS INDEXED
        RECORD KEY IS CUST-ID.
DATA DIVISION.
FILE SECTION.
FD CUST
    RECORD IS VARYING IN SIZE FROM 4 TO 10 CHARACTERS DEPENDING ON CUST-LEN.
01 CUST-REC.
    05 CUST-ID PIC 9(4).
    05 CUST-TEXT PIC X(6).
WORKING-STORAGE SECTION.
77 CUST-LEN PIC 9(2).
PROCEDURE DIVISION.
";

/// Records are added with OPEN EXTEND, and a prime key that does not rise is refused.
pub const EXTENDED_IN_ORDER: Runs = Runs {
    decks: &[(
        IN_ORDER,
        &[
            ("OPEN OUTPUT CUST.", "OPEN OUTPUT CUST 00"),
            (
                "MOVE 1 TO CUST-ID. MOVE \"ADAMS\" TO CUST-NAME. MOVE \"OSLO\" TO CUST-CITY.",
                "",
            ),
            ("WRITE CUST-REC.", "WRITE CUST 00"),
            (
                "MOVE 5 TO CUST-ID. MOVE \"SMITH\" TO CUST-NAME. MOVE \"BERGEN\" TO CUST-CITY.",
                "",
            ),
            ("WRITE CUST-REC.", "WRITE CUST 00"),
            ("CLOSE CUST.", "CLOSE CUST 00"),
            ("OPEN EXTEND CUST.", "OPEN EXTEND CUST 00"),
            (
                "MOVE 5 TO CUST-ID. MOVE \"SVEN\" TO CUST-NAME. MOVE \"TROMSO\" TO CUST-CITY.",
                "",
            ),
            ("WRITE CUST-REC.", "WRITE CUST 21"),
            ("MOVE 6 TO CUST-ID.", ""),
            ("WRITE CUST-REC.", "WRITE CUST 00"),
            ("STOP RUN.", "CLOSE CUST 00"),
        ],
    )],
};

/// An empty file has no first record.
pub const AN_EMPTY_FILE: Runs = Runs {
    decks: &[(
        CUSTOMERS,
        &[
            ("OPEN OUTPUT CUST.", "OPEN OUTPUT CUST 00"),
            ("CLOSE CUST.", "CLOSE CUST 00"),
            ("OPEN INPUT CUST.", "OPEN INPUT CUST 00"),
            ("READ CUST NEXT.", "READ NEXT CUST 10"),
            ("READ CUST NEXT.", "READ NEXT CUST 46"),
            ("STOP RUN.", "CLOSE CUST 00"),
        ],
    )],
};

/// Duplicates come in the order of writing.
pub const ORDER_OF_WRITING: Runs = Runs {
    decks: &[
        (CUSTOMERS, ONE_CITY),
        (
            CUSTOMERS,
            &[
                ("OPEN INPUT CUST.", "OPEN INPUT CUST 00"),
                ("MOVE \"OSLO\" TO CUST-CITY.", ""),
                (
                    "READ CUST KEY IS CUST-CITY.",
                    "READ CUST 02 [0003CCC   OSLO  ]",
                ),
                ("READ CUST NEXT.", "READ NEXT CUST 02 [0001AAA   OSLO  ]"),
                ("READ CUST NEXT.", "READ NEXT CUST 00 [0002BBB   OSLO  ]"),
                ("READ CUST NEXT.", "READ NEXT CUST 10"),
                ("STOP RUN.", "CLOSE CUST 00"),
            ],
        ),
    ],
};

/// START compares as many leftmost bytes as its operand has.
pub const STARTED_BY_A_LETTER: Runs = Runs {
    decks: &[
        (CUSTOMERS, THREE_CITIES),
        (
            CUSTOMERS,
            &[
                ("OPEN INPUT CUST.", "OPEN INPUT CUST 00"),
                ("MOVE \"S\" TO NAME-1.", ""),
                ("START CUST KEY NOT LESS NAME-1.", "START CUST 00"),
                ("READ CUST NEXT.", "READ NEXT CUST 00 [0002SMITH BERGEN]"),
                ("MOVE \"T\" TO NAME-1.", ""),
                ("START CUST KEY EQUAL NAME-1.", "START CUST 23"),
                ("READ CUST NEXT.", "READ NEXT CUST 46"),
                ("STOP RUN.", "CLOSE CUST 00"),
            ],
        ),
    ],
};

/// START past the last record is refused, and not less than LOW-VALUES stands at the first.
pub const STARTED_PAST_THE_END: Runs = Runs {
    decks: &[
        (CUSTOMERS, THREE_CITIES),
        (
            CUSTOMERS,
            &[
                ("OPEN INPUT CUST.", "OPEN INPUT CUST 00"),
                ("MOVE 9999 TO CUST-ID.", ""),
                ("START CUST KEY GREATER THAN CUST-ID.", "START CUST 23"),
                ("MOVE LOW-VALUES TO CUST-NAME.", ""),
                ("START CUST KEY NOT LESS CUST-NAME.", "START CUST 00"),
                ("READ CUST NEXT.", "READ NEXT CUST 00 [0001ADAMS OSLO  ]"),
                ("STOP RUN.", "CLOSE CUST 00"),
            ],
        ),
    ],
};

/// A new duplicate comes next.
pub const A_NEW_DUPLICATE: Runs = Runs {
    decks: &[
        (CUSTOMERS, ONE_CITY),
        (
            CUSTOMERS,
            &[
                ("OPEN I-O CUST.", "OPEN I-O CUST 00"),
                ("MOVE \"OSLO\" TO CUST-CITY.", ""),
                (
                    "READ CUST KEY IS CUST-CITY.",
                    "READ CUST 02 [0003CCC   OSLO  ]",
                ),
                ("READ CUST NEXT.", "READ NEXT CUST 02 [0001AAA   OSLO  ]"),
                ("READ CUST NEXT.", "READ NEXT CUST 00 [0002BBB   OSLO  ]"),
                (
                    "MOVE 9 TO CUST-ID. MOVE \"ZZZ\" TO CUST-NAME. MOVE \"OSLO\" TO CUST-CITY.",
                    "",
                ),
                ("WRITE CUST-REC.", "WRITE CUST 02"),
                ("READ CUST NEXT.", "READ NEXT CUST 00 [0009ZZZ   OSLO  ]"),
                ("READ CUST NEXT.", "READ NEXT CUST 10"),
                ("STOP RUN.", "CLOSE CUST 00"),
            ],
        ),
    ],
};

/// REWRITE and DELETE want a READ directly before in sequential access.
pub const CHANGED_IN_SEQUENCE: Runs = Runs {
    decks: &[
        (CUSTOMERS, THREE_CITIES),
        (
            IN_ORDER,
            &[
                ("OPEN I-O CUST.", "OPEN I-O CUST 00"),
                ("READ CUST.", "READ NEXT CUST 00 [0001ADAMS OSLO  ]"),
                ("MOVE 7 TO CUST-ID.", ""),
                ("REWRITE CUST-REC.", "REWRITE CUST 21"),
                ("DELETE CUST.", "DELETE CUST 43"),
                ("READ CUST.", "READ NEXT CUST 00 [0002SMITH BERGEN]"),
                ("DELETE CUST.", "DELETE CUST 00"),
                ("DELETE CUST.", "DELETE CUST 43"),
                ("READ CUST.", "READ NEXT CUST 00 [0003SVEN  TROMSO]"),
                ("STOP RUN.", "CLOSE CUST 00"),
            ],
        ),
    ],
};

/// An optional file that is absent is created by OPEN I-O, and the next run finds it.
pub const AN_OPTIONAL_FILE: Runs = Runs {
    decks: &[
        (
            OPTIONAL,
            &[
                ("OPEN INPUT CUST.", "OPEN INPUT CUST 05"),
                ("READ CUST NEXT.", "READ NEXT CUST 10"),
                ("READ CUST NEXT.", "READ NEXT CUST 46"),
                ("START CUST.", "START CUST 23"),
                ("CLOSE CUST.", "CLOSE CUST 00"),
                ("OPEN I-O CUST.", "OPEN I-O CUST 05"),
                ("CLOSE CUST.", "CLOSE CUST 00"),
                ("STOP RUN.", ""),
            ],
        ),
        (
            OPTIONAL,
            &[
                ("OPEN INPUT CUST.", "OPEN INPUT CUST 00"),
                ("READ CUST NEXT.", "READ NEXT CUST 10"),
                ("STOP RUN.", "CLOSE CUST 00"),
            ],
        ),
    ],
};

/// What each verb answers in the wrong state.
pub const IN_THE_WRONG_STATE: Runs = Runs {
    decks: &[(
        CUSTOMERS,
        &[
            ("OPEN INPUT CUST.", "OPEN INPUT CUST 35"),
            ("CLOSE CUST.", "CLOSE CUST 42"),
            ("READ CUST NEXT.", "READ NEXT CUST 47"),
            ("OPEN OUTPUT CUST.", "OPEN OUTPUT CUST 00"),
            ("OPEN INPUT CUST.", "OPEN INPUT CUST 41"),
            ("READ CUST NEXT.", "READ NEXT CUST 47"),
            ("CLOSE CUST.", "CLOSE CUST 00"),
            ("CLOSE CUST.", "CLOSE CUST 42"),
            ("OPEN INPUT CUST.", "OPEN INPUT CUST 00"),
            ("WRITE CUST-REC.", "WRITE CUST 48"),
            ("REWRITE CUST-REC.", "REWRITE CUST 49"),
            ("DELETE CUST.", "DELETE CUST 49"),
            ("CLOSE CUST WITH LOCK.", "CLOSE CUST 00"),
            ("OPEN INPUT CUST.", "OPEN INPUT CUST 38"),
            ("START CUST.", "START CUST 47"),
            ("STOP RUN.", ""),
        ],
    )],
};

/// A START on one file leaves the position of the other.
pub const BESIDE_STOCK: Runs = Runs {
    decks: &[
        (CUSTOMERS, THREE_CITIES),
        (
            WITH_STOCK,
            &[
                ("OPEN INPUT CUST.", "OPEN INPUT CUST 00"),
                ("OPEN INPUT STOCK.", "OPEN INPUT STOCK 05"),
                ("READ CUST NEXT.", "READ NEXT CUST 00 [0001ADAMS OSLO  ]"),
                ("START STOCK.", "START STOCK 23"),
                ("READ STOCK NEXT.", "READ NEXT STOCK 46"),
                ("READ CUST NEXT.", "READ NEXT CUST 00 [0002SMITH BERGEN]"),
                ("CLOSE CUST.", "CLOSE CUST 00"),
                ("STOP RUN.", "CLOSE STOCK 00"),
            ],
        ),
    ],
};

/// A record is as long as the item says, from the least length on.
pub const A_SHORTER_RECORD: Runs = Runs {
    decks: &[(
        VARYING,
        &[
            ("OPEN OUTPUT CUST.", "OPEN OUTPUT CUST 00"),
            (
                "MOVE 1 TO CUST-ID. MOVE \"SMITH\" TO CUST-NAME. MOVE \"OSLO\" TO CUST-CITY.",
                "",
            ),
            ("MOVE 9 TO CUST-LEN.", ""),
            ("WRITE CUST-REC.", "WRITE CUST 44"),
            ("MOVE 10 TO CUST-LEN.", ""),
            ("WRITE CUST-REC.", "WRITE CUST 00"),
            ("CLOSE CUST.", "CLOSE CUST 00"),
            ("OPEN INPUT CUST.", "OPEN INPUT CUST 00"),
            ("READ CUST NEXT.", "READ NEXT CUST 00 [0001SMITH ]"),
            ("STOP RUN.", "CLOSE CUST 00"),
        ],
    )],
};

/// Numbers are cut on the left, and what does not print stands in hexadecimal.
pub const LOW_AND_HIGH_VALUES: Runs = Runs {
    decks: &[(
        CUSTOMERS,
        &[
            ("OPEN OUTPUT CUST.", "OPEN OUTPUT CUST 00"),
            (
                "MOVE 12340007 TO CUST-ID. MOVE HIGH-VALUES TO CUST-NAME.",
                "",
            ),
            ("MOVE \"A\\B\" TO CUST-CITY.", ""),
            ("WRITE CUST-REC.", "WRITE CUST 00"),
            ("CLOSE CUST.", "CLOSE CUST 00"),
            ("OPEN INPUT CUST.", "OPEN INPUT CUST 00"),
            (
                "READ CUST.",
                "READ CUST 00 [0007\\ff\\ff\\ff\\ff\\ff\\ffA\\5cB   ]",
            ),
            ("STOP RUN.", "CLOSE CUST 00"),
        ],
    )],
};

/// READ sets the length and leaves the rest of the area, and REWRITE may change the length.
pub const CHANGED_LENGTHS: Runs = Runs {
    decks: &[(
        VARYING,
        &[
            ("OPEN OUTPUT CUST.", "OPEN OUTPUT CUST 00"),
            (
                "MOVE 1 TO CUST-ID. MOVE \"SMITH\" TO CUST-NAME. MOVE \"OSLO\" TO CUST-CITY.",
                "",
            ),
            ("WRITE CUST-REC.", "WRITE CUST 44"),
            ("MOVE 16 TO CUST-LEN.", ""),
            ("WRITE CUST-REC.", "WRITE CUST 00"),
            (
                "MOVE 2 TO CUST-ID. MOVE \"SVEN\" TO CUST-NAME. MOVE \"MOSS\" TO CUST-CITY.",
                "",
            ),
            ("MOVE 10 TO CUST-LEN.", ""),
            ("WRITE CUST-REC.", "WRITE CUST 00"),
            ("CLOSE CUST.", "CLOSE CUST 00"),
            ("OPEN I-O CUST.", "OPEN I-O CUST 00"),
            ("READ CUST NEXT.", "READ NEXT CUST 00 [0001SMITH OSLO  ]"),
            ("READ CUST NEXT.", "READ NEXT CUST 00 [0002SVEN  ]"),
            ("MOVE 3 TO CUST-ID. MOVE \"ROTH\" TO CUST-NAME.", ""),
            ("WRITE CUST-REC.", "WRITE CUST 00"),
            ("READ CUST.", "READ CUST 00 [0003ROTH  ]"),
            ("MOVE 16 TO CUST-LEN.", ""),
            ("REWRITE CUST-REC.", "REWRITE CUST 00"),
            ("READ CUST.", "READ CUST 00 [0003ROTH  OSLO  ]"),
            ("MOVE 17 TO CUST-LEN.", ""),
            ("REWRITE CUST-REC.", "REWRITE CUST 44"),
            ("STOP RUN.", "CLOSE CUST 00"),
        ],
    )],
};

/// A file of one length is opened by a description from that length to it, and by no other.
pub const ONE_LENGTH: Runs = Runs {
    decks: &[
        (PLAIN, ONE_IS_WRITTEN),
        (
            FROM_10_TO_10,
            &[
                ("OPEN INPUT CUST.", "OPEN INPUT CUST 00"),
                ("STOP RUN.", "CLOSE CUST 00"),
            ],
        ),
        (FROM_4_TO_10, &[("OPEN INPUT CUST.", "OPEN INPUT CUST 39")]),
    ],
};

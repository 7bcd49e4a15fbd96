//! A deck of a payroll: staff with a number, and a department that several have.

use crate::decks::Worked;

const STAFF: &str = "IDENTIFICATION DIVISION.
PROGRAM-ID. PAYROLL.
ENVIRONMENT DIVISION.
INPUT-OUTPUT SECTION.
FILE-CONTROL.
    SELECT STAFF ASSIGN TO \"staff.dat\"
        ORGANIZATION IS INDEXED
        ACCESS MODE IS DYNAMIC
        RECORD KEY IS STAFF-NUMBER
        ALTERNATE RECORD KEY IS DEPARTMENT WITH DUPLICATES.
DATA DIVISION.
FILE SECTION.
FD STAFF.
01 STAFF-RECORD.
    05 STAFF-NUMBER PIC 9(5).
    05 STAFF-NAME PIC X(8).
    05 DEPARTMENT PIC X(5).
    05 MONTHLY-PAY PIC 9(6).
PROCEDURE DIVISION.
";

pub const PAYROLL: Worked = Worked {
    heading: STAFF,
    file: "STAFF",
    assigned: "staff.dat",
    before: &[],
    steps: &[
        ("OPEN OUTPUT STAFF.", "OPEN OUTPUT STAFF 00"),
        (
            "MOVE 1042 TO STAFF-NUMBER. MOVE \"OKAFOR\" TO STAFF-NAME.",
            "",
        ),
        (
            "MOVE \"SALES\" TO DEPARTMENT. MOVE 310000 TO MONTHLY-PAY.",
            "",
        ),
        ("WRITE STAFF-RECORD.", "WRITE STAFF 00"),
        (
            "MOVE 1007 TO STAFF-NUMBER. MOVE \"LIND\" TO STAFF-NAME.",
            "",
        ),
        ("MOVE 298000 TO MONTHLY-PAY.", ""),
        ("WRITE STAFF-RECORD.", "WRITE STAFF 02"),
        (
            "MOVE 1013 TO STAFF-NUMBER. MOVE \"BAUER\" TO STAFF-NAME.",
            "",
        ),
        (
            "MOVE \"STORE\" TO DEPARTMENT. MOVE 275000 TO MONTHLY-PAY.",
            "",
        ),
        ("WRITE STAFF-RECORD.", "WRITE STAFF 00"),
        (
            "MOVE 1007 TO STAFF-NUMBER. WRITE STAFF-RECORD.",
            "WRITE STAFF 22",
        ),
        ("CLOSE STAFF.", "CLOSE STAFF 00"),
        ("OPEN I-O STAFF.", "OPEN I-O STAFF 00"),
        ("MOVE \"SALES\" TO DEPARTMENT.", ""),
        ("START STAFF KEY IS EQUAL TO DEPARTMENT.", "START STAFF 00"),
        (
            "READ STAFF NEXT RECORD.",
            "READ NEXT STAFF 02 [01042OKAFOR  SALES310000]",
        ),
        (
            "READ STAFF NEXT RECORD.",
            "READ NEXT STAFF 00 [01007LIND    SALES298000]",
        ),
        (
            "READ STAFF NEXT RECORD.",
            "READ NEXT STAFF 00 [01013BAUER   STORE275000]",
        ),
        ("READ STAFF NEXT RECORD.", "READ NEXT STAFF 10"),
        ("MOVE 1007 TO STAFF-NUMBER.", ""),
        (
            "READ STAFF RECORD.",
            "READ STAFF 00 [01007LIND    SALES298000]",
        ),
        (
            "MOVE 305000 TO MONTHLY-PAY. REWRITE STAFF-RECORD.",
            "REWRITE STAFF 00",
        ),
        ("MOVE 1042 TO STAFF-NUMBER.", ""),
        (
            "READ STAFF RECORD.",
            "READ STAFF 00 [01042OKAFOR  SALES310000]",
        ),
        (
            "MOVE \"STORE\" TO DEPARTMENT. REWRITE STAFF-RECORD.",
            "REWRITE STAFF 02",
        ),
        (
            "READ STAFF RECORD KEY IS DEPARTMENT.",
            "READ STAFF 02 [01013BAUER   STORE275000]",
        ),
        (
            "READ STAFF NEXT RECORD.",
            "READ NEXT STAFF 00 [01042OKAFOR  STORE310000]",
        ),
        (
            "MOVE 1013 TO STAFF-NUMBER. DELETE STAFF RECORD.",
            "DELETE STAFF 00",
        ),
        ("READ STAFF RECORD.", "READ STAFF 23"),
        ("CLOSE STAFF.", "CLOSE STAFF 00"),
        ("STOP RUN.", ""),
    ],
    reads: &[
        &[("OPEN INPUT STAFF.", "OPEN INPUT STAFF 35")],
        &[
            ("OPEN INPUT STAFF.", "OPEN INPUT STAFF 00"),
            (
                "READ STAFF NEXT.",
                "READ NEXT STAFF 00 [01007LIND    SALES298000]",
            ),
            (
                "READ STAFF NEXT.",
                "READ NEXT STAFF 00 [01013BAUER   STORE275000]",
            ),
            (
                "READ STAFF NEXT.",
                "READ NEXT STAFF 00 [01042OKAFOR  SALES310000]",
            ),
            ("READ STAFF NEXT.", "READ NEXT STAFF 10"),
            ("MOVE \"SALES\" TO DEPARTMENT.", ""),
            (
                "READ STAFF KEY DEPARTMENT.",
                "READ STAFF 02 [01042OKAFOR  SALES310000]",
            ),
            (
                "READ STAFF NEXT.",
                "READ NEXT STAFF 00 [01007LIND    SALES298000]",
            ),
            (
                "READ STAFF NEXT.",
                "READ NEXT STAFF 00 [01013BAUER   STORE275000]",
            ),
            ("READ STAFF NEXT.", "READ NEXT STAFF 10"),
            ("STOP RUN.", "CLOSE STAFF 00"),
        ],
        &[
            ("OPEN INPUT STAFF.", "OPEN INPUT STAFF 00"),
            (
                "READ STAFF NEXT.",
                "READ NEXT STAFF 00 [01007LIND    SALES305000]",
            ),
            (
                "READ STAFF NEXT.",
                "READ NEXT STAFF 00 [01042OKAFOR  STORE310000]",
            ),
            ("READ STAFF NEXT.", "READ NEXT STAFF 10"),
            ("MOVE \"SALES\" TO DEPARTMENT.", ""),
            (
                "READ STAFF KEY DEPARTMENT.",
                "READ STAFF 00 [01007LIND    SALES305000]",
            ),
            (
                "READ STAFF NEXT.",
                "READ NEXT STAFF 00 [01042OKAFOR  STORE310000]",
            ),
            ("READ STAFF NEXT.", "READ NEXT STAFF 10"),
            ("STOP RUN.", "CLOSE STAFF 00"),
        ],
    ],
    astray: &[
        // Number 1007 was not read, and so the record area had BAUER.
        &[
            ("OPEN INPUT STAFF.", "OPEN INPUT STAFF 00"),
            (
                "READ STAFF NEXT.",
                "READ NEXT STAFF 00 [01007BAUER   STORE305000]",
            ),
            (
                "READ STAFF NEXT.",
                "READ NEXT STAFF 00 [01042OKAFOR  STORE310000]",
            ),
            ("READ STAFF NEXT.", "READ NEXT STAFF 10"),
            ("MOVE \"STORE\" TO DEPARTMENT.", ""),
            (
                "READ STAFF KEY DEPARTMENT.",
                "READ STAFF 02 [01007BAUER   STORE305000]",
            ),
            (
                "READ STAFF NEXT.",
                "READ NEXT STAFF 00 [01042OKAFOR  STORE310000]",
            ),
            ("STOP RUN.", "CLOSE STAFF 00"),
        ],
        // Number 1042 was not read, and so it had LIND.
        &[
            ("OPEN INPUT STAFF.", "OPEN INPUT STAFF 00"),
            (
                "READ STAFF NEXT.",
                "READ NEXT STAFF 00 [01007LIND    SALES305000]",
            ),
            (
                "READ STAFF NEXT.",
                "READ NEXT STAFF 00 [01042LIND    STORE305000]",
            ),
            ("READ STAFF NEXT.", "READ NEXT STAFF 10"),
            ("MOVE \"SALES\" TO DEPARTMENT.", ""),
            (
                "READ STAFF KEY DEPARTMENT.",
                "READ STAFF 00 [01007LIND    SALES305000]",
            ),
            (
                "READ STAFF NEXT.",
                "READ NEXT STAFF 00 [01042LIND    STORE305000]",
            ),
            ("STOP RUN.", "CLOSE STAFF 00"),
        ],
    ],
    refused: &[("OPEN INPUT STAFF.", "OPEN INPUT STAFF 91")],
};

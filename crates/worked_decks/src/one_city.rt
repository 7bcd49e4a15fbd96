//! Decks of customers of one city, each statement beside the line that it gives in the transcript.

use crate::customers::CUSTOMERS;
use crate::decks::{Step, Worked};
use crate::plain_customers::REFUSED;

/// Makes a file of three customers of one city.
pub const ONE_CITY: &[Step] = &[
    ("OPEN OUTPUT CUST.", "OPEN OUTPUT CUST 00"),
    ("MOVE \"OSLO\" TO CUST-CITY.", ""),
    ("MOVE 3 TO CUST-ID. MOVE \"CCC\" TO CUST-NAME.", ""),
    ("WRITE CUST-REC.", "WRITE CUST 00"),
    ("MOVE 1 TO CUST-ID. MOVE \"AAA\" TO CUST-NAME.", ""),
    ("WRITE CUST-REC.", "WRITE CUST 02"),
    ("MOVE 2 TO CUST-ID. MOVE \"BBB\" TO CUST-NAME.", ""),
    ("WRITE CUST-REC.", "WRITE CUST 02"),
    ("STOP RUN.", "CLOSE CUST 00"),
];

const ONE_CITY_IS_READ: &[Step] = &[
    ("OPEN INPUT CUST.", "OPEN INPUT CUST 00"),
    ("READ CUST NEXT.", "READ NEXT CUST 00 [0001AAA   OSLO  ]"),
    ("READ CUST NEXT.", "READ NEXT CUST 00 [0002BBB   OSLO  ]"),
    ("READ CUST NEXT.", "READ NEXT CUST 00 [0003CCC   OSLO  ]"),
    ("READ CUST NEXT.", "READ NEXT CUST 10"),
    (
        "READ CUST KEY CUST-CITY.",
        "READ CUST 02 [0003CCC   OSLO  ]",
    ),
    ("READ CUST NEXT.", "READ NEXT CUST 02 [0001AAA   OSLO  ]"),
    ("READ CUST NEXT.", "READ NEXT CUST 00 [0002BBB   OSLO  ]"),
    ("READ CUST NEXT.", "READ NEXT CUST 10"),
    ("STOP RUN.", "CLOSE CUST 00"),
];

/// The file is only read: duplicates come in the order in which they were written.
pub const DUPLICATES_IN_ORDER: Worked = Worked {
    heading: CUSTOMERS,
    file: "CUST",
    assigned: "cust.dat",
    before: ONE_CITY,
    steps: ONE_CITY_IS_READ,
    reads: &[ONE_CITY_IS_READ, ONE_CITY_IS_READ],
    astray: &[],
    refused: REFUSED,
};

/// REWRITE keeps the place of a record among duplicates while its value stays, and puts it last when the
/// value comes back.
pub const A_DUPLICATE_REWRITTEN: Worked = Worked {
    heading: CUSTOMERS,
    file: "CUST",
    assigned: "cust.dat",
    before: ONE_CITY,
    steps: &[
        ("OPEN I-O CUST.", "OPEN I-O CUST 00"),
        ("MOVE 3 TO CUST-ID. MOVE \"DDD\" TO CUST-NAME.", ""),
        (
            "MOVE \"OSLO\" TO CUST-CITY. REWRITE CUST-REC.",
            "REWRITE CUST 00",
        ),
        (
            "READ CUST KEY IS CUST-CITY.",
            "READ CUST 02 [0003DDD   OSLO  ]",
        ),
        ("MOVE 3 TO CUST-ID. MOVE \"DDD\" TO CUST-NAME.", ""),
        (
            "MOVE \"BERGEN\" TO CUST-CITY. REWRITE CUST-REC.",
            "REWRITE CUST 00",
        ),
        ("MOVE 3 TO CUST-ID. MOVE \"DDD\" TO CUST-NAME.", ""),
        (
            "MOVE \"OSLO\" TO CUST-CITY. REWRITE CUST-REC.",
            "REWRITE CUST 02",
        ),
        (
            "READ CUST KEY IS CUST-CITY.",
            "READ CUST 02 [0001AAA   OSLO  ]",
        ),
        ("READ CUST NEXT.", "READ NEXT CUST 02 [0002BBB   OSLO  ]"),
        ("READ CUST NEXT.", "READ NEXT CUST 00 [0003DDD   OSLO  ]"),
        ("STOP RUN.", "CLOSE CUST 00"),
    ],
    reads: &[
        ONE_CITY_IS_READ,
        &[
            ("OPEN INPUT CUST.", "OPEN INPUT CUST 00"),
            ("READ CUST NEXT.", "READ NEXT CUST 00 [0001AAA   OSLO  ]"),
            ("READ CUST NEXT.", "READ NEXT CUST 00 [0002BBB   OSLO  ]"),
            ("READ CUST NEXT.", "READ NEXT CUST 00 [0003DDD   OSLO  ]"),
            ("READ CUST NEXT.", "READ NEXT CUST 10"),
            (
                "READ CUST KEY CUST-CITY.",
                "READ CUST 02 [0001AAA   OSLO  ]",
            ),
            ("READ CUST NEXT.", "READ NEXT CUST 02 [0002BBB   OSLO  ]"),
            ("READ CUST NEXT.", "READ NEXT CUST 00 [0003DDD   OSLO  ]"),
            ("READ CUST NEXT.", "READ NEXT CUST 10"),
            ("STOP RUN.", "CLOSE CUST 00"),
        ],
    ],
    astray: &[],
    refused: REFUSED,
};

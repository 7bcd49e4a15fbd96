//! A deck of two thousand records with long keys, and its transcript.

use crate::decks::{add_line, add_lines};
use std::alloc::Global;
use std::process::Abort;

const HEADING: &str = "ENVIRONMENT DIVISION.
INPUT-OUTPUT SECTION.
FILE-CONTROL.
    SELECT BIG ASSIGN TO \"big.dat\"
        ORGANIZATION IS INDEXED
        ACCESS MODE IS DYNAMIC
        RECORD KEY IS K1
        ALTERNATE RECORD KEY IS K2 WITH DUPLICATES.
DATA DIVISION.
FILE SECTION.
FD BIG.
01 BIG-REC.
";

/// A record of two keys, each of four digits and so many bytes more, and the first statement.
fn add_items(rt: &impl Abort, alloc: Global, deck: &mut String, more: usize) {
    let items = format!(in alloc;
        "    05 K1.
        10 K1-NUM PIC 9(4).
        10 FILLER PIC X({more}).
    05 K2.
        10 K2-NUM PIC 9(4).
        10 FILLER PIC X({more}).
PROCEDURE DIVISION.
OPEN OUTPUT BIG."
    );
    add_line(rt, deck, &items.expect(rt, "memory"));
}

/// The WRITE of a number.
fn add_write(rt: &impl Abort, alloc: Global, deck: &mut String, number: u32) {
    let value = number % 7;
    let write = format!(in alloc;
        "MOVE {number} TO K1-NUM. MOVE {value} TO K2-NUM. WRITE BIG-REC."
    );
    add_line(rt, deck, &write.expect(rt, "memory"));
}

/// The DELETE of a number.
fn add_delete(rt: &impl Abort, alloc: Global, deck: &mut String, number: u32) {
    let delete = format!(in alloc; "MOVE {number} TO K1-NUM. DELETE BIG.");
    add_line(rt, deck, &delete.expect(rt, "memory"));
}

/// Two thousand records are written, and those of even numbers are deleted.
fn add_changes(rt: &impl Abort, alloc: Global, deck: &mut String) {
    for number in 1..2001u32 {
        add_write(rt, alloc, deck, number);
    }
    add_line(rt, deck, "CLOSE BIG. OPEN I-O BIG.");
    for half in 1..1001u32 {
        add_delete(rt, alloc, deck, half * 2);
    }
}

/// Records 1 to 2,000 are written, whose second key is their number modulo 7; those of even numbers are
/// deleted, and what is left is read by both keys. Each key has so many bytes behind its four digits.
pub fn deck_of_two_thousand(rt: &impl Abort, alloc: Global, more: usize) -> String {
    let mut deck = HEADING.to_string(alloc).expect(rt, "memory");
    add_items(rt, alloc, &mut deck, more);
    add_changes(rt, alloc, &mut deck);
    add_lines(rt, &mut deck, "READ BIG NEXT.", 1001);
    add_line(
        rt,
        &mut deck,
        "MOVE LOW-VALUES TO K2. START BIG KEY NOT LESS K2.",
    );
    add_lines(rt, &mut deck, "READ BIG NEXT.", 1001);
    deck
}

/// The record of a number, as a READ NEXT delivers it; `spaces` are the bytes behind the digits of a key.
fn deliver(
    rt: &impl Abort,
    alloc: Global,
    lines: &mut String,
    status: &str,
    number: u32,
    spaces: &str,
) {
    let value = number % 7;
    let line = format!(in alloc; "READ NEXT BIG {status} [{number:04}{spaces}{value:04}{spaces}]");
    add_line(rt, lines, &line.expect(rt, "memory"));
}

/// The records of odd numbers.
fn deliver_all(rt: &impl Abort, alloc: Global, lines: &mut String, spaces: &str) {
    for number in 1..2001u32 {
        if number % 2 == 1 {
            deliver(rt, alloc, lines, "00", number, spaces);
        }
    }
}

/// Those of one value of the second key. The last of them has no duplicate behind it.
fn deliver_value(rt: &impl Abort, alloc: Global, lines: &mut String, spaces: &str, value: u32) {
    for number in 1..2001u32 {
        if number % 2 == 1 && number % 7 == value {
            let status = if number > 1986 { "00" } else { "02" };
            deliver(rt, alloc, lines, status, number, spaces);
        }
    }
}

/// The lines of what is read.
fn add_reads(rt: &impl Abort, alloc: Global, lines: &mut String, spaces: &str) {
    deliver_all(rt, alloc, lines, spaces);
    add_line(rt, lines, "READ NEXT BIG 10\nSTART BIG 00");
    for value in 0..7u32 {
        deliver_value(rt, alloc, lines, spaces, value);
    }
    add_line(rt, lines, "READ NEXT BIG 10\nCLOSE BIG 00");
}

/// Its lines. The first record of each of seven values is no duplicate.
pub fn lines_of_two_thousand(rt: &impl Abort, alloc: Global, more: usize) -> String {
    let spaces = format!(in alloc; "{:more$}", "").expect(rt, "memory");
    let mut lines = "OPEN OUTPUT BIG 00\n".to_string(alloc).expect(rt, "memory");
    add_lines(rt, &mut lines, "WRITE BIG 00", 7);
    add_lines(rt, &mut lines, "WRITE BIG 02", 1993);
    add_line(rt, &mut lines, "CLOSE BIG 00\nOPEN I-O BIG 00");
    add_lines(rt, &mut lines, "DELETE BIG 00", 1000);
    add_reads(rt, alloc, &mut lines, &spaces);
    lines
}

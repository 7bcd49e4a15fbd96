//! What decks do not have.

use crate::wanted::WantedWords;
use refused_deck::says;

/// Words of COBOL with which no deck goes on, and what to do without them.
const LACKING: [(&str, &str); 28] = [
    (
        "IF ELSE END-IF EVALUATE WHEN END-EVALUATE",
        "decks have no conditions: each verb is performed once, and the run goes on after any status",
    ),
    (
        "PERFORM END-PERFORM UNTIL GO CALL EXIT CONTINUE GOBACK",
        "decks have no control flow: write each statement out, in its order",
    ),
    (
        "COMPUTE ADD SUBTRACT MULTIPLY DIVIDE",
        "decks have no arithmetic: MOVE the number that is meant",
    ),
    (
        "DISPLAY ACCEPT",
        "decks neither read nor write a terminal: the transcript has a line per verb",
    ),
    (
        "INITIALIZE",
        "MOVE SPACES to the record, and ZEROS to its numeric items",
    ),
    (
        "STRING UNSTRING INSPECT SET SEARCH SORT MERGE RELEASE RETURN UNLOCK COMMIT ROLLBACK",
        "a deck has OPEN, CLOSE, READ, START, WRITE, REWRITE, DELETE, MOVE and STOP RUN",
    ),
    (
        "AT END END-READ",
        "there is no AT END: READ answers its status, and 10 at the end of the file",
    ),
    (
        "INVALID END-WRITE END-REWRITE END-DELETE END-START",
        "there is no INVALID KEY: each verb answers its status",
    ),
    (
        "INTO",
        "there is no INTO: READ leaves the record in the record area",
    ),
    ("PREVIOUS", "there is no READ PREVIOUS"),
    (
        "USE DECLARATIVES",
        "there are no declaratives: each verb answers its status",
    ),
    (
        "ALL CORRESPONDING CORR FUNCTION",
        "MOVE takes a literal, a number, SPACES, ZEROS, LOW-VALUES or HIGH-VALUES",
    ),
    ("OF", "data names are unique: leave the qualification out"),
    ("COPY REPLACE", "put the text into the deck itself"),
    (
        "LINKAGE LOCAL-STORAGE REPORT SCREEN COMMUNICATION",
        "the data division has a FILE SECTION and a WORKING-STORAGE SECTION",
    ),
    (
        "CONFIGURATION SPECIAL-NAMES SOURCE-COMPUTER OBJECT-COMPUTER REPOSITORY I-O-CONTROL",
        "leave it out: the environment division has an INPUT-OUTPUT SECTION alone",
    ),
    (
        "AUTHOR INSTALLATION DATE-WRITTEN DATE-COMPILED SECURITY REMARKS",
        "leave it out: the identification division has PROGRAM-ID alone",
    ),
    ("ID", "write IDENTIFICATION DIVISION in full"),
    (
        "OCCURS REDEFINES RENAMES",
        "describe each item once, by its picture alone",
    ),
    (
        "VALUE VALUES",
        "there is no VALUE: MOVE it in the procedure",
    ),
    (
        "USAGE COMP COMP-1 COMP-2 COMP-3 COMP-4 COMP-5 COMP-X COMPUTATIONAL COMPUTATIONAL-3 BINARY PACKED-DECIMAL",
        "each item is of characters or digits: PIC X(n) or PIC 9(n)",
    ),
    (
        "SIGN JUSTIFIED JUST BLANK SYNCHRONIZED SYNC GLOBAL EXTERNAL",
        "an item has a level, a name and a picture",
    ),
    ("RELATIVE LINE", "each file is INDEXED"),
    ("RESERVE PASSWORD SHARING COLLATING", "leave the clause out"),
    ("SD", "each file has an FD"),
    ("USING", "PROCEDURE DIVISION has no parameters"),
    (
        "DISK",
        "ASSIGN TO has the name of a file in marks, as 'cust.dat'",
    ),
    (
        "BY",
        "START KEY IS has =, >, >=, NOT <, EQUAL TO, GREATER THAN or NOT LESS THAN",
    ),
];

/// Reserved words that stand in COBOL where no deck has them: where this word is wanted, this one
/// stands, and what to do without it.
const MISPLACED: [(&str, &str, &str); 10] = [
    (
        "OPEN",
        "IN",
        "data names are unique: leave the qualification out",
    ),
    (
        "INDEXED",
        "SEQUENTIAL",
        "each file is INDEXED: ORGANIZATION IS INDEXED",
    ),
    (
        "GREATER",
        "LESS",
        "a START has =, >, >= or NOT <, and neither < nor LESS",
    ),
    (
        "OPEN",
        "FROM",
        "there is no FROM: MOVE to the items of the record before the verb",
    ),
    (
        "OPEN",
        "NOT",
        "there is no NOT AT END and no NOT INVALID KEY: each verb answers its status",
    ),
    (
        "KEY",
        "NEXT",
        "NEXT stands before RECORD, as in READ file NEXT RECORD",
    ),
    ("OPEN", "WITH", "there are no locks of records"),
    (
        "ORGANIZATION",
        "LOCK",
        "there is no LOCK MODE: an open file is locked as OPEN says",
    ),
    (
        "LABEL",
        "DATA",
        "there is no DATA RECORD: leave the clause out",
    ),
    ("OPEN", "FILE", "the procedure has no sections"),
];

/// What to do without a word that decks do not have.
pub fn without(word: &[u8]) -> Option<&'static str> {
    for &(words, text) in &LACKING {
        for own in words.split(' ') {
            if says(word, own) {
                return Some(text);
            }
        }
    }
    None
}

/// What to do without a word that decks do not have where other words are wanted.
pub fn without_here(wanted: &WantedWords<'_>, word: &[u8]) -> Option<&'static str> {
    for &(place, misplaced, text) in &MISPLACED {
        if says(word, misplaced) && wanted.has_word(place) {
            return Some(text);
        }
    }
    None
}

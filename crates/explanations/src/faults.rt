//! The codes of a refused deck.

/// The table of codes, in the form of that of statuses.
#[macro_export]
macro_rules! faults {
    ($then:ident $($with:tt)*) => {
        $then! { [$($with)*]
BadWord "1" ["bytes that are no word, or a literal that does not end on its line"] "
Meaning
  There is something in this line that cannot be a word of a deck. The deck
  was not run, and no file was touched.

What brings it about
  - a quotation mark or apostrophe that is not closed on the same line
  - no space before or after a literal
  - an underscore, a colon, a plus, an asterisk, a letter with an accent
  - a point within a number: there are no decimal points
  - a word of more than 30 characters, a literal of more than 1,000 or none
  - comments: a deck has none

What to do
  Mend the line. This is looked for in the whole deck before anything else,
  so there may be other mistakes in lines above it.

Example
  Wrong:  MOVE 'OSLO TO CUST-CITY.
  Right:  MOVE 'OSLO' TO CUST-CITY.
  Wrong:  05 CUST_CITY PIC X(10).
  Right:  05 CUST-CITY PIC X(10).
"
Expected "2" ["no deck goes on with this word, or it ends too early"] "
Meaning
  The words up to this line are right. The word that comes then cannot stand
  there. The deck was not run, and no file was touched.

What brings it about
  - the period at the end of the line before was forgotten
  - a word is missing or misspelt
  - something that decks do not have: IF, PERFORM, AT END, INVALID KEY, INTO,
    FROM, COMP, VALUE, MOVE of an item, a SECTION in the procedure
  - a SELECT entry without INDEXED or without RECORD KEY: the line is that of
    its period
  - the deck ends too early: the line is that of its last word

What to do
  Look at the word, and at the end of the line above it. The grammar is in
  docs/FORMAT.md. Leave out what decks do not have: each verb is performed
  once, and the run goes on after any status.

Example
  Wrong:  WRITE CUST-REC INVALID KEY STOP RUN.
  Right:  WRITE CUST-REC.
  Wrong:  01 CUST-REC              (the fault is told of the next line)
  Right:  01 CUST-REC.
"
Unknown "3" ["unknown name"] "
Meaning
  No file, record, item or key of the deck has this name. The deck was not
  run, and no file was touched.

What brings it about
  - a name that is misspelt
  - WRITE or REWRITE of the file: they take the name of its 01 entry
  - READ, START, DELETE, OPEN or CLOSE of the record: they take the file
  - KEY IS an item of another file
  - a SELECT without an FD, or an FD without a SELECT
  - RECORD KEY or ALTERNATE RECORD KEY of an item that the record has not:
    the line is that of SELECT
  - DEPENDING ON an item that is no 77-level item: the line is that of FD

What to do
  Compare the name with the one in SELECT, FD or 01, letter by letter.

Example
  Wrong:  WRITE CUST.
  Right:  WRITE CUST-REC.
  Wrong:  RECORD KEY IS CUST-NO    (where the item is CUST-ID)
  Right:  RECORD KEY IS CUST-ID
"
Twice "4" ["a name, a clause, a file or a description a second time"] "
Meaning
  Something is there twice that may be there once. The deck was not run, and
  no file was touched.

What brings it about
  - a clause of SELECT or FD a second time
  - two SELECT entries with one file, or two FD entries
  - two files with one file name in ASSIGN
  - an item of an earlier file with the same name: data names are unique in
    the whole deck, and there is no OF. The line is that of FD.
  - a 77-level item whose name is taken

What to do
  Leave one of them out, or give it another name.

Example
  Wrong:  77 CUST-ID PIC 9(6).      (where a record has a CUST-ID)
  Right:  77 CUST-COUNT PIC 9(6).
  Wrong:  SELECT OLD ASSIGN TO 'cust.dat'    (where CUST has that file)
  Right:  SELECT OLD ASSIGN TO 'old.dat'
"
NotAllowed "5" ["not allowed here"] "
Meaning
  Each word is right by itself, but they do not go together. The deck was
  not run, and no file was touched.

What brings it about
  - OPEN EXTEND where the access is RANDOM or DYNAMIC
  - READ NEXT or START where it is RANDOM
  - READ .. KEY where it is SEQUENTIAL, as it is without ACCESS MODE
  - READ .. NEXT .. KEY: it is one or the other
  - READ KEY of an item that is no key of the file
  - START KEY of an item that is no key, nor the first part of one
  - MOVE of letters, or of SPACES, to an item of digits
  - a file name in ASSIGN with a folder, a space, or a point in front

What to do
  Look at ACCESS MODE in the SELECT entry of the file, then at the operand.

Example
  Wrong:  OPEN EXTEND CUST.          (in dynamic access)
  Right:  OPEN I-O CUST.
  Wrong:  MOVE '17A' TO CUST-ID.     (PIC 9(4))
  Right:  MOVE '17' TO CUST-ID.
"
Limit "6" ["too much: the deck, a number, a ninth file or alternate key"] "
Meaning
  The deck has more of something than cobix takes. The deck was not run, and
  no file was touched.

What brings it about
  - a deck of more than 1,048,576 bytes: the line that is told is 1
  - a number of more than 18 digits
  - a ninth SELECT entry
  - a ninth ALTERNATE RECORD KEY of a file

What to do
  Cut a long deck into parts, each with the same divisions up to PROCEDURE,
  and run them one after another. The first opens OUTPUT, the others I-O.
  Write a long number in quotation marks, if its item is PIC X.

Example
  Wrong:  MOVE 1234567890123456789 TO CUST-TEXT.
  Right:  MOVE 'NO 1234567890123456789' TO CUST-TEXT.
"
Layout "7" ["items that are no record layout, other lengths than the record's," "or keys that are none"] "
Meaning
  The items under an FD make no record that cobix can keep; or a length in
  the FD differs from theirs; or an item cannot be a key. The deck was not
  run, and no file was touched.

What brings it about
  At the line of FD:
  - a picture other than X's alone or 9's alone: no S, V, Z or point
  - more than 18 digits in an item, or more than 4,000 characters in all
  - a level that does not fit, or a group without items
  - a data name twice in the record
  - RECORD CONTAINS, or the length after TO, is not the sum of the pictures
  - the item of DEPENDING ON is not of 9's, or has too few digits
  At the line of SELECT:
  - a key of more than 250 characters
  - two keys that begin at the same character
  - a key past the shortest record, where records vary in length
  At a 77-level item: its picture is not all 9.

What to do
  Add up the lengths of the items. cobix deck shows those of a deck that is
  accepted. Write signed and packed items as digits.

Example, for a record of 20 characters
  Wrong:  RECORD CONTAINS 80 CHARACTERS.
  Right:  RECORD CONTAINS 20 CHARACTERS.
  Wrong:  05 CUST-PAY PIC S9(4)V99.
  Right:  05 CUST-PAY PIC 9(6).
"
        }
    };
}

//! What is told with the help.

use explanations::{faults, reasons, statuses};

macro_rules! with_faults {
    ([] $($statuses:tt)*) => {
        faults!(answers $($statuses)*)
    };
}

macro_rules! answers {
    ([$($status:ident $digits:literal [$first:literal $($more:literal)*] $text:literal)*]
    $($fault:ident $code:literal [$start:literal $($rest:literal)*] $told:literal)*) => {
        concat!("Exit status:
  0   the run ended, whatever statuses its verbs answered
  1   with '--strict': the run ended, and a line of the transcript has 24, 30, 90, 91 or 92
  2   the deck is refused: 'cobix: line L: fault C'
  3   the command line is not understood
  4   the deck could not be read or DIR is no folder ('cobix: input'), the transcript could not be written \
('cobix: output'), or memory ran out before the first verb ('cobix: memory')

Statuses of verbs, in the transcript:",
        $("\n  ", $digits, "  ", $first, $(" ", $more,)*)*
        "\n\nCodes of a refused deck:",
        $("\n  ", $code, "   ", $start, $(" ", $rest,)*)*)
    };
}

macro_rules! verdicts {
    ([] $($reason:ident $number:literal [$first:literal $($more:literal)*] $text:literal)*) => {
        concat!("Exit status:
  0   'sound records R pages P': the file stands for R records in P pages
  1   'unsound N', and why:",
        $("\n      ", $number, "  ", $first, $(" ", $more,)*)*
        "
      Take the last copy of the file; or, where its records are elsewhere too, make it anew with OPEN OUTPUT
  3   the command line is not understood
  4   the file could not be read ('cobix: input'), or memory ran out ('cobix: memory')")
    };
}

/// The program's version, and the kit and logic that its proofs were checked with.
pub const VERSION: &str = "0.1 (rattle-kit-13 logic dac8208d650f15bf)";

/// What a run answers: exit statuses, the statuses of its verbs, and the codes of a refused deck.
pub const ANSWERS: &str = statuses!(with_faults);

/// What a check answers.
pub const REASONS: &str = reasons!(verdicts);

/// How frames are answered.
pub const SERVING: &str =
    "Each frame on standard input is a request, and each is answered by a frame on standard output \
(docs/LIBRARY.md). At the end of the input each file that is still open is closed.

Exit status:
  0   the input ended
  3   the command line is not understood
  4   DIR is no folder or a request could not be read ('cobix: input'), an answer could not be written \
('cobix: output'), or memory ran out before the first request ('cobix: memory')";

/// What the schema of a file says.
pub const SCHEMA: &str = "Lines on standard output:
  record N, or record N to M                           the length of each record, or the least and the \
greatest
  key N offset N length N prime|unique|duplicates height N
                                                       a line for each key, from 0 on: where it is in a \
record, its kind, and the levels of its tree
  records N                                            the records
  pages N                                              the pages of 4,096 bytes, the first one among them
  free pages N                                         the pages among them that hold nothing
  next stamp N                                         the stamp of the next duplicate
  bytes N                                              the bytes of the pages
With '--deck' and '--file', which go together: a line for each difference of the lengths or the keys, and \
none where OPEN would find them the same.

Exit status:
  0   the lines were written; only 'cobix check' tells whether the rest of the file agrees with them. With \
'--deck': there is no difference
  1   'unsound N' on standard error, and why:
      1  short: fewer bytes than a page
      2  the gate is not closed: it was not closed after a change
      3  the first page is not that of a file
      With '--deck' also: there are differences
  2   the deck is refused: 'cobix: line L: fault C'
  3   the command line is not understood, '--deck' or '--file' is alone, or the deck has no file NAME
  4   the file or the deck could not be read ('cobix: input'), the lines could not be written \
('cobix: output'), or memory ran out ('cobix: memory')";

/// What is explained.
pub const EXPLAINED: &str = "KIND and NUMBER are what a run or a check has written, for example:
  status 30    a line of the transcript ended in 30
  fault 7      a deck was refused: 'cobix: line 12: fault 7'
  unsound 6    a file was checked: 'unsound 6'

Exit status:
  0   the explanation was written
  3   the command line is not understood, or there is no such status, fault or reason
  4   the explanation could not be written ('cobix: output')";

/// What is listed of a deck.
pub const LISTED: &str =
    "It lists the files with their items and keys, and the verbs and paragraphs with their lines of the \
deck. Verb N writes line N of the transcript. No file is touched.

Exit status:
  0   the deck is accepted, and was listed
  2   the deck is refused: 'cobix: line L: fault C', and then the line, the word and why, of up \
to twenty faults
  3   the command line is not understood
  4   the deck could not be read ('cobix: input'), the list could not be written ('cobix: output'), or \
memory ran out ('cobix: memory')";

/// What the list of a file's records is.
pub const RECORDS: &str =
    "Each line is a record in brackets, as a transcript shows it. V is compared with the first bytes of each \
value; in V a backslash and two digits from 0 to f are a byte, as a line shows it.
The file is read page after page, and no run changes it meanwhile. What is met that is not as it has to be \
ends the list, and the lines before it stay. With '--checked' the whole file is checked first, and read once \
before the first line.
KEY is a number, or, with '--deck' and '--file', the name of the item that RECORD KEY or ALTERNATE RECORD KEY \
names there.

Conditions:
  --where ITEM=VALUE        only records whose ITEM has this VALUE; with several conditions those of which all hold
  '<', '<=', '>', '>='      in the place of '=': ITEM is less, not greater, greater, not less
ITEM is an item of the record of NAME, so '--deck' and '--file' are wanted. It is compared with VALUE byte by \
byte, and VALUE has escapes as V. A shorter VALUE has spaces after it; where ITEM is numeric, digits have zeros \
before them. No condition holds of a record that ends before ITEM does.

Forms:
  text  a record in brackets
  csv   the names of the columns, and then the columns of each record: in quotes, with commas between, and \
CRLF at the end
  json  an object on a line for each record, with a string for each column

Encodings:
  ascii  a byte that is not from 20 to 7e, or is a backslash, is a backslash and two digits from 0 to f
  utf-8  bytes a0 to ff are the characters of Latin-1 with these numbers; the others are as in 'ascii'

Columns of csv and json:
  --cut N,N..               'column-1' up to the first N, 'column-2' up to the next, and so on; the last one \
is the rest
  --deck DECK --file NAME   the elementary items of the record of that file, by their names
  neither                   'record'

Exit status:
  0   the lines were written
  1   'unsound N' on standard error, as of 'cobix check'; with '--checked', and where the first page tells it, \
no line was written
      'cobix: the file has no such key', or 'cobix: KEY is no key of NAME': no line was written
      'cobix: the file is of another schema than the deck': a line for each difference, as of 'cobix schema'
  2   the deck is refused: 'cobix: line L: fault C'
  3   the command line is not understood, V is longer than 250 bytes, KEY is a name without '--deck' and '--file', \
there is no such form or encoding, text is to have columns, '--cut' is beside '--deck', '--deck' or '--file' is alone, the cuts are no rising numbers from 1 to \
65,535, the deck has no file NAME, a condition has no sign or is without '--deck' and '--file', the record has no \
ITEM, or VALUE is longer than it
  4   the file or the deck could not be read ('cobix: input'), the lines could not be written \
('cobix: output'), or memory ran out ('cobix: memory')";

/// What is counted of a file.
pub const COUNTED: &str =
    "The file is checked first. Then there is a line for its pages, one for its slots, and one for each key, \
with its levels below it:
  pages N: header 1, heap N, keys N, free N            the pages by what they are: of records, of the trees \
of keys, or free
  slots N: used N, free N                              the places for records; each record has one
  key N pages N entries N longest run N                the pages of the tree of a key, its entries, and how \
many of them have one value at most
    level N pages N entries N fill N% [####    ]       a level of it, from the root down to the leaves, \
level 0; how full its pages are, and a bar of 20 characters

Where the file is unsound for a reason from 4 on, a second line on standard error tells where the reason was \
met, and what it means:
  page N: ...            a page; they are numbered from 0
  page N, entry N: ...   an entry of a leaf, a separator of an inner node, or a slot of a page of records; \
they are numbered from 0 too

Exit status:
  0   the lines were written
  1   'unsound N' on standard error, as of 'cobix check'; no line was written
  3   the command line is not understood
  4   the file could not be read ('cobix: input'), the lines could not be written ('cobix: output'), or \
memory ran out ('cobix: memory')";

/// What is salvaged of a file.
pub const SALVAGED: &str =
    "FILE is a file that OPEN refuses with 91: a run or a load was killed and left its gate open, or the file \
was damaged. It is read, and not changed. Each line is a record in brackets, which 'cobix load' takes into a \
new file.
A file that is being made has no first page until it is closed. With '--deck' and '--file', which go together, \
the lengths and the keys are those of that file of the deck, where the first page is lost. Where it is there \
and has others, no record is salvaged, and the differences are written.
Where several slots have one value of the prime key, all of them are told on standard error, as 'page P slot S: \
[record]', and the one to which the entry of the prime key leads is listed, if there is one.
With '--places' the page and the slot of each record stand before its line, with a space behind each, or a \
comma in csv; 'cut -f3- -d \" \"' takes them away. The lines are then page by page, also of a file that is sound.

Forms:
  text  a record in brackets
  csv   the names of the columns, and then the columns of each record: in quotes, with commas between, and \
CRLF at the end
  json  an object on a line for each record, with a string for each column
The columns are the elementary items of the record of NAME, by their names; without a deck there is one, \
'record'.

Encodings:
  ascii  a byte that is not from 20 to 7e, or is a backslash, is a backslash and two digits from 0 to f
  utf-8  bytes a0 to ff are the characters of Latin-1 with these numbers; the others are as in 'ascii'

Exit status:
  0   'salvaged R records, all of them' on standard error: with its gate closed the file is sound, and these \
are exactly its records, in the order of the prime key
  1   'salvaged R records, in doubt': the records in all slots that are in use, page by page. Each has a prime \
value of its own, and nothing more is known of them
      'salvaged R records, N in doubt': so, but for N slots that share their prime value with others and were \
told before
      'unsound N', as of 'cobix check': the first page is not that of a file, and no deck is given; no line was \
written
      'cobix: the file is of another schema than the deck': a line for each difference, as of 'cobix schema'
  2   the deck is refused: 'cobix: line L: fault C'
  3   the command line is not understood, there is no such form or encoding, '--deck' or '--file' is alone, or \
the deck has no file NAME
  4   the file or the deck could not be read ('cobix: input'), the lines could not be written ('cobix: output'), \
or memory ran out ('cobix: memory')";

/// What a copy is, and what it answers.
pub const COPIED: &str =
    "FILE is a file that 'cobix check' finds sound, and that no run has open for changes. It is read page after \
page, and no run changes it meanwhile; it is not checked. NEW gets its records in the order of the prime key, or \
of the key of '--key', in pages one after another, and records of one value of an alternate key keep their order. A \
list in that order reads each page of records once.
The last part of NEW is the name of the new file: 1 to 64 letters, digits, full stops, hyphens and underscores, \
the first of them a letter or a digit. Until all of NEW is written, OPEN refuses it with 91, also where this \
command was killed: remove what is left of it before the next copy.

Exit status:
  0   'copied R records, P pages' on standard error: NEW is whole, closed, and on the disk
  1   'cobix: the file is refused': OPEN would answer 91 too; 'cobix check FILE' tells why, and 'cobix salvage \
FILE' lists what is left. Nothing was written
      'cobix: the file is damaged': so, behind its first page. What there is of NEW is refused
      'cobix: the new file is there already', or 'cobix: the file has no such key': nothing was written
  3   the command line is not understood, or the last part of NEW is the name of no file
  4   FILE could not be read, or the folder of NEW is none ('cobix: input'); NEW could not be written, or it needs \
more than '--pages' pages ('cobix: output'); or memory ran out ('cobix: memory'). What there is of NEW is refused";

/// What a load answers.
pub const LOADED: &str =
    "TEXT is what 'cobix list' writes in the same form. The lines are read first, and then written one after \
another, up to the first that is refused.
With '--keep-going' a line that is no record of this file, or whose WRITE answers 22, is told on standard \
error, as 'cobix: line L: status 22' or 'cobix: line L: no record of this file', and passed over. What is wrong \
with a line that is no record's is told behind that: 'line L, column 3 CUST-CITY: 9 characters, 6 wanted'.
With '--replace' a record whose WRITE answers 22 is put by REWRITE in the place of the one that has its prime \
value. Where REWRITE answers 22 or 23, or 49 in a new file, which OPEN OUTPUT made, the line is refused with 22.
With '--pad' a value that is shorter than its item is filled up, as MOVE does it: with spaces behind it, or, in \
an item of digits, with zeros before its digits. There a value without digits, or with anything else, stays a \
mistake, and so does each value that is too long. In the form 'text' the record gets spaces behind it. Every \
record has the greatest length then.
With '--sort' the lines are sorted by the prime values of their records before they are loaded. Lines of one value \
stay in their order, and lines that are no record of this file come last. What is told, and what '--skip' passes \
over, are lines of the sorted text.
With '--rejects' the lines that are told and passed over are also written into FILE, as they are in TEXT, and in \
csv after the names of the columns. FILE must not be there before.
Without '--into' a file that is there is left as it is, whatever it is.

Forms:
  text  a record in brackets
  csv   line 1 has the names of the columns, and each other line the columns of a record: in quotes, with \
commas between, and CRLF at the end
  json  an object on a line for each record, with a string for each column
The columns are the elementary items of the record of NAME, as 'cobix list' has them by that deck. No value \
is padded without '--pad', and none is cut or converted.

Encodings:
  ascii  a byte that is not from 20 to 7e, or is a backslash, is a backslash and two digits from 0 to f
  utf-8  bytes a0 to ff are the characters of Latin-1 with these numbers; the others are as in 'ascii'

Exit status:
  0   'loaded N': the records of all N lines were written, but for those that '--skip' passes over
      'loaded N, replaced M': M lines more replaced a record of the file ('--replace')
  1   'loaded N, rejected M': N records were written, and M lines told and passed over ('--keep-going'); \
or 'loaded N, replaced K, rejected M'
      'line L: status S': the WRITE of line L, or a REWRITE behind it, answered S; or 'line L: no record of \
this file', and what is wrong with it on standard error. The lines before it were loaded
      'open: status S' or 'close: status S': OPEN or CLOSE answered S
      'cobix: the file is there already': nothing was done
  2   the deck is refused: 'cobix: line L: fault C'
  3   the command line is not understood, there is no such form or encoding, '--rejects' is without \
'--keep-going', or the deck has no file NAME
  4   the deck or TEXT could not be read, both are '-', or DIR is no folder ('cobix: input'), the answer \
could not be written ('cobix: output'), or memory ran out ('cobix: memory')";

/// What a deck is in COBOL.
pub const COBOL: &str =
    "The program opens the same files, performs the same verbs and displays the same lines, so that another \
file handler can be held against cobix with 'diff'.

Exit status:
  0   the program was written
  2   the deck is refused: 'cobix: line L: fault C', and then the line, the word and why, of up \
to twenty faults
  3   the command line is not understood
  4   the deck could not be read ('cobix: input'), the program could not be written ('cobix: output'), or \
memory ran out ('cobix: memory')";

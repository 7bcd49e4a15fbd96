//! Names, numbers and reserved words.
ghost use Rattle.std.specs.Prelude.{◌≡◌, ◌==◌, ◌||◌};
ghost use Rattle.std.specs.Char.{is_ascii_digit};
ghost use Rattle.std.specs.List.{list_all, list_any};
ghost use Rattle.std.specs.Str.{bytes_eq};
ghost use Rattle.io_state.specs.FileName.{is_capital};
ghost use Rattle.deck_parser.specs.Name.{is_reserved, is_name, is_number};

/// The reserved words by their length, so that a text is compared with few of them.
const OF_TWO: [&[u8]; 6] = [b"FD", b"IN", b"IS", b"ON", b"TO", b"OR"];

const OF_THREE: [&[u8]; 6] = [b"ARE", b"KEY", b"PIC", b"I-O", b"NOT", b"RUN"];

const OF_FOUR: [&[u8]; 15] = [
    b"DATA", b"FILE", b"FROM", b"MODE", b"SIZE", b"WITH", b"LESS", b"LOCK", b"MOVE", b"NEXT",
    b"OPEN", b"READ", b"STOP", b"THAN", b"ZERO",
];

const OF_FIVE: [&[u8]; 9] = [
    b"BLOCK", b"LABEL", b"CLOSE", b"EQUAL", b"INPUT", b"SPACE", b"START", b"WRITE", b"ZEROS",
];

const OF_SIX: [&[u8]; 12] = [
    b"ACCESS", b"ASSIGN", b"FILLER", b"RANDOM", b"RECORD", b"SELECT", b"STATUS", b"DELETE",
    b"EXTEND", b"OUTPUT", b"SPACES", b"ZEROES",
];

const OF_SEVEN: [&[u8]; 9] = [
    b"DYNAMIC", b"INDEXED", b"OMITTED", b"PICTURE", b"RECORDS", b"SECTION", b"VARYING", b"GREATER",
    b"REWRITE",
];

const LONGER: [&[u8]; 21] = [
    b"ALTERNATE",
    b"CHARACTERS",
    b"CONTAINS",
    b"DEPENDING",
    b"DIVISION",
    b"DUPLICATES",
    b"ENVIRONMENT",
    b"FILE-CONTROL",
    b"IDENTIFICATION",
    b"INPUT-OUTPUT",
    b"OPTIONAL",
    b"ORGANIZATION",
    b"PROCEDURE",
    b"PROGRAM-ID",
    b"SEQUENTIAL",
    b"STANDARD",
    b"WORKING-STORAGE",
    b"HIGH-VALUE",
    b"HIGH-VALUES",
    b"LOW-VALUE",
    b"LOW-VALUES",
];

fn is_in(table: &[&[u8]], text: &[u8]) -> bool
    ensures { result ≡ list_any (λ word. bytes_eq word.now text.now) table.now }
{
    table.iter().any(|word| *word == text)
}

/// Whether no name may be this text.
#[tactic(auto, unfolding(crate::specs::Name::is_reserved))]
fn is_reserved_text(text: &[u8]) -> bool
    ensures { result ≡ is_reserved text.now }
{
    let length = text.len();
    if length == 2 {
        is_in(&OF_TWO, text)
    } else if length == 3 {
        is_in(&OF_THREE, text)
    } else if length == 4 {
        is_in(&OF_FOUR, text)
    } else if length == 5 {
        is_in(&OF_FIVE, text)
    } else if length == 6 {
        is_in(&OF_SIX, text)
    } else if length == 7 {
        is_in(&OF_SEVEN, text)
    } else {
        is_in(&LONGER, text)
    }
}

fn has_letter(text: &[u8]) -> bool
    ensures { result ≡ list_any is_capital text.now }
{
    text.iter().any(|byte| byte.is_ascii_uppercase())
}

fn has_name_bytes(text: &[u8]) -> bool
    ensures { result ≡ list_all (λ byte. is_capital byte || is_ascii_digit byte || byte == 45) text.now }
{
    text.iter().all(|byte| byte.is_ascii_uppercase() || byte.is_ascii_digit() || *byte == b'-')
}

fn has_digits(text: &[u8]) -> bool
    ensures { result ≡ list_all is_ascii_digit text.now }
{
    text.iter().all(|byte| byte.is_ascii_digit())
}

/// Whether the text of a plain word is a name.
pub fn is_name_text(text: &[u8]) -> bool
    ensures { result ≡ is_name text.now }
{
    if text.is_empty() {
        return false;
    }
    has_letter(text)
        && has_name_bytes(text)
        && text[0] != b'-'
        && text[text.len() - 1] != b'-'
        && !is_reserved_text(text)
}

/// Whether the text is digits alone.
pub fn is_number_text(text: &[u8]) -> bool
    ensures { result ≡ is_number text.now }
{
    !text.is_empty() && has_digits(text)
}

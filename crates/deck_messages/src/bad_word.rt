//! Bytes that are no word.

/// The most bytes of a word.
const WORD_LIMIT: usize = 30;

/// The most bytes between the marks of a literal, each doubled mark counted once.
const LITERAL_LIMIT: usize = 1_000;

/// The first three bytes of a text with a byte order mark.
const ORDER_MARK: [u8; 3] = [239, 187, 191];

fn is_word_byte(byte: u8) -> bool {
    byte.is_ascii_alphanumeric() || matches!(byte, b'-' | b'(' | b')')
}

/// Whether each byte of a text is one of these.
pub fn has_none_but(text: &[u8], bytes: &[u8]) -> bool {
    text.iter().all(|byte| bytes.contains(byte))
}

fn has_one_of(text: &[u8], bytes: &[u8]) -> bool {
    text.iter().any(|byte| bytes.contains(byte))
}

/// How far a literal goes.
#[derive(Clone, Copy)]
struct Extent {
    /// Its bytes with its marks.
    bytes: usize,
    /// Those between them, each doubled mark counted once.
    inner: usize,
    is_closed: bool,
}

/// How far the literal goes that begins here: behind the mark that closes it, or to the end of its line.
fn literal_extent(text: &[u8]) -> Extent {
    let mut extent = Extent {
        bytes: 0,
        inner: 0,
        is_closed: false,
    };
    for byte in text {
        let is_mark = text.first() == Some(byte);
        let is_end = matches!(*byte, b'\n' | b'\r') || (extent.is_closed && !is_mark);
        if is_end {
            return extent;
        }
        if extent.bytes > 0 {
            extent.inner = extent
                .inner
                .saturating_add(usize::from(!is_mark || extent.is_closed));
            extent.is_closed = is_mark && !extent.is_closed;
        }
        extent.bytes = extent.bytes.saturating_add(1);
    }
    extent
}

/// Why a literal is none.
fn literal_reason(extent: &Extent) -> &'static str {
    if !extent.is_closed {
        return "this literal is not closed in its line; its last mark has to be the one that opens it";
    }
    if extent.inner == 0 {
        return "an empty literal; a literal has at least one character, and MOVE SPACES clears an item";
    }
    if extent.inner > LITERAL_LIMIT {
        return "a literal of more than 1,000 characters";
    }
    "a space, a period or a comma has to come behind this literal"
}

/// Why a run is no word, for the sake of one of its bytes.
fn byte_reason(text: &[u8]) -> Option<&'static str> {
    Some(if text.starts_with(&ORDER_MARK) {
        "a byte order mark stands before this word; save the deck without it"
    } else if text.ends_with(b".") {
        "a period too many"
    } else if text.contains(&b'*') {
        "comments are not read, neither * in column 7 nor *>; leave the line out"
    } else if text.contains(&b'_') {
        "an underscore is in no word; write a hyphen"
    } else if !text.is_ascii() {
        "a letter with an accent, or another byte that is not ASCII, is in no word"
    } else if text.iter().any(|byte| byte.is_ascii_control()) {
        "a character that cannot be printed is in no word"
    } else if text.starts_with(b"/") {
        "comments are not read, nor / in column 7; leave the line out"
    } else {
        return None;
    })
}

/// Why a run is no word.
fn run_reason(text: &[u8]) -> &'static str {
    if let Some(reason) = byte_reason(text) {
        reason
    } else if has_none_but(text, b"<>=") {
        "no relation; there are =, >, >=, NOT <, and those that are written out"
    } else if has_one_of(text, b"<>=") {
        "a space has to come before and behind a relation"
    } else if has_one_of(text, b".,;") {
        pointed_reason(text)
    } else if !text.iter().all(|byte| is_word_byte(*byte)) {
        "a word has letters, digits, hyphens and parentheses alone"
    } else if text.len() > WORD_LIMIT {
        "a word of more than 30 characters"
    } else {
        "a space has to come before a literal"
    }
}

/// Why a run is no word, where a point or a comma is in it.
fn pointed_reason(text: &[u8]) -> &'static str {
    if has_none_but(text, b"0123456789.,+-") {
        "there are no decimal points; a number is digits alone"
    } else {
        "a space has to come behind a period, a comma or a semicolon"
    }
}

fn is_mark(byte: u8) -> bool {
    matches!(byte, b'"' | b'\'')
}

/// How many bytes at the front are neither white space nor marks.
fn run_length(text: &[u8]) -> usize {
    text.iter()
        .take_while(|byte| !matches!(**byte, b' ' | b'\t' | b'\n' | b'\r') && !is_mark(**byte))
        .count()
}

/// A run without its last byte, where that is a point, a comma or a semicolon.
fn body_of(run: &[u8]) -> &[u8] {
    match run {
        [body @ .., b'.' | b',' | b';'] => body,
        body => body,
    }
}

/// How many bytes are no word, of those that begin where none is, and why.
pub fn no_word(text: &[u8]) -> (usize, &'static str) {
    match text.first() {
        Some(first) if is_mark(*first) => {
            let extent = literal_extent(text);
            (extent.bytes, literal_reason(&extent))
        }
        _ => no_run(text),
    }
}

/// The same, where they begin with no mark.
fn no_run(text: &[u8]) -> (usize, &'static str) {
    let length = run_length(text);
    let (run, behind) = text.split_at(length.min(text.len()));
    match behind.first() {
        Some(mark) if is_mark(*mark) && run.eq_ignore_ascii_case(b"X") => {
            let why =
                "hexadecimal literals are not read; LOW-VALUES is bytes 0, HIGH-VALUES bytes 255";
            (length, why)
        }
        Some(mark) if is_mark(*mark) => (length, run_reason(run)),
        _ => {
            let body = body_of(run);
            (body.len(), run_reason(body))
        }
    }
}

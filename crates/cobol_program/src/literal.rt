//! Literals.

use arrayvec::ArrayString;
use std::fmt::Write;

/// A word of a program: a name, a literal, or a few words that stand in one line.
pub type ProgramWord = ArrayString<56>;

/// How many bytes a literal has at most.
pub const LITERAL_LIMIT: usize = 24;

fn is_plain(byte: u8) -> bool {
    byte > 31 && byte < 127
}

fn add_plain(word: &mut ProgramWord, byte: u8) {
    if byte == b'"' {
        let _ = word.try_push('"');
    }
    let _ = word.try_push(char::from(byte));
}

fn quoted(bytes: &[u8]) -> ProgramWord {
    let mut word = ProgramWord::new();
    let _ = word.try_push('"');
    for byte in bytes {
        add_plain(&mut word, *byte);
    }
    let _ = word.try_push('"');
    word
}

fn hexadecimal(bytes: &[u8]) -> ProgramWord {
    let mut word = ProgramWord::new();
    let _ = word.try_push_str("X\"");
    for byte in bytes {
        let _ = write!(word, "{byte:02X}");
    }
    let _ = word.try_push('"');
    word
}

/// A literal of these bytes, of which there are at most 24.
pub fn literal(bytes: &[u8]) -> ProgramWord {
    if bytes.iter().all(|byte| is_plain(*byte)) {
        quoted(bytes)
    } else {
        hexadecimal(bytes)
    }
}

/// Digits as a number.
pub fn digits_word(digits: &[u8]) -> ProgramWord {
    let mut word = ProgramWord::new();
    for digit in digits {
        let _ = word.try_push(char::from(*digit));
    }
    word
}

/// A literal of a text with a space behind it.
pub fn spaced(first: &str, second: &str) -> ProgramWord {
    let mut word = ProgramWord::new();
    let _ = write!(word, "\"{first} {second} \"");
    word
}

/// A literal of the name of a file, if it is short enough for a line.
pub fn short_literal(name: &str) -> Option<ProgramWord> {
    if name.len() > 48 {
        return None;
    }
    let mut word = ProgramWord::new();
    let _ = write!(word, "\"{name}\"");
    Some(word)
}

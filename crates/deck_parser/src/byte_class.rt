//! The classes of a deck's bytes.
ghost use Rattle.std.specs.Prelude.{◌≡◌};
ghost use Rattle.deck_parser.specs.ByteClass.{is_space, is_mark, is_of_run, is_of_literal, is_of_word};
ghost use Rattle.deck_parser.specs.ByteClass.{capital};

/// Space, tab, line feed and carriage return.
pub fn is_space_byte(byte: u8) -> bool
    ensures { result ≡ is_space byte }
{
    matches!(byte, b' ' | b'\t' | b'\n' | b'\r')
}

/// A quotation mark or an apostrophe.
pub fn is_mark_byte(byte: u8) -> bool
    ensures { result ≡ is_mark byte }
{
    byte == b'"' || byte == b'\''
}

/// Neither white space nor a mark. No byte above the apostrophe is one.
#[tactic(auto, using(crate::proofs::RunByteLemmas::above_marks))]
pub fn is_run_byte(byte: u8) -> bool
    ensures { result ≡ is_of_run byte }
{
    byte > b'\'' || (!is_space_byte(byte) && !is_mark_byte(byte))
}

/// Neither line feed nor carriage return.
pub fn is_literal_byte(byte: u8) -> bool
    ensures { result ≡ is_of_literal byte }
{
    byte != b'\n' && byte != b'\r'
}

/// A letter, a digit, a hyphen or a parenthesis.
pub fn is_word_byte(byte: u8) -> bool
    ensures { result ≡ is_of_word byte }
{
    byte.is_ascii_alphabetic() || byte.is_ascii_digit() || matches!(byte, b'-' | b'(' | b')')
}

/// The byte, or the capital of a small letter.
pub fn capital_of(byte: u8) -> u8
    ensures { result ≡ capital byte }
{
    if byte.is_ascii_lowercase() {
        byte - 32
    } else {
        byte
    }
}

//! The name of a file in its folder.
ghost use Rattle.std.specs.Prelude.{◌≡◌, ◌==◌, ◌||◌, true, Some, None, option_map, if◌then◌else◌};
ghost use Rattle.std.specs.List.{list_all};
ghost use Rattle.io_state.specs.FileName.{is_letter_or_digit, is_file_name};

use crate::FileName;

/// The most bytes of a file's name in its folder.
const FILE_NAME_LIMIT: usize = 64;

fn is_letter_or_digit_byte(byte: u8) -> bool
    ensures { result ≡ is_letter_or_digit byte }
{
    byte.is_ascii_alphabetic() || byte.is_ascii_digit()
}

fn has_file_name_bytes(text: &[u8]) -> bool
    ensures { result
        ≡ list_all (λ byte. is_letter_or_digit byte || byte == 46 || byte == 45 || byte == 95) text.now }
{
    text.iter().all(|byte| is_letter_or_digit_byte(*byte) || matches!(*byte, b'.' | b'-' | b'_'))
}

/// Whether a text is the name of a file.
fn is_file_name_text(text: &[u8]) -> bool
    ensures { result ≡ is_file_name text.now }
{
    match text.first() {
        Some(first) => {
            text.len() <= FILE_NAME_LIMIT
                && is_letter_or_digit_byte(*first)
                && has_file_name_bytes(text)
        }
        None => false,
    }
}

/// The name of a file, as a text has it.
fn text_name(text: &[u8]) -> FileName
    requires { is_file_name text.now ≡ true }
    ensures { result.bytes ≡ text.now }
{
    let mut name = FileName::new();
    for byte in text {
        name.push(char::from(*byte));
    }
    name
}

/// The name of a file, as a text has it. None where it is the name of none: 1 to 64 letters,
/// digits, full stops, hyphens and underscores, the first of them a letter or a digit.
pub fn file_name_of(text: &[u8]) -> Option<FileName>
    ensures { option_map (λ name. name.bytes) result
        ≡ (if is_file_name text.now then Some text.now else None) }
{
    if is_file_name_text(text) {
        Some(text_name(text))
    } else {
        None
    }
}

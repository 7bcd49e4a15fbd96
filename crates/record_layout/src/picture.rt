//! A picture.
ghost use Rattle.std.specs.Prelude.{◌≡◌, ◌<◌, ◌≤◌, ℕ, length, IfSome, IfNone, IfOk, IfErr, IsErrOf, ◌⊎◌};
ghost use Rattle.std.specs.Prelude.{List, slice_index, ◌==◌};
ghost use Rattle.std.specs.List.{prefix_len};
ghost use Rattle.std.specs.Char.{is_ascii_digit};
ghost use Rattle.record_layout.specs.Picture.{number, Means, IsPicture, IsTooLong, IsBad};
ghost use Rattle.record_layout.specs.declared.picture.Picture.{Picture};
ghost use Rattle.record_layout.specs.Reading.{is_symbol, group_at, size_at, capped_size, IsCappedCut};

use crate::LayoutFault;

/// What a picture says of an elementary item: whether it is one of 9, and how many characters it is for.
#[derive(Clone, Copy, Debug, PartialEq, Eq)]
pub struct Picture {
    pub numeric: bool,
    pub length: u16,
}

/// One past the greatest length of a record. Sizes are counted up to it, so that no sum of them overflows.
const CAP: u64 = 4001;

impl Picture {
    /// The picture that a text is, with X and 9 for its symbols, each alone or with a number of
    /// characters in parentheses. `TooLong` is one of X for more than 4,000 characters; any other
    /// text, and one of 9 for more than 18 digits, is `BadPicture`.
    pub fn parse(text: &[u8]) -> Result<Picture, LayoutFault>
        ensures good { IfOk result (IsPicture text.now) }
        ensures too_long { IsErrOf result LayoutFault.TooLong → IsTooLong text.now }
        ensures bad { IsErrOf result LayoutFault.BadPicture → IsBad text.now }
        ensures only { IfErr result (λ fault. (fault ≡ LayoutFault.TooLong)
            ⊎ (fault ≡ LayoutFault.BadPicture)) }
    {
        let numeric = begins_numeric(text);
        let Some(n) = total(numeric, text) else {
            return Err(LayoutFault::BadPicture);
        };
        if numeric && n > 18 {
            return Err(LayoutFault::BadPicture);
        }
        if n > 4000 {
            return Err(LayoutFault::TooLong);
        }
        Ok(Picture {
            numeric,
            length: n as u16,
        })
    }
}

/// A text is one picture at most: its first symbol says of which kind, and its groups how long.
pub fn one_picture()
    ensures { (text : List ℕ) (a b : Picture) → IsPicture text a → IsPicture text b → a ≡ b }
{}

/// Whether the picture is one of 9, if it is one.
fn begins_numeric(text: &[u8]) -> bool
    ensures { result ≡ (slice_index text.now 0 == 57) }
{
    !text.is_empty() && text[0] == b'9'
}

/// How many characters the groups of one symbol are for, up to the cap.
fn total(numeric: bool, text: &[u8]) -> Option<u64>
    ensures some { IfSome result (λ total. (n : ℕ) × Means numeric text.now n × (total ≡ capped_size n)) }
    ensures none { IfNone result ((n : ℕ) → Means numeric text.now n → ⊥) }
{
    if text.is_empty() {
        return None;
    }
    let mut total: u64 = 0;
    let mut rest = text;
    'groups: while !rest.is_empty() {
        let Some((n, left)) = group(numeric, rest) else {
            return None;
        };
        total = (total + n).min(CAP);
        rest = left;
    }
    Some(total)
}

/// The size of the group at the front, and the rest.
fn group(numeric: bool, bytes: &[u8]) -> Option<(u64, &[u8])>
    ensures group { IsCappedCut (group_at numeric bytes.now) result }
    ensures bounds { IfSome result (λ cut. (length cut.1.now < length bytes.now) × (cut.0 ≤ 4001)) }
{
    let (symbol, rest) = bytes.split_first()?;
    if !is_symbol_byte(numeric, *symbol) {
        return None;
    }
    match rest.split_first() {
        Some((open, inside)) if *open == b'(' => size(inside),
        _ => Some((1, rest)),
    }
}

fn is_symbol_byte(numeric: bool, byte: u8) -> bool
    ensures { result ≡ is_symbol numeric byte }
{
    if numeric {
        byte == b'9'
    } else {
        byte == b'X' || byte == b'x'
    }
}

/// The size behind an opening parenthesis, and the rest behind the closing one.
fn size(bytes: &[u8]) -> Option<(u64, &[u8])>
    ensures size { IsCappedCut (size_at bytes.now) result }
    ensures bounds { IfSome result (λ cut. (length cut.1.now ≤ length bytes.now) × (cut.0 ≤ 4001)) }
{
    let end = digits_len(bytes);
    let n = number_of(&bytes[..end]);
    if n == 0 {
        return None;
    }
    let after = &bytes[end..];
    match after.split_first() {
        Some((close, rest)) if *close == b')' => Some((n, rest)),
        _ => None,
    }
}

fn digits_len(bytes: &[u8]) -> usize
    ensures digits { result ≡ prefix_len is_ascii_digit bytes.now }
    ensures within { result ≤ length bytes.now }
{
    bytes
        .iter()
        .take_while(|byte| byte.is_ascii_digit())
        .count()
}

/// The number that digits stand for, or the cap where it is more.
fn number_of(digits: &[u8]) -> u64
    ensures { result ≡ capped_size (number digits.now) }
{
    let mut n: u64 = 0;
    for digit in digits {
        n = (n * 10 + u64::from(*digit).saturating_sub(48)).min(CAP);
    }
    n
}

//! Texts that are cut where they are too long.
ghost use Rattle.std.specs.Prelude.{◌≡◌, ◌≢◌, ◌≤◌, ◌<◌, [], length};
ghost use Rattle.deck_listing.specs.Text.{IsCutTo, IsFrontOf};

use arrayvec::ArrayString;

/// Why a word is told, in the line of the word.
pub type ReasonText = ArrayString<110>;

/// A further line.
pub type Hint = ArrayString<158>;

/// What is written behind a text that is cut.
const MORE: &str = "..";

/// The front of a text, up to a space, which has at most so many bytes.
fn front_of(text: &str, most: usize) -> &str
    ensures short { length result.now ≤ most }
    ensures front { IsFrontOf text.now result.now }
{
    let bytes = text.as_bytes();
    let Some(front) = bytes.get(..most) else {
        return "";
    };
    let Some(end) = front.iter().rposition(|byte| *byte == b' ') else {
        return "";
    };
    match text.split_at_checked(end) {
        Some((front, _)) => front,
        None => "",
    }
}

/// A text, or as much of it as there is room for, up to a space, and two points.
pub fn fitted<const N: usize>(text: &str) -> ArrayString<N>
    requires room { 2 ≤ N }
    ensures whole { length text.now ≤ N → result.bytes ≡ text.now }
    ensures cut { N < length text.now → IsCutTo text.now result.bytes }
{
    let mut fitted = ArrayString::new();
    if fitted.try_push_str(text).is_ok() {
        return fitted;
    }
    let front = front_of(text, N - MORE.len());
    fitted.push_str(front);
    fitted.push_str(MORE);
    fitted
}

/// The text that is told of a word, whole or cut; where there is none, what is true of each refusal.
pub fn told_reason(why: &str) -> ReasonText
    ensures said { result.bytes ≢ [] }
    ensures whole { why.now ≢ [] → length why.now ≤ 110 → result.bytes ≡ why.now }
{
    if why.is_empty() {
        fitted("no deck has this here")
    } else {
        fitted(why)
    }
}

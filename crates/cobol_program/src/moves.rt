//! MOVE.
ghost use Rattle.std.specs.Prelude.{◌≤◌, ◌+◌, ◌^◌, length};

use crate::lines::ProgramLines;
use crate::literal::{LITERAL_LIMIT, digits_word, literal};
use record_layout::{Bytes, Field, Figure, Source};

fn figure_word(figure: Figure) -> &'static str {
    match figure {
        Figure::Space => "SPACES",
        Figure::Zero => "ZEROS",
        Figure::Low => "LOW-VALUES",
        Figure::High => "HIGH-VALUES",
    }
}

/// Moves a literal or a figurative constant to so many bytes of the area of a file.
fn add_piece(lines: &mut ProgramLines, file: usize, place: usize, length: usize, source: &str) {
    lines.add_with("    MOVE @ TO AREA-#(#:%).", source, &[file, place, length]);
}

/// Fills so many bytes of the area of a file with a figurative constant.
pub fn add_fill(
    lines: &mut ProgramLines,
    file: usize,
    place: usize,
    length: usize,
    figure: Figure,
) {
    add_piece(lines, file, place, length, figure_word(figure));
}

/// Moves bytes to so many bytes of the area of a file or more, which spaces fill: a literal for
/// each 24 bytes.
fn add_bytes(lines: &mut ProgramLines, file: usize, place: usize, room: usize, bytes: &[u8])
    requires fits { length bytes.now ≤ room }
    requires place { place + room ≤ 2 ^ 32 }
{
    let mut place = place;
    let mut left = room;
    let mut rest = bytes;
    'more: while rest.len() > LITERAL_LIMIT {
        let (piece, more) = rest.split_at(LITERAL_LIMIT);
        add_piece(lines, file, place, LITERAL_LIMIT, literal(piece).as_str());
        place += LITERAL_LIMIT;
        left -= LITERAL_LIMIT;
        rest = more;
    }
    add_piece(lines, file, place, left, literal(rest).as_str());
}

/// Moves a text to an item, whose excess is cut on the right.
fn add_text(lines: &mut ProgramLines, file: usize, field: Field, text: &[u8]) {
    let length = usize::from(field.length);
    let taken = &text[..text.len().min(length)];
    add_bytes(lines, file, usize::from(field.offset), length, taken);
}

/// The last digits of a number, so many at most.
fn last_digits(digits: &[u8], count: usize) -> &[u8]
    ensures { length result.now ≤ count }
{
    &digits[digits.len() - digits.len().min(count)..]
}

/// Moves digits to a numeric item, whose excess is cut on the left.
fn add_digits(lines: &mut ProgramLines, file: usize, field: Field, digits: &[u8]) {
    let length = usize::from(field.length);
    let place = usize::from(field.offset);
    let taken = last_digits(digits, length);
    let zeros = length - taken.len();
    if zeros > 0 {
        add_fill(lines, file, place, zeros, Figure::Zero);
    }
    add_bytes(lines, file, place + zeros, taken.len(), taken);
}

/// Adds a MOVE to an item of a file's record.
pub fn add_move(lines: &mut ProgramLines, file: usize, field: Field, source: &Source<Bytes>) {
    match source.as_ref() {
        Source::Digits(digits) if field.numeric => add_digits(lines, file, field, digits),
        Source::Text(text) | Source::Digits(text) => add_text(lines, file, field, text),
        Source::Fill(figure) => {
            let length = usize::from(field.length);
            add_fill(lines, file, usize::from(field.offset), length, figure)
        }
    }
}

/// Adds a MOVE to a 77-level item of so many digits.
pub fn add_move_to_item(
    lines: &mut ProgramLines,
    item: usize,
    count: usize,
    source: &Source<Bytes>,
) {
    let digits = match source.as_ref() {
        Source::Digits(digits) | Source::Text(digits) => last_digits(digits, count),
        Source::Fill(_) => b"0".as_slice(),
    };
    lines.add_with(
        "    MOVE @ TO ITEM-#.",
        digits_word(digits).as_str(),
        &[item],
    );
}

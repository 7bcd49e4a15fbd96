//! Items that are no record, and the words by which they are told.

use crate::bad_word::has_none_but;
use deck_parser::WordPlace;
use record_layout::{Item, Layout, LayoutFault};
use refused_deck::{Reading, ToldMessage};
use std::alloc::AllocError;

/// Whether a picture has this letter or digit, the letter in capitals or small.
fn has(text: &[u8], symbol: u8) -> bool {
    text.contains(&symbol) || text.contains(&symbol.to_ascii_lowercase())
}

/// Whether a picture that is none has digits alone, and so too many.
fn is_of_many_digits(text: &[u8]) -> bool {
    match text {
        [b'9', b'(', first, .., b')'] => *first != b'0' && has_none_but(text, b"0123456789()"),
        _ => has_none_but(text, b"9"),
    }
}

/// Why a picture is none.
fn picture_reason(text: &[u8]) -> &'static str {
    if is_of_many_digits(text) {
        "an item of digits has 1 to 18"
    } else if has(text, b'S') {
        "there are no signed numbers; a picture is X(n) or 9(n)"
    } else if has(text, b'V') {
        "there are no decimal points; a picture is X(n) or 9(n)"
    } else if has(text, b'A') {
        "a picture of letters is X(n); A is not read"
    } else if has(text, b'Z') || has(text, b'B') {
        "there are no edited pictures; a picture is X(n) or 9(n)"
    } else if has(text, b'X') && has(text, b'9') && !has(text, b'(') {
        "a picture of X and 9; a picture is X(n) or 9(n)"
    } else {
        "no picture; a picture is X(n) or 9(n)"
    }
}

/// Why a level number is none of a record, if it is none anywhere in one.
fn level_reason(level: u8, is_first: bool) -> Option<&'static str> {
    match level {
        1 if is_first => None,
        _ if is_first => Some("a record description begins with level 01"),
        1 => Some("a file has one record description, and one 01 level"),
        88 => Some("there are no condition names, of level 88; leave the entry out"),
        0 | 50..=99 => Some("the levels in a record are 01 to 49"),
        _ => None,
    }
}

/// The first item that is a group without items.
fn empty_group(items: &[Item]) -> usize {
    for (at, item) in items.iter().enumerate() {
        let is_group = match items.get(at.saturating_add(1)) {
            Some(next) => next.level > item.level,
            None => false,
        };
        if item.picture.is_none() && !is_group {
            return at;
        }
    }
    0
}

/// Whether so many items have a fault, other than that they end too early.
fn are_faulty(deck: &Reading<'_>, items: &[Item]) -> Result<bool, AllocError> {
    match Layout::build(deck.alloc, items) {
        Ok(_) | Err(LayoutFault::Empty) => Ok(false),
        Err(LayoutFault::Memory) => Err(AllocError),
        Err(_) => Ok(true),
    }
}

/// The first item with a fault. More items than have one have one, so it is found by halves.
fn first_faulty(deck: &Reading<'_>, items: &[Item]) -> Result<usize, AllocError> {
    let mut sound = 0usize;
    let mut faulty = items.len();
    for _ in 0..usize::BITS {
        let middle = sound.midpoint(faulty);
        let front = items.split_at(middle.min(items.len())).0;
        if middle == sound {
            return Ok(sound);
        }
        if are_faulty(deck, front)? {
            faulty = middle;
        } else {
            sound = middle;
        }
    }
    Ok(sound)
}

/// Why a level fits no group, which is not as great as that of the item before it, or greater.
fn unfit_level(
    deck: &Reading<'_>,
    from: WordPlace,
    at: usize,
    is_greater: bool,
) -> Result<String, AllocError> {
    if is_greater {
        let before = deck.shown(deck.item_word(from, at.saturating_sub(1)));
        return format!(in deck.alloc;
            "{before}, before it, has a picture, so it has no items of a greater level"
        );
    }
    let why = "no item before it has this level; the items in a group have one level";
    String::from_str(deck.alloc, why)
}

fn bad_level(deck: &Reading<'_>, from: WordPlace, items: &[Item], at: usize) -> ToldMessage {
    let level_word = deck.entry_words(from, at.saturating_add(1)).first();
    let place = level_word.copied().unwrap_or(from);
    let level = items.get(at).map_or(0, |item| item.level);
    let before = items.get(at.saturating_sub(1)).map_or(0, |item| item.level);
    match level_reason(level, at == 0) {
        Some(reason) => deck.tell_text(place, reason),
        None => deck.tell(place, unfit_level(deck, from, at, level > before)),
    }
}

fn bad_picture(deck: &Reading<'_>, from: WordPlace, at: usize) -> ToldMessage {
    let place = deck.last_word(from, at.saturating_add(1));
    deck.tell_text(place, picture_reason(deck.text(place)))
}

/// The first of the items that has the name of this one.
fn first_of_name(items: &[Item], at: usize) -> usize {
    let name = items.get(at).and_then(|item| item.name);
    items
        .iter()
        .position(|item| item.name == name)
        .unwrap_or(at)
}

fn named_twice(deck: &Reading<'_>, from: WordPlace, items: &[Item], at: usize) -> ToldMessage {
    let line = deck.item_word(from, first_of_name(items, at)).line;
    let why = format!(in deck.alloc;
        "an item of this name is in the record already, in line {line}"
    );
    deck.tell(deck.item_word(from, at), why)
}

/// What is told of the items of an FD that stands there, which are no record.
pub fn bad_items(
    deck: &Reading<'_>,
    from: WordPlace,
    items: &[Item],
    fault: LayoutFault,
) -> ToldMessage {
    let at = match fault {
        LayoutFault::Empty => empty_group(items),
        _ => first_faulty(deck, items)?,
    };
    let why = match fault {
        LayoutFault::BadPicture => return bad_picture(deck, from, at),
        LayoutFault::BadLevel => return bad_level(deck, from, items, at),
        LayoutFault::DuplicateName => return named_twice(deck, from, items, at),
        LayoutFault::Memory => return Err(AllocError),
        LayoutFault::TooLong => "with this item the record has more than 4,000 characters",
        LayoutFault::Empty => "this item has neither a picture nor items of a greater level",
    };
    deck.tell_text(deck.item_word(from, at), why)
}

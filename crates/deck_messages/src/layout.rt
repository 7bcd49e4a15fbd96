//! Lengths and keys that are not those of a record.

use crate::items::bad_items;
use crate::keys::bad_keys;
use deck_entries::{Described, RecordLength};
use deck_parser::{LayoutCause, WordPlace};
use record_layout::Picture;
use refused_deck::{Reading, ToldMessage, is_number, says, says_one_of};

/// How many digits a number has.
fn digits_of(number: u64) -> u64 {
    match number {
        0..=9 => 1,
        10..=99 => 2,
        100..=999 => 3,
        _ => 4,
    }
}

/// What a 77 item of this picture lacks that has to hold so many digits.
fn lacking_digits(picture: &[u8]) -> &'static str {
    match Picture::parse(picture) {
        Ok(read) if read.numeric => "needs",
        _ => "has to be",
    }
}

/// The numbers of a RECORD clause, among the words of an FD.
fn lengths_among(
    deck: &Reading<'_>,
    words: &[WordPlace],
) -> (Option<WordPlace>, Option<WordPlace>) {
    let mut lengths = (None, None);
    let mut is_record = false;
    for word in words {
        let text = deck.text(*word);
        if says(text, "RECORD") {
            is_record = true;
        } else if says_one_of(text, &["BLOCK", "LABEL"]) {
            is_record = false;
        } else if is_record && is_number(text) {
            lengths = match lengths {
                (None, _) => (Some(*word), None),
                (first, _) => (first, Some(*word)),
            };
        }
    }
    lengths
}

/// What is told of the lengths of an FD that stands there, whose record has this one.
fn bad_lengths(
    deck: &Reading<'_>,
    from: WordPlace,
    described: &Described,
    length: u16,
) -> ToldMessage {
    let (first, second) = lengths_among(deck, deck.entry_words(from, 0));
    let first = first.unwrap_or(from);
    let place = match &described.lengths {
        Some(RecordLength::Varying(lengths)) if lengths.greatest != u64::from(length) => {
            second.unwrap_or(from)
        }
        Some(RecordLength::Varying(lengths)) if lengths.least == 0 => {
            return deck.tell_text(first, "a record has at least one character");
        }
        Some(RecordLength::Varying(_)) => {
            return deck.tell_text(first, "the least length is more than the greatest one");
        }
        _ => first,
    };
    let why = format!(in deck.alloc; "the length of this record, by its items, is {length}");
    deck.tell(place, why)
}

/// What is told of a 77 item that cannot hold the lengths of an FD's records.
fn bad_length_item(
    deck: &Reading<'_>,
    from: WordPlace,
    described: &Described,
    greatest: u64,
) -> ToldMessage {
    let name = deck.known.length_item(described.name.as_str());
    let item = deck.known.storage_place(name).unwrap_or(from);
    let picture = deck.last_word(item, 0);
    let digits = digits_of(greatest);
    let needs = lacking_digits(deck.text(picture));
    let why = format!(in deck.alloc;
        "{name} holds lengths up to {greatest}: it {needs} 9({digits})"
    );
    deck.tell(picture, why)
}

/// What is told of a 77 item that is not of digits.
fn bad_storage(deck: &Reading<'_>, from: WordPlace) -> ToldMessage {
    let why = "a 77 item is of digits alone; its picture is 9(n), of 1 to 18 digits";
    deck.tell_text(deck.last_word(from, 0), why)
}

/// The file whose items, lengths or keys are none.
pub fn file_of(cause: LayoutCause) -> Option<usize> {
    match cause {
        LayoutCause::Items(file, _)
        | LayoutCause::Length(file, _)
        | LayoutCause::LengthItem(file, _)
        | LayoutCause::Keys(file, _) => Some(file),
        LayoutCause::Digits => None,
    }
}

/// What is told of items, lengths or keys that are none.
pub fn bad_layout(deck: &Reading<'_>, place: WordPlace, cause: LayoutCause) -> ToldMessage {
    let Some(file) = file_of(cause) else {
        return bad_storage(deck, place);
    };
    let Some(described) = deck.known.description(deck.known.file_name(file)) else {
        return deck.tell_text(place, "");
    };
    match cause {
        LayoutCause::Items(_, fault) => bad_items(deck, place, described.items(), fault),
        LayoutCause::Length(_, length) => bad_lengths(deck, place, described, length),
        LayoutCause::LengthItem(_, greatest) => {
            bad_length_item(deck, place, described, greatest)
        }
        LayoutCause::Keys(_, _) => bad_keys(deck, place, described),
        LayoutCause::Digits => bad_storage(deck, place),
    }
}

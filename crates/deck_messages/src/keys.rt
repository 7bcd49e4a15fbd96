//! Keys that the records of a file do not have.

use deck_entries::{Described, RecordLength};
use deck_parser::WordPlace;
use record_layout::{Field, Layout};
use refused_deck::{Among, Reading, ToldMessage};
use std::alloc::{AllocError, Global};

/// The most characters of a key.
const KEY_LIMIT: u16 = 250;

/// The least length of the records of an FD.
fn least_of(described: &Described, layout: &Layout) -> u64 {
    match &described.lengths {
        Some(RecordLength::Varying(lengths)) => lengths.least,
        _ => u64::from(layout.length()),
    }
}

/// The first of these keys that begins where this item begins.
fn beginning_there<'n>(layout: &Layout, keys: &'n [&'n str], field: Field) -> Option<&'n str> {
    for key in keys {
        if matches!(layout.field(key), Some(other) if other.offset == field.offset) {
            return Some(*key);
        }
    }
    None
}

/// The last word among these that is a name, or the first one.
fn word_of(
    deck: &Reading<'_>,
    words: &[WordPlace],
    name: &str,
    is_last: bool,
) -> Option<WordPlace> {
    let mut found = None;
    for word in words {
        if deck.is_word(*word, name) && (is_last || found.is_none()) {
            found = Some(*word);
        }
    }
    found
}

/// Why an item is no key, behind these keys; none where it is one.
fn key_reason(
    alloc: Global,
    layout: &Layout,
    before: &[&str],
    name: &str,
    field: Field,
    least: u64,
) -> Result<Option<String>, AllocError> {
    let length = field.length;
    let end = u64::from(field.offset).saturating_add(u64::from(length));
    let reason = match beginning_there(layout, before, field) {
        _ if length > KEY_LIMIT => format!(in alloc;
            "a key of {length} characters; a key has at most {KEY_LIMIT}"
        ),
        Some(other) if other == name => {
            String::from_str(alloc, "this item is a key of the file already")
        }
        Some(other) => {
            format!(in alloc; "this key begins at the same character as the key {other}")
        }
        None if end > least => format!(in alloc;
            "this key ends at character {end}, and the shortest record has {least}"
        ),
        None => return Ok(None),
    };
    Ok(Some(reason?))
}

/// What is told of the keys of a SELECT entry that stands there, of the file of an FD: of the first
/// one that has a fault.
pub fn bad_keys(deck: &Reading<'_>, from: WordPlace, described: &Described) -> ToldMessage {
    let keys = deck
        .known
        .names(deck.alloc, &Among::KeysOf(described.name.as_str()))?;
    let Ok(layout) = Layout::build(deck.alloc, described.items()) else {
        return deck.tell_text(from, "");
    };
    let least = least_of(described, &layout);
    for (at, name) in keys.iter().enumerate() {
        let name = *name;
        let before = keys.split_at(at.min(keys.len())).0;
        if let Some(field) = layout.field(name) {
            if let Some(why) = key_reason(deck.alloc, &layout, before, name, field, least)? {
                let words = deck.entry_words(from, 0);
                let place = word_of(deck, words, name, before.contains(&name));
                return deck.tell(place.unwrap_or(from), Ok(why));
            }
        }
    }
    deck.tell_text(from, "")
}

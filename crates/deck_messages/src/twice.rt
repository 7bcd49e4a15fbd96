//! What stands a second time.

use deck_parser::{FirstNamed, ItemPlace, Twice, WordPlace};
use refused_deck::{Reading, ToldMessage};

fn already(deck: &Reading<'_>, place: WordPlace, what: &str, line: u64) -> ToldMessage {
    deck.tell(
        place,
        format!(in deck.alloc; "{what} already, in line {line}"),
    )
}

/// What is told of an FD with an item whose name an item of an earlier file has.
fn item_twice(deck: &Reading<'_>, fd: WordPlace, first: ItemPlace, item: ItemPlace) -> ToldMessage {
    let place = deck.word_of_item(item).unwrap_or(fd);
    let file = deck.known.file_name(first.file);
    let line = deck.word_of_item(first).unwrap_or(fd).line;
    let why = format!(in deck.alloc; "{file} has an item of this name, in line {line}");
    deck.tell(place, why)?.with_text(
        deck.alloc,
        "data names are unique in a deck: name one of the two items otherwise",
    )
}

/// What is told of a 77 item whose name is there already.
fn storage_twice(deck: &Reading<'_>, level: WordPlace, first: FirstNamed) -> ToldMessage {
    let line = match first {
        FirstNamed::Item(item) => deck.word_of_item(item).unwrap_or(level).line,
        FirstNamed::LengthItem(line) => line,
    };
    already(deck, deck.subject(level), "this name is there", line)
}

/// What is told of a name, or of a clause, that is there already.
pub fn twice(deck: &Reading<'_>, place: WordPlace, twice: Twice) -> ToldMessage {
    match twice {
        Twice::Clause(line) => already(deck, place, "a clause that this entry has", line),
        Twice::Selected(line) => already(deck, place, "this file is selected", line),
        Twice::Assigned(line) => already(deck, place, "this name is assigned to a file", line),
        Twice::Described(line) => already(deck, place, "this file has an FD", line),
        Twice::Item(first, item) => item_twice(deck, place, first, item),
        Twice::LengthItem(first) => storage_twice(deck, place, first),
    }
}

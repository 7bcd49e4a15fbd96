//! Names that nothing has, or something else.

use crate::lacking::without;
use deck_parser::{Named, Unknown, WordPlace};
use refused_deck::{Among, Message, Reading, ToldMessage};
use std::alloc::AllocError;

/// What has a name where something else is wanted, or that nothing has it.
fn of_name(
    deck: &Reading<'_>,
    place: WordPlace,
    named: Named,
    wants: &str,
    nothing: &str,
) -> ToldMessage {
    let alloc = deck.alloc;
    let why = match named {
        Named::File(_) => format!(in alloc; "a file; {wants}"),
        Named::Record(file) => {
            let file = deck.known.file_name(file);
            format!(in alloc; "a record of {file}; {wants}")
        }
        Named::Item(file) => {
            let file = deck.known.file_name(file);
            format!(in alloc; "an item of {file}; {wants}")
        }
        Named::LengthItem => format!(in alloc; "a 77 item; {wants}"),
        Named::Nothing => String::from_str(alloc, nothing),
    };
    deck.tell(place, why)
}

/// The same, with a line of what may be meant, and a line of the names of a kind.
fn of_name_among(
    deck: &Reading<'_>,
    place: WordPlace,
    named: Named,
    told: (&str, &str),
    meant: String,
    names: (&str, Among<'_>),
) -> ToldMessage {
    of_name(deck, place, named, told.0, told.1)?
        .with_hint(meant)?
        .with_hint(deck.listed(names.0, &names.1)?)
}

fn no_select(deck: &Reading<'_>, place: WordPlace) -> ToldMessage {
    deck.tell_text(place, "no SELECT entry selects a file of this name")?
        .with_hint(deck.perhaps(&Among::Files, deck.text(place))?)?
        .with_hint(deck.listed("files: ", &Among::Files)?)
}

fn no_description(deck: &Reading<'_>, select: WordPlace) -> ToldMessage {
    let place = deck.subject(select);
    deck.tell_text(place, "this file has a SELECT entry and no FD")?
        .with_hint(deck.perhaps(&Among::Descriptions, deck.text(place))?)
}

fn no_key(deck: &Reading<'_>, select: WordPlace, file: usize, key: usize) -> ToldMessage {
    let place = match deck.known.key_name(file, key) {
        Some(name) => deck.named_in(select, name),
        None => select,
    };
    let file = deck.known.file_name(file);
    let why = format!(in deck.alloc;
        "a key has to be an item of the record of {file}, and none has this name"
    );
    deck.tell(place, why)?
        .with_hint(deck.perhaps(&Among::ItemsOf(file), deck.text(place))?)?
        .with_hint(deck.listed("its items: ", &Among::ItemsOf(file))?)
}

fn no_length_item(deck: &Reading<'_>, fd: WordPlace, file: usize, named: Named) -> ToldMessage {
    let name = deck.known.length_item(deck.known.file_name(file));
    let place = deck.named_in(fd, name);
    let nothing = "no 77 item of WORKING-STORAGE has this name";
    let meant = deck.perhaps(&Among::Storage, deck.text(place))?;
    let told = ("DEPENDING ON wants a 77 item", nothing);
    let names = ("77 items: ", Among::Storage);
    of_name_among(deck, place, named, told, meant, names)
}

/// A line with the file to which a name belongs, or one that is spelled nearly so.
fn file_meant(deck: &Reading<'_>, place: WordPlace, named: Named) -> Result<String, AllocError> {
    match named {
        Named::Record(file) | Named::Item(file) => {
            let file = deck.known.file_name(file);
            format!(in deck.alloc; "its file: {file}")
        }
        _ => deck.perhaps(&Among::Files, deck.text(place)),
    }
}

fn no_file(deck: &Reading<'_>, place: WordPlace, named: Named) -> ToldMessage {
    let verb = deck.verb(place);
    let wants = format!(in deck.alloc; "{verb} wants a file")?;
    let told = (
        wants.as_str(),
        "no SELECT entry selects a file of this name",
    );
    of_name_among(
        deck,
        place,
        named,
        told,
        file_meant(deck, place, named)?,
        ("files: ", Among::Files),
    )
}

/// A line with the record of a file.
fn record_of(deck: &Reading<'_>, verb: &str, file: usize) -> Result<String, AllocError> {
    let heading = format!(in deck.alloc; "perhaps {verb} ")?;
    let record = Among::RecordOf(deck.known.file_name(file));
    deck.listed(heading.as_str(), &record)
}

/// A line with the record of the file that a name belongs to, or one that is spelled nearly so.
fn record_meant(
    deck: &Reading<'_>,
    place: WordPlace,
    named: Named,
    verb: &str,
) -> Result<String, AllocError> {
    match named {
        Named::File(file) | Named::Record(file) | Named::Item(file) => record_of(deck, verb, file),
        Named::LengthItem => Ok(String::new(deck.alloc)),
        Named::Nothing => deck.perhaps(&Among::Records, deck.text(place)),
    }
}

fn no_record(deck: &Reading<'_>, place: WordPlace, named: Named) -> ToldMessage {
    let verb = deck.verb(place);
    let wants = format!(in deck.alloc; "{verb} wants a record")?;
    let told = (wants.as_str(), "no file has a record of this name");
    let meant = record_meant(deck, place, named, verb)?;
    let names = ("records: ", Among::Records);
    of_name_among(deck, place, named, told, meant, names)
}

fn no_key_item(deck: &Reading<'_>, place: WordPlace, file: usize, named: Named) -> ToldMessage {
    let file = deck.known.file_name(file);
    let wants = format!(in deck.alloc; "KEY IS wants an item of {file}")?;
    let none = String::new(deck.alloc);
    let told = (wants.as_str(), "no item has this name");
    let names = ("its keys: ", Among::KeysOf(file));
    of_name_among(deck, place, named, told, none, names)
}

fn no_receiver(deck: &Reading<'_>, place: WordPlace, named: Named) -> ToldMessage {
    let told = of_name(
        deck,
        place,
        named,
        "MOVE wants an item or a record",
        "no item has this name",
    )?
    .with_hint(deck.perhaps(&Among::Targets, deck.text(place))?)?;
    match named {
        Named::File(file) => {
            let record = Among::RecordOf(deck.known.file_name(file));
            told.with_hint(deck.listed("its record: ", &record)?)
        }
        _ => Ok(told),
    }
}

/// What to do without a word that decks do not have, where it stands in a statement for a name.
fn lacking(text: &[u8], unknown: Unknown) -> Option<&'static str> {
    match unknown {
        Unknown::Selected | Unknown::Described | Unknown::Key(..) | Unknown::LengthItem(..) => None,
        Unknown::File(_) | Unknown::Record(_) | Unknown::KeyItem(..) | Unknown::Receiver(_) => {
            without(text)
        }
    }
}

/// What is told of a name that nothing has, or something else.
pub fn unknown(deck: &Reading<'_>, place: WordPlace, unknown: Unknown) -> ToldMessage {
    if let Some(text) = lacking(deck.text(place), unknown) {
        return Message::not_read(deck.alloc, place, text);
    }
    match unknown {
        Unknown::Selected => no_select(deck, place),
        Unknown::Described => no_description(deck, place),
        Unknown::Key(file, key) => no_key(deck, place, file, key),
        Unknown::LengthItem(file, named) => no_length_item(deck, place, file, named),
        Unknown::File(named) => no_file(deck, place, named),
        Unknown::Record(named) => no_record(deck, place, named),
        Unknown::KeyItem(file, named) => no_key_item(deck, place, file, named),
        Unknown::Receiver(named) => no_receiver(deck, place, named),
    }
}

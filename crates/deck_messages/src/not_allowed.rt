//! What is not allowed where it stands.

use deck_parser::{NotAllowed, WordPlace};
use io_state::Access;
use refused_deck::{Among, Reading, ToldMessage, capitals};

/// The most characters of the name of a file.
const NAME_LIMIT: usize = 64;

/// What stands between the marks of a literal.
fn inner(text: &[u8]) -> &[u8] {
    match text {
        [_, inner @ .., _] => inner,
        _ => text,
    }
}

fn has_file_name_bytes(name: &[u8]) -> bool {
    name.iter().all(|byte| byte.is_ascii_alphanumeric() || matches!(*byte, b'.' | b'-' | b'_'))
}

/// Why a literal is no name of a file.
fn file_name_reason(name: &[u8]) -> &'static str {
    if name.contains(&b'/') || name.contains(&b'\\') {
        "a path; the name of a file alone stands here, and --folder names the folder"
    } else if name.len() > NAME_LIMIT {
        "the name of a file has at most 64 characters"
    } else if !has_file_name_bytes(name) {
        "the name of a file has letters, digits, points, hyphens and underscores alone"
    } else {
        "the name of a file begins with a letter or a digit"
    }
}

fn access_word(access: Access) -> &'static str {
    match access {
        Access::Sequential => "SEQUENTIAL",
        Access::Random => "RANDOM",
        Access::Dynamic => "DYNAMIC",
    }
}

/// What is told of a word that the access of its file does not allow.
fn of_access(
    deck: &Reading<'_>,
    place: WordPlace,
    file: usize,
    what: &str,
    wants: &str,
) -> ToldMessage {
    let name = deck.known.file_name(file);
    let access = match deck.known.entry(file) {
        Some(selected) => access_word(selected.entry.access),
        None => "",
    };
    let why = format!(in deck.alloc; "{what} wants ACCESS {wants}; {name} has {access}");
    deck.tell(place, why)
}

/// What is told of an item that is no key of a file, nor begins one where that would do.
fn no_key_of(deck: &Reading<'_>, place: WordPlace, file: usize, may_begin: bool) -> ToldMessage {
    let name = deck.known.file_name(file);
    let why = if may_begin {
        format!(in deck.alloc; "neither a key of {name} nor an item at the beginning of one")
    } else {
        format!(in deck.alloc; "no key of {name}")
    };
    deck.tell(place, why)?
        .with_hint(deck.listed("its keys: ", &Among::KeysOf(name))?)
}

/// What is told of an item of digits that does not take the source of a MOVE.
fn not_taken(deck: &Reading<'_>, place: WordPlace, source: WordPlace) -> ToldMessage {
    let name = capitals(deck.text(place));
    let picture = deck.known.picture(name.as_str()).unwrap_or("9(n)");
    let why = format!(in deck.alloc; "PIC {picture}, which takes digits alone");
    let source = deck.shown(source);
    let hint = format!(in deck.alloc;
        "it takes a number, a literal of digits, or ZEROS, and not {source}"
    );
    deck.tell(place, why)?.with_hint(hint?)
}

/// What is told of something that is not allowed where it stands.
pub fn not_allowed(deck: &Reading<'_>, place: WordPlace, what: NotAllowed) -> ToldMessage {
    let (file, does, wants) = match what {
        NotAllowed::FileName => {
            return deck.tell_text(place, file_name_reason(inner(deck.text(place))));
        }
        NotAllowed::KeyWithNext => return deck.tell_text(place, ""),
        NotAllowed::NoKey(file) => return no_key_of(deck, place, file, false),
        NotAllowed::NoLeadingKey(file) => return no_key_of(deck, place, file, true),
        NotAllowed::Source(source, _) => return not_taken(deck, place, source),
        NotAllowed::Open(file, _) => (file, "OPEN EXTEND", "SEQUENTIAL"),
        NotAllowed::Start(file) => (file, "START", "SEQUENTIAL or DYNAMIC"),
        NotAllowed::Next(file) => (file, "READ NEXT", "SEQUENTIAL or DYNAMIC"),
        NotAllowed::Key(file) => (file, "READ with KEY", "RANDOM or DYNAMIC"),
    };
    of_access(deck, place, file, does, wants)
}

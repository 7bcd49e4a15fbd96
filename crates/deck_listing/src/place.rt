//! A place of a deck.
ghost use Rattle.std.specs.Prelude.{◌≡◌, ◌≤◌, ◌++◌, length};
ghost use Rattle.deck_listing.specs.Place.{line_feeds, IsPlaceInDeck, StandsAt};

/// A line of a deck, from 1, and bytes of the deck that begin there.
#[derive(Clone, Copy)]
pub struct DeckPlace<'a> {
    pub line: u64,
    pub text: &'a [u8],
}

/// How many line feeds there are.
fn line_feeds(bytes: &[u8]) -> usize
    ensures { result ≡ line_feeds bytes.now }
{
    bytes.iter().filter(|byte| **byte == b'\n').count()
}

/// The bytes before a place, and those from it on. Behind the last byte there is no further place.
fn parted(bytes: &[u8], at: usize) -> (&[u8], &[u8])
    ensures whole { result.0.now ++ result.1.now ≡ bytes.now }
    ensures short { length result.0.now ≤ at }
    ensures at { at ≤ length bytes.now → length result.0.now ≡ at }
{
    bytes.split_at(at.min(bytes.len()))
}

/// The bytes of a deck from a place on, at most so many of them, and their line.
pub fn place_of(bytes: &[u8], start: usize, most: usize) -> DeckPlace<'_>
    ensures place { IsPlaceInDeck bytes.now result }
    ensures at { start ≤ length bytes.now → StandsAt bytes.now start result.text.now }
    ensures short { length result.text.now ≤ most }
{
    let (before, behind) = parted(bytes, start);
    let (text, _rest) = parted(behind, most);
    DeckPlace {
        line: line_feeds(before) as u64 + 1,
        text,
    }
}

//! What was wanted where a deck goes wrong.

use deck_parser::{NameOf, WantedWord};
use refused_deck::{Shown, is_near, says};
use std::alloc::{AllocError, Global};
use std::fmt;

/// The words, and the kinds of words, with which the deck would have gone on, in the order in which
/// they were looked for.
#[derive(Clone, Copy)]
pub struct WantedWords<'w> {
    pub wanted: &'w [WantedWord],
}

/// One of them, as it is told. A literal is told as a source of a MOVE or as the name of a file.
#[derive(Clone, Copy)]
struct WantedText<'a> {
    wanted: &'a WantedWord,
    is_source: bool,
}

/// Other spellings of words that are told.
const SPELLINGS: [&str; 5] = ["SPACE", "ZERO", "ZEROES", "LOW-VALUE", "HIGH-VALUE"];

fn name_text(name: NameOf) -> &'static str {
    match name {
        NameOf::File => "the name of a file",
        NameOf::Record => "the name of a record",
        NameOf::Item => "the name of an item",
        NameOf::LengthItem => "the name of a 77 item",
        NameOf::Paragraph => "the name of a paragraph",
        NameOf::Program | NameOf::Status => "a name",
    }
}

impl<'a> fmt::Display for WantedText<'a> {
    fn fmt<W: fmt::Write>(&self, f: &mut fmt::Formatter<W>) -> fmt::Result {
        match self.wanted {
            WantedWord::Word(text) | WantedWord::Sign(text) => {
                let text = Shown(text);
                write!(f, "{text}")
            }
            WantedWord::Name(name) => f.write_str(name_text(*name)),
            WantedWord::Number => f.write_str("a number"),
            WantedWord::Level => f.write_str("a level number"),
            WantedWord::Picture => f.write_str("a picture, as X(10) or 9(6)"),
            WantedWord::Literal if self.is_source => f.write_str("a literal"),
            WantedWord::Literal => f.write_str("the name of a file in marks, as 'cust.dat'"),
            WantedWord::Period => f.write_str("a period"),
        }
    }
}

/// Whether it is another spelling of a word that is told as well.
fn is_other_spelling(wanted: &WantedWord) -> bool {
    match wanted {
        WantedWord::Word(text) => SPELLINGS.iter().any(|spelling| says(text, spelling)),
        _ => false,
    }
}

impl<'w> WantedWords<'w> {
    pub fn has(&self, wanted: WantedWord) -> bool {
        self.wanted.iter().any(|own| *own == wanted)
    }

    pub fn has_word(&self, word: &str) -> bool {
        self.wanted.iter().any(|own| matches!(own, WantedWord::Word(text) if says(text, word)))
    }

    /// Whether the name of something else than a paragraph has to come.
    pub fn is_for_name(&self) -> bool {
        let has_name = self.wanted.iter().any(
            |own| matches!(own, WantedWord::Name(name) if *name != NameOf::Paragraph),
        );
        has_name && !self.has(WantedWord::Period)
    }

    /// Whether the source of a MOVE has to come.
    pub fn is_for_source(&self) -> bool {
        self.has_word("SPACES")
    }

    /// The first of the words of which a text may be a misspelling.
    pub fn misspelt(&self, text: &[u8]) -> Option<&'static [u8]> {
        for own in self.wanted {
            if let WantedWord::Word(word) = own {
                if is_near(text, word) {
                    return Some(*word);
                }
            }
        }
        None
    }

    /// A line of them; no text where there are none.
    pub fn expected(&self, alloc: Global) -> Result<String, AllocError> {
        let mut list = String::new(alloc);
        let is_source = self.is_for_source();
        for wanted in self.wanted {
            if !is_other_spelling(wanted) {
                let before = if list.as_str().is_empty() {
                    "expected: "
                } else {
                    ", "
                };
                let told = WantedText { wanted, is_source };
                write!(list, "{before}{told}")?;
            }
        }
        Ok(list)
    }
}

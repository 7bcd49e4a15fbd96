//! What was tried at a word and did not fit.

use arrayvec::ArrayVec;
use std::cell::RefCell;

/// A word, or a class of words, that would have fitted.
#[derive(Clone, Copy, Debug, PartialEq, Eq, Default)]
pub enum WantedWord {
    Word(&'static [u8]),
    Sign(&'static [u8]),
    Name(NameOf),
    Number,
    Level,
    Picture,
    Literal,
    #[default]
    Period,
}

/// Which class of words it is.
#[derive(Clone, Copy, Debug, PartialEq, Eq)]
pub enum WantedClass {
    Word,
    Sign,
    Name,
    Number,
    Level,
    Picture,
    Literal,
    Period,
}

impl WantedWord {
    ghost use Rattle.std.specs.Prelude.{◌≡◌};
    ghost use Rattle.deck_parser.specs.WantedWord.{class_wanted};

    /// The class of the words that would have fitted.
    pub fn class(self) -> WantedClass
        ensures { result ≡ class_wanted self }
    {
        match self {
            WantedWord::Word(_) => WantedClass::Word,
            WantedWord::Sign(_) => WantedClass::Sign,
            WantedWord::Name(_) => WantedClass::Name,
            WantedWord::Number => WantedClass::Number,
            WantedWord::Level => WantedClass::Level,
            WantedWord::Picture => WantedClass::Picture,
            WantedWord::Literal => WantedClass::Literal,
            WantedWord::Period => WantedClass::Period,
        }
    }
}

/// What has a name.
#[derive(Clone, Copy, Debug, PartialEq, Eq)]
pub enum NameOf {
    Program,
    File,
    Record,
    Item,
    LengthItem,
    Status,
    Paragraph,
}

/// Words and classes in the order in which they were tried, none twice.
pub type WantedList = ArrayVec<WantedWord, 32>;

/// What was tried at a word and did not fit. It is written while words are only seen, so it stands
/// in a cell, and contracts know nothing of it.
#[derive(Drop)]
pub struct Note {
    tried: RefCell<WantedList>,
}

impl Note {
    /// Nothing was tried.
    pub fn new() -> Self {
        Note {
            tried: RefCell::new(WantedList::new()),
        }
    }

    pub fn add(&self, wanted: WantedWord) {
        if let Ok(mut tried) = self.tried.try_borrow_mut() {
            if !tried.contains(&wanted) {
                let _ = tried.try_push(wanted);
            }
        }
    }

    /// What was tried.
    pub fn list(&self) -> WantedList {
        let mut list = WantedList::new();
        if let Ok(tried) = self.tried.try_borrow() {
            let _ = list.try_extend_from_slice(tried.as_slice());
        }
        list
    }
}

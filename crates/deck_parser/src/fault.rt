//! Why a deck is refused.
ghost use Rattle.std.specs.Prelude.{◌≡◌};
ghost use Rattle.deck_parser.specs.Fault.{cause_code, told};

use crate::place::WordPlace;
use crate::wanted::WantedClass;
use io_state::OpenMode;
use record_layout::{LayoutFault, SchemaFault};
use std::alloc::{AllocError, AllocFailed};
use thiserror::Error;

/// A fault of a deck: its line, from 1, and its code.
///
/// | Code | Fault |
/// |---|---|
/// | 1 | bytes that are no word |
/// | 2 | a word with which no deck goes on |
/// | 3 | a name that nothing has |
/// | 4 | a name, or a clause, a second time |
/// | 5 | something that is not allowed here |
/// | 6 | too much or too many |
/// | 7 | items or keys that are none |
/// | 8 | want of memory, at line 0 |
#[derive(Clone, Copy, Debug, PartialEq, Eq, Error)]
#[error("line {line}: fault {code}")]
pub struct DeckFault {
    pub line: u64,
    pub code: u8,
}

/// What is wrong at a word.
#[derive(Clone, Copy, Debug, PartialEq, Eq)]
pub enum FaultCause {
    BadWord,
    Expected(Expected),
    Unknown(Unknown),
    Twice(Twice),
    NotAllowed(NotAllowed),
    Limit(Limit),
    Layout(LayoutCause),
}

/// What is missing where a word does not fit.
#[derive(Clone, Copy, Debug, PartialEq, Eq)]
pub enum Expected {
    /// One of the words and classes that a parser notes there. The last one is of this class.
    Words(WantedClass),
    /// The period of a paragraph, behind its name, which stands there.
    Paragraph(WordPlace),
    /// ORGANIZATION IS INDEXED, in an entry that ends here.
    Indexed,
    /// RECORD KEY, in an entry that ends here.
    RecordKey,
}

/// What has a name. A file is its place among the SELECT entries, from 0.
#[derive(Clone, Copy, Debug, PartialEq, Eq)]
pub enum Named {
    Nothing,
    File(usize),
    /// The record of this file.
    Record(usize),
    /// Another item of the record of this file.
    Item(usize),
    /// A 77-level item.
    LengthItem,
}

/// An item of a file: the place of the file among the SELECT entries, and the item's in its FD, both from 0.
#[derive(Clone, Copy, Debug, PartialEq, Eq)]
pub struct ItemPlace {
    pub file: usize,
    pub item: usize,
}

/// What has a data name first.
#[derive(Clone, Copy, Debug, PartialEq, Eq)]
pub enum FirstNamed {
    Item(ItemPlace),
    /// The 77-level item that begins in this line.
    LengthItem(u64),
}

/// Of what a name is none, and what it is the name of, where something else may have it. A file is
/// its place among the SELECT entries, from 0.
#[derive(Clone, Copy, Debug, PartialEq, Eq)]
pub enum Unknown {
    /// A file with a SELECT entry, behind FD.
    Selected,
    /// A file with an FD, behind SELECT.
    Described,
    /// An item of the record of this file, which a key has to be; and which key that is: 0 is the
    /// RECORD KEY, and from 1 on there are the alternate keys.
    Key(usize, usize),
    /// A 77-level item, behind DEPENDING ON in the FD of this file.
    LengthItem(usize, Named),
    File(Named),
    Record(Named),
    /// An item of the record of this file, behind KEY IS.
    KeyItem(usize, Named),
    /// What a MOVE can receive.
    Receiver(Named),
}

/// What is there already, and the line of the first one, or what the first one is.
#[derive(Clone, Copy, Debug, PartialEq, Eq)]
pub enum Twice {
    Clause(u64),
    Selected(u64),
    Assigned(u64),
    Described(u64),
    /// The name of an item of an earlier file, and the item of a later one that has it too.
    Item(ItemPlace, ItemPlace),
    /// The name of a 77-level item.
    LengthItem(FirstNamed),
}

/// What is not allowed where it stands. A file is its place among the SELECT entries, from 0.
#[derive(Clone, Copy, Debug, PartialEq, Eq)]
pub enum NotAllowed {
    /// A literal that is no file name.
    FileName,
    /// OPEN in this mode, by the access of the file.
    Open(usize, OpenMode),
    Start(usize),
    Next(usize),
    /// KEY where the READ is sequential by the access of the file.
    Key(usize),
    /// KEY behind NEXT.
    KeyWithNext,
    /// An item that is no key of the file.
    NoKey(usize),
    /// An item that neither is a key of the file nor begins one.
    NoLeadingKey(usize),
    /// An item of so many digits, which does not take the source that stands there.
    Source(WordPlace, u16),
}

/// Which limit is passed.
#[derive(Clone, Copy, Debug, PartialEq, Eq)]
pub enum Limit {
    Bytes,
    Files,
    AlternateKeys,
    Digits,
}

/// Why items or keys are none. A file is its place among the SELECT entries, from 0.
#[derive(Clone, Copy, Debug, PartialEq, Eq)]
pub enum LayoutCause {
    /// The items of a file.
    Items(usize, LayoutFault),
    /// The lengths of an FD are not those of the record, which is so long by its items.
    Length(usize, u16),
    /// The item that has the length of a record of this file, up to this one.
    LengthItem(usize, u64),
    /// A 77-level item that is not of digits.
    Digits,
    /// The keys of a file.
    Keys(usize, SchemaFault),
}

/// Why nothing is read: want of memory, or a fault, which is told at a line. The word that has the
/// fault may stand in another line.
#[derive(Clone, Copy, Debug, PartialEq, Eq)]
pub enum ParseRefusal {
    Memory,
    Fault(u64, WordPlace, FaultCause),
}

impl FaultCause {
    /// Its code in a `DeckFault`.
    fn code(self) -> u8
        ensures { result ≡ cause_code self }
    {
        match self {
            FaultCause::BadWord => 1,
            FaultCause::Expected(_) => 2,
            FaultCause::Unknown(_) => 3,
            FaultCause::Twice(_) => 4,
            FaultCause::NotAllowed(_) => 5,
            FaultCause::Limit(_) => 6,
            FaultCause::Layout(_) => 7,
        }
    }
}

impl From<AllocError> for ParseRefusal {
    ghost use Rattle.std.specs.Prelude.{◌≡◌};
    ghost use Rattle.deck_parser.specs.declared.fault.ParseRefusal.TheVariants.{Memory};

    ghost from_gives = { λ _ e. e ≡ Memory };

    fn from(_error: AllocError) -> ParseRefusal {
        ParseRefusal::Memory
    }
}

impl<T: Drop> From<AllocFailed<T>> for ParseRefusal {
    ghost use Rattle.std.specs.Prelude.{◌≡◌};
    ghost use Rattle.deck_parser.specs.declared.fault.ParseRefusal.TheVariants.{Memory};

    ghost from_gives = { λ _ e. e ≡ Memory };

    fn from(_error: AllocFailed<T>) -> ParseRefusal {
        ParseRefusal::Memory
    }
}

impl From<ParseRefusal> for DeckFault {
    ghost use Rattle.std.specs.Prelude.{◌≡◌};
    ghost use Rattle.deck_parser.specs.Fault.{told};

    ghost from_gives = { λ refusal fault. fault ≡ told refusal };

    fn from(refusal: ParseRefusal) -> DeckFault {
        match refusal {
            ParseRefusal::Memory => DeckFault { line: 0, code: 8 },
            ParseRefusal::Fault(line, _place, cause) => DeckFault {
                line,
                code: cause.code(),
            },
        }
    }
}

//! What a check answers.

use pages::{Damage, FaultPlace};
use thiserror::Error;

/// What a file is: one of so many records in so many pages, the first page among them, or not
/// sound, and where that was met. The place of the first three reasons is the file as a whole.
#[derive(Clone, Copy, Debug, PartialEq, Eq)]
pub enum Verdict {
    Sound { records: u64, pages: u32 },
    Unsound(Reason, FaultPlace),
}

/// Why a file is not sound. The first three are told in this order, before all others; of the
/// others any that holds may be told.
#[derive(Clone, Copy, Debug, PartialEq, Eq)]
pub enum Reason {
    /// There are fewer bytes than a page has, or than the page count needs.
    Short,
    /// The gate is not closed.
    Gate,
    /// The first page is not that of a file, for another cause.
    Header,
    /// A page is reached twice.
    Shared,
    /// A node of a tree is of another kind, key, count, depth or fill than its place requires.
    Node,
    /// Tree keys are out of order, or outside their separators.
    Order,
    /// A slot has no mark of one, or a chain of slots, heap pages or free pages is broken.
    Heap,
    /// An index and the records do not agree.
    Index,
    /// A page is reached by nothing.
    Lost,
}

impl Reason {
    ghost use Rattle.std.specs.Prelude.{◌≡◌};
    ghost use Rattle.file_checker.specs.Numbers.{number_of};
    ghost use Rattle.file_checker.specs.Reasons.{reason_of};

    /// The reason by which damage is told.
    pub fn of_damage(damage: Damage) -> Reason
        ensures { result ≡ reason_of damage }
    {
        match damage {
            Damage::Shared => Reason::Shared,
            Damage::Node => Reason::Node,
            Damage::Order => Reason::Order,
            Damage::Heap => Reason::Heap,
            Damage::Index => Reason::Index,
            Damage::Lost => Reason::Lost,
        }
    }

    /// Its number, from 1 on.
    pub fn number(self) -> u8
        ensures { result ≡ number_of self }
    {
        match self {
            Reason::Short => 1,
            Reason::Gate => 2,
            Reason::Header => 3,
            Reason::Shared => 4,
            Reason::Node => 5,
            Reason::Order => 6,
            Reason::Heap => 7,
            Reason::Index => 8,
            Reason::Lost => 9,
        }
    }
}

/// Why a file was not checked.
#[derive(Clone, Copy, Debug, PartialEq, Eq, Error)]
pub enum CheckFault {
    #[error("the file cannot be read")]
    Input,
    #[error("out of memory")]
    Memory,
}

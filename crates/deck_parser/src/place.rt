//! Where a word stands.

use crate::fault::{FaultCause, ParseRefusal};

/// Where a word stands in its deck: the line of its first byte, from 1, and its bytes, from `start`
/// up to `end`. Where a deck ends too early: the line of its last word, or 1, and no bytes at its end.
#[derive(Clone, Copy, Debug, PartialEq, Eq)]
pub struct WordPlace {
    pub line: u64,
    pub start: u32,
    pub end: u32,
}

impl WordPlace {
    ghost use Rattle.std.specs.Prelude.{◌≡◌};
    ghost use Rattle.deck_parser.specs.Fault.{IsFault};
    ghost use Rattle.deck_parser.specs.declared.fault.ParseRefusal.TheVariants.{Fault};

    /// A fault of the word there.
    pub fn fault(self, cause: FaultCause) -> ParseRefusal
        ensures fault { IsFault result }
        ensures given { result ≡ Fault self.line self cause }
    {
        ParseRefusal::Fault(self.line, self, cause)
    }

    /// A fault of the word there, which is told at another line.
    pub fn fault_told_at(self, line: u64, cause: FaultCause) -> ParseRefusal
        ensures fault { IsFault result }
        ensures given { result ≡ Fault line self cause }
    {
        ParseRefusal::Fault(line, self, cause)
    }
}

//! A statement of a deck.

use io_state::FileStatement;
use record_layout::{Bytes, Field, Source};

/// A statement of the procedure division. A file is its place among the deck's SELECT entries, from
/// 0; a length item is its place among the 77-level entries, from 0.
#[derive(Drop)]
pub enum Statement {
    /// An input-output statement on a file.
    Perform {
        file: usize,
        statement: FileStatement,
    },
    /// MOVE to an item of a file's record.
    Move {
        file: usize,
        field: Field,
        source: Source<Bytes>,
    },
    /// MOVE to a length item.
    MoveLength {
        item: usize,
        source: Source<Bytes>,
    },
    StopRun,
}

//! What is wrong in a file.

use thiserror::Error;

/// What is wrong with a page of a file, or with an entry or slot of one.
#[derive(Clone, Copy, Debug, PartialEq, Eq, Error)]
pub enum Damage {
    #[error("a page is reached twice")]
    Shared,
    #[error("a node is not what its place requires")]
    Node,
    #[error("tree keys are out of order")]
    Order,
    #[error("a chain of pages or slots is broken")]
    Heap,
    #[error("an index and the records do not agree")]
    Index,
    #[error("a page is reached by nothing")]
    Lost,
}

//! Why words ask for no condition of a list.

use thiserror::Error;

/// Why words ask for no condition on the records of a file of a deck.
#[derive(Clone, Copy, Debug, PartialEq, Eq, Error)]
pub enum ConditionFault {
    #[error("a condition is an item, '=', '<', '<=', '>' or '>=', and a value")]
    NoSign,
    #[error("'--where' wants '--deck' and '--file'")]
    NoDeck,
    #[error("the record has no item of the name in a condition")]
    NoItem,
    #[error("a value in a condition is longer than its item")]
    LongValue,
}

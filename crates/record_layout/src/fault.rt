//! Why a description is refused.

use thiserror::Error;

/// Why a list of items has no layout.
#[derive(Clone, Copy, Debug, PartialEq, Eq, Error)]
pub enum LayoutFault {
    #[error("a picture is neither one of X nor one of 1 to 18 digits")]
    BadPicture,
    #[error("a level number does not fit the items before it")]
    BadLevel,
    #[error("a record is longer than 4000 characters")]
    TooLong,
    #[error("an item has the name of an earlier one")]
    DuplicateName,
    #[error("a group has no items")]
    Empty,
    #[error("out of memory")]
    Memory,
}

/// Why a layout does not have these keys.
#[derive(Clone, Copy, Debug, PartialEq, Eq, Error)]
pub enum SchemaFault {
    #[error("a key names no item of the record")]
    NoSuchField,
    #[error("a key is longer than 250 characters")]
    KeyTooLong,
    #[error("two keys have the same leftmost character")]
    SameLeftmost,
    #[error("there are more than 8 alternate keys")]
    TooManyKeys,
    #[error("a key ends past the least length of a record")]
    KeyPastLeast,
}

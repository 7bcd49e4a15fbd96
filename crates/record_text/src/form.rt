//! The forms.

use crate::column::Column;

/// How records are written.
#[derive(Drop)]
pub enum Form {
    /// A record in brackets, and LF.
    Text,
    /// The values of these columns with commas between, and CRLF, below a line of their names.
    Csv(Vec<Column>),
    /// An object with a string for each of these columns, and LF.
    Json(Vec<Column>),
}

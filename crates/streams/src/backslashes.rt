//! How an escape begins.

/// How many backslashes stand before the two digits of an escape.
#[derive(Clone, Copy, Debug, PartialEq, Eq)]
pub enum Backslashes {
    /// In text and in CSV.
    One,
    /// In JSON, where a backslash stands behind another one.
    Two,
}

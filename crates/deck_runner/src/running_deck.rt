//! A deck in memory while it runs.

use crate::line::LineText;
use crate::running_file::RunningFile;
use crate::running_item::RunningItem;

/// The files of a deck in the order of their SELECT entries, its length items in the order of their
/// entries, and the text of the line that was made last. What runs over it is lent a library, of
/// which each file has the unit of its place, and a writer.
#[derive(Drop)]
pub struct RunningDeck {
    pub files: Vec<RunningFile>,
    pub items: Vec<RunningItem>,
    pub line: LineText,
}

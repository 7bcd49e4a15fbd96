//! What is asked of a list of records.

use crate::listing::Bounds;
use command_words::FormWords;

/// What is asked of a list: the path of a file, what is listed of it, the words for the form, and whether
/// the file is checked first.
#[derive(Clone, Copy)]
pub struct Listing<'a> {
    pub file: &'a str,
    pub bounds: Bounds<'a>,
    pub form: FormWords<'a>,
    pub checked: bool,
}

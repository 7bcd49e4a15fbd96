//! The words that ask for a form.

/// The words that ask for the form of a list: which it is, how characters outside of ASCII are written,
/// and what its columns are: those between cuts, or those of a file of a deck. They are as they were
/// given.
#[derive(Clone, Copy, Debug)]
pub struct FormWords<'a> {
    pub kind: &'a str,
    pub encoding: &'a str,
    pub cut: Option<&'a str>,
    pub deck: Option<&'a str>,
    pub name: Option<&'a str>,
}

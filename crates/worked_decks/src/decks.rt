//! A deck and its transcript as steps.

/// A statement, or several, beside the line that it gives in the transcript, if it gives one.
pub type Step = (&'static str, &'static str);

/// A deck over one file, and what the file is before it and after it.
#[derive(Clone, Copy)]
pub struct Worked {
    /// All divisions but the statements.
    pub heading: &'static str,
    /// The name of the file in the deck.
    pub file: &'static str,
    /// The name on the shelf.
    pub assigned: &'static str,
    /// The statements that make the file; none where it is absent at first.
    pub before: &'static [Step],
    pub steps: &'static [Step],
    /// What the file reads as before the deck, and after each CLOSE of it.
    pub reads: &'static [&'static [Step]],
    /// What it may read as besides, where a READ by key has failed.
    pub astray: &'static [&'static [Step]],
    /// A read of the file where it is refused.
    pub refused: &'static [Step],
}

/// Decks that are run one after another over the same files, each as its divisions but the statements, and
/// its steps.
#[derive(Clone, Copy)]
pub struct Runs {
    pub decks: &'static [(&'static str, &'static [Step])],
}

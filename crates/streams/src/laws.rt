//! How lists in UTF-8 and in ASCII belong together.
ghost use Rattle.streams.specs.Laws.{ReadsBack, TakesOnlyCharacters, EncodesEachEscape};

/// A list in ASCII that was written in UTF-8 is read back as it was.
pub fn read_back()
    ensures { ReadsBack }
{}

/// A text of which a list in ASCII is made has no characters but those of ASCII and U+00A0 to U+00FF.
pub fn only_characters()
    ensures { TakesOnlyCharacters }
{}

/// In UTF-8 the escape of each byte from a0 to ff is its character, and all else is as it was.
pub fn each_escape()
    ensures { EncodesEachEscape }
{}

//! The encoding of a text that is listed or loaded.
ghost use Rattle.std.specs.Prelude.{◌≡◌, IfSome, None};
ghost use Rattle.command_line.specs.Encoding.{encoding_word, IsNoEncodingWord, AreBackslashesOf};

use streams::Backslashes;

/// The encodings that a text can have.
#[derive(Clone, Copy, Debug, PartialEq, Eq)]
pub enum Encoding {
    Ascii,
    Utf8,
}

/// The encoding that a word asks for.
pub fn encoding_of(word: &str) -> Option<Encoding>
    ensures encoding { IfSome result (λ encoding. word.now ≡ encoding_word encoding) }
    ensures none { result ≡ None → IsNoEncodingWord word.now }
{
    if word == "ascii" {
        return Some(Encoding::Ascii);
    }
    if word == "utf-8" {
        return Some(Encoding::Utf8);
    }
    None
}

/// How many backslashes begin an escape in the form that a word asks for.
pub fn backslashes_of(form: &str) -> Backslashes
    ensures { AreBackslashesOf form.now result }
{
    if form == "json" {
        return Backslashes::Two;
    }
    Backslashes::One
}

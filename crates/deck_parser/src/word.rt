//! A word of a deck.
ghost use Rattle.std.specs.Prelude.{◌≡◌, option_map};
ghost use Rattle.deck_parser.specs.Word.{sign_text, plain_text, literal_text};

use crate::literal::Quoted;
use crate::place::WordPlace;
use io_state::Name;
use std::marker::Model;

/// What a word says.
#[derive(Drop)]
pub enum WordText<'a> {
    /// Letters, digits, hyphens and parentheses, in capitals: a name, a reserved word, a number or a picture.
    Plain(Name),
    /// What stood between two marks, in which a doubled mark stands once.
    Literal(Quoted<'a>),
    Sign(Sign),
    Period,
}

/// A sign of comparison: `=` `>` `>=` `<`.
#[derive(Clone, Copy, Debug, PartialEq, Eq)]
pub enum Sign {
    Equal,
    Greater,
    GreaterOrEqual,
    Less,
}

/// A word, the line of its first byte, from 1, and how many bytes of the deck stand before it.
/// Contracts see its line, its kind and its text.
#[derive(Drop)]
pub struct Word<'a> {
    pub line: u64,
    pub start: u32,
    pub text: WordText<'a>,
}

impl<'a> Model for Word<'a> {
    ghost use Rattle.deck_parser.specs.Word.{Word as Seen, word_of, kind_of_word, text_of_word};

    ghost Value = { Seen };

    ghost view = { λ word. word_of word.line (kind_of_word word.text) (text_of_word word.text) };
}

impl Sign {
    /// How it is written.
    pub fn text(self) -> &'static [u8]
        ensures { result.now ≡ sign_text self }
    {
        match self {
            Sign::Equal => b"=".as_slice(),
            Sign::Greater => b">".as_slice(),
            Sign::GreaterOrEqual => b">=".as_slice(),
            Sign::Less => b"<".as_slice(),
        }
    }
}

impl<'a> Word<'a> {
    /// How many bytes it has in its deck.
    fn written_len(&self) -> usize {
        match &self.text {
            WordText::Plain(name) => name.as_str().len(),
            WordText::Literal(text) => text.written_len(),
            WordText::Sign(sign) => sign.text().len(),
            WordText::Period => 1,
        }
    }

    /// Where it stands.
    pub fn place(&self) -> WordPlace
        ensures { result.line ≡ self.now.line }
    {
        let end = usize::try_from(self.start)
            .unwrap_or(0)
            .saturating_add(self.written_len());
        WordPlace {
            line: self.line,
            start: self.start,
            end: u32::try_from(end).unwrap_or(self.start),
        }
    }

    /// The text of a plain word.
    pub fn plain(&self) -> Option<&Name>
        ensures { option_map (λ name. name.now.bytes) result ≡ plain_text self.now }
    {
        match &self.text {
            WordText::Plain(name) => Some(name),
            WordText::Literal(_) | WordText::Sign(_) | WordText::Period => None,
        }
    }

    /// What stands between the marks of a literal.
    pub fn literal(&self) -> Option<&Quoted<'a>>
        ensures { option_map (λ text. text.now) result ≡ literal_text self.now }
    {
        match &self.text {
            WordText::Literal(text) => Some(text),
            WordText::Plain(_) | WordText::Sign(_) | WordText::Period => None,
        }
    }
}

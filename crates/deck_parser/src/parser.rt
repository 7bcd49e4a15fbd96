//! The words that are still to be read, and the steps that read one.
ghost use Rattle.std.specs.Prelude.{◌≡◌, ◌≢◌, [], ◌∷◌, map, drop, Some, length, MatchResult, IfErr};
ghost use Rattle.std.specs.List.{list_any};
ghost use Rattle.deck_parser.specs.Class.{begins, is_in, this, names, numbers, levels, pictures, signs};
ghost use Rattle.deck_parser.specs.Class.{periods};
ghost use Rattle.deck_parser.specs.Unfit.{IsFirstLine, IsRefusedThere, IsUnfit};
ghost use Rattle.deck_parser.specs.Word.{first_line};
ghost use Rattle.deck_parser.specs.WantedWord.{class_wanted};
ghost use Rattle.deck_parser.specs.Rule.{one, stop_at};
ghost use Rattle.deck_parser.specs.Notation.{the, may, eaten, name, literal, period};
ghost use Rattle.deck_parser.specs.Operand.{sign, digits};
ghost use Rattle.deck_parser.specs.Reading.{Reads, ReadsAs, Eats, Stops, TellsStop};
ghost use Rattle.deck_parser.specs.Fault.{IsFault, cause_code};

use crate::fault::{Expected, FaultCause, Limit, ParseRefusal};
use crate::name::{is_name_text, is_number_text};
use crate::place::WordPlace;
use crate::remaining::Words;
use crate::wanted::{NameOf, Note, WantedClass, WantedList, WantedWord};
use crate::word::{Word, WordText};
use io_state::Name;
use record_layout::Bytes;
use std::alloc::Global;
use std::marker::Model;

/// The most digits of a number.
const DIGIT_LIMIT: usize = 18;

/// The words that are still to be read: the next one, and those behind it. Where a place is given,
/// what is tried at the word there and does not fit is noted. Contracts see the words.
#[derive(Drop)]
pub struct Parser<'a> {
    next: Option<Word<'a>>,
    behind: Words<'a>,
    noted_at: Option<u32>,
    note: Note,
}

impl<'a> Model for Parser<'a> {
    ghost use Rattle.std.specs.Prelude.{List};
    ghost use Rattle.deck_parser.specs.Word.{Word};
    ghost use Rattle.deck_parser.specs.Remaining.{from_next};

    ghost Value = { List Word };

    ghost view = { λ parser. from_next parser.next parser.behind };
}

fn is_this(word: &Word<'_>, text: &[u8]) -> bool
    ensures { result ≡ is_in (this text.now) word.now }
{
    match word.plain() {
        Some(own) => own.as_str().as_bytes() == text,
        None => false,
    }
}

fn is_one_of(word: &Word<'_>, texts: &[&[u8]]) -> bool
    ensures { result ≡ list_any (λ text. is_in (this text.now) word.now) texts.now }
{
    texts.iter().any(|text| is_this(word, text))
}

fn is_name(word: &Word<'_>) -> bool
    ensures { result ≡ is_in names word.now }
{
    match word.plain() {
        Some(text) => is_name_text(text.as_str().as_bytes()),
        None => false,
    }
}

fn is_number(word: &Word<'_>) -> bool
    ensures { result ≡ is_in numbers word.now }
{
    match word.plain() {
        Some(text) => is_number_text(text.as_str().as_bytes()),
        None => false,
    }
}

fn is_level(word: &Word<'_>) -> bool
    ensures { result ≡ is_in levels word.now }
{
    match word.plain() {
        Some(text) => is_number_text(text.as_str().as_bytes()) && text.as_str().len() <= 2,
        None => false,
    }
}

fn is_picture(word: &Word<'_>) -> bool
    ensures { result ≡ is_in pictures word.now }
{
    match word.plain() {
        Some(text) => text.as_str().as_bytes() != b"IS".as_slice(),
        None => false,
    }
}

fn is_sign(word: &Word<'_>, text: &[u8]) -> bool
    ensures { result ≡ is_in (signs text.now) word.now }
{
    match &word.text {
        WordText::Sign(sign) => sign.text() == text,
        _ => false,
    }
}

fn is_period(word: &Word<'_>) -> bool
    ensures { result ≡ is_in periods word.now }
{
    matches!(&word.text, WordText::Period)
}

impl<'a> Parser<'a> {
    /// All of the words are to be read.
    pub fn new(words: &Words<'a>) -> Self
        ensures { result ≡ words.now }
    {
        let mut behind = words.copy();
        let next = behind.next();
        Parser {
            next,
            behind,
            noted_at: None,
            note: Note::new(),
        }
    }

    /// All of the words are to be read, and what is tried at the word of this place is noted.
    pub fn noting(words: &Words<'a>, place: WordPlace) -> Self
        ensures { result ≡ words.now }
    {
        let mut behind = words.copy();
        let next = behind.next();
        Parser {
            next,
            behind,
            noted_at: Some(place.start),
            note: Note::new(),
        }
    }

    /// Goes on to the word behind the next one.
    fn advance(&mut self)
        ensures { self.new ≡ drop 1 self.old }
    {
        if self.next.is_some() {
            self.next = self.behind.next();
        }
    }

    /// The line of the next word, or 0 where none is left.
    pub fn line(&self) -> u64
        ensures { result ≡ first_line self.now }
    {
        match &self.next {
            Some(word) => word.line,
            None => 0,
        }
    }

    /// Where the next word stands, or where the deck ends.
    pub fn place(&self) -> WordPlace
        ensures { IsFirstLine self.now result.line }
    {
        match &self.next {
            Some(word) => word.place(),
            None => self.behind.end(),
        }
    }

    /// Where the next word stands, by the line that `line` gives.
    pub fn word_place(&self) -> WordPlace
        ensures { result.line ≡ first_line self.now }
    {
        WordPlace {
            line: self.line(),
            ..self.place()
        }
    }

    /// What was tried at the word of the place that was given, and did not fit.
    pub fn wanted(&self) -> WantedList {
        self.note.list()
    }

    /// Whether what is tried at the next word is noted.
    fn is_noted(&self) -> bool {
        match self.noted_at {
            Some(start) => self.place().start == start,
            None => false,
        }
    }

    /// Notes what does not fit at the next word.
    fn tried(&self, wanted: WantedWord) {
        if self.is_noted() {
            self.note.add(wanted);
        }
    }

    /// Notes words that do not fit at the next word.
    fn tried_each(&self, texts: &[&'static [u8]]) {
        if self.is_noted() {
            for text in texts {
                self.note.add(WantedWord::Word(*text));
            }
        }
    }

    /// A fault at the next word, or at the end.
    pub fn fault(&self, cause: FaultCause) -> ParseRefusal
        ensures fault { IsFault result }
        ensures at { IsRefusedThere self.now result }
        ensures stops { TellsStop (stop_at self.now (cause_code cause)) result }
    {
        self.place().fault(cause)
    }

    /// The next word does not fit, nor does what is wanted there.
    fn unfit(&self, wanted: WantedWord) -> ParseRefusal
        ensures fault { IsFault result }
        ensures unfit { IsUnfit (class_wanted wanted) self.now result }
    {
        self.tried(wanted);
        self.place()
            .fault(FaultCause::Expected(Expected::Words(wanted.class())))
    }

    /// Whether this word is next.
    pub fn sees(&self, text: &'static [u8]) -> bool
        ensures { result ≡ begins (this text.now ∷ []) self.now }
    {
        match &self.next {
            Some(word) if is_this(word, text) => true,
            _ => {
                self.tried(WantedWord::Word(text));
                false
            }
        }
    }

    /// Whether one of these words is next.
    #[tactic(auto, using(crate::proofs::ClassLemmas::any_of_map))]
    pub fn sees_one_of(&self, texts: &[&'static [u8]]) -> bool
        ensures { result ≡ begins (map (λ text. this text.now) texts.now) self.now }
    {
        match &self.next {
            Some(word) if is_one_of(word, texts) => true,
            _ => {
                self.tried_each(texts);
                false
            }
        }
    }

    /// Whether a name is next.
    pub fn sees_name(&self, of: NameOf) -> bool
        ensures { result ≡ begins (names ∷ []) self.now }
    {
        match &self.next {
            Some(word) if is_name(word) => true,
            _ => {
                self.tried(WantedWord::Name(of));
                false
            }
        }
    }

    /// Whether a name or this word is next.
    pub fn sees_name_or(&self, of: NameOf, text: &'static [u8]) -> bool
        ensures { result ≡ begins (names ∷ this text.now ∷ []) self.now }
    {
        match &self.next {
            Some(word) if is_name(word) || is_this(word, text) => true,
            _ => {
                self.tried(WantedWord::Name(of));
                self.tried(WantedWord::Word(text));
                false
            }
        }
    }

    /// Whether a level number is next.
    pub fn sees_level(&self) -> bool
        ensures { result ≡ begins (levels ∷ []) self.now }
    {
        match &self.next {
            Some(word) if is_level(word) => true,
            _ => {
                self.tried(WantedWord::Level);
                false
            }
        }
    }

    /// How many words are still to be read.
    pub fn left(&self) -> usize
        ensures { result ≡ length self.now }
    {
        match &self.next {
            Some(_) => self.behind.len() + 1,
            None => 0,
        }
    }

    /// Takes this word.
    #[tactic(auto, unfolding(crate::specs::Notation::the))]
    pub fn expect(&mut self, text: &'static [u8]) -> Result<(), ParseRefusal>
        ensures reads { Reads ((the text.now).reads self.old) result self.new }
        ensures unfit { IfErr result (IsUnfit WantedClass.Word self.old) }
        ensures stops { Stops (the text.now) self.old result }
    {
        match &self.next {
            Some(word) if is_this(word, text) => {
                self.advance();
                Ok(())
            }
            _ => Err(self.unfit(WantedWord::Word(text))),
        }
    }

    /// Takes this word if it is next.
    #[tactic(auto, unfolding(crate::specs::Notation::the))]
    pub fn eat(&mut self, text: &'static [u8]) -> bool
        ensures may { (may text.now).reads self.old ≡ Some (eaten result, self.new) }
        ensures eats { Eats (this text.now) (the text.now) self.old self.new result }
    {
        match &self.next {
            Some(word) if is_this(word, text) => {
                self.advance();
                true
            }
            _ => {
                self.tried(WantedWord::Word(text));
                false
            }
        }
    }

    /// A name.
    #[tactic(auto, unfolding(crate::specs::Notation::name))]
    pub fn name(&mut self, of: NameOf) -> Result<Name, ParseRefusal>
        ensures reads { ReadsAs (λ name. name.bytes) name self.old result self.new }
        ensures unfit { IfErr result (IsUnfit WantedClass.Name self.old) }
        ensures stops { Stops name self.old result }
    {
        let Some(word) = &self.next else {
            return Err(self.unfit(WantedWord::Name(of)));
        };
        match word.plain() {
            Some(text) if is_name(word) => {
                let text = *text;
                self.advance();
                Ok(text)
            }
            _ => Err(self.unfit(WantedWord::Name(of))),
        }
    }

    /// The one or two digits of a level number.
    pub fn level(&mut self) -> Result<Name, ParseRefusal>
        ensures reads { ReadsAs (λ level. level.bytes) (one levels) self.old result self.new }
        ensures unfit { IfErr result (IsUnfit WantedClass.Level self.old) }
        ensures stops { Stops (one levels) self.old result }
    {
        let Some(word) = &self.next else {
            return Err(self.unfit(WantedWord::Level));
        };
        match word.plain() {
            Some(text) if is_level(word) => {
                let text = *text;
                self.advance();
                Ok(text)
            }
            _ => Err(self.unfit(WantedWord::Level)),
        }
    }

    /// Any plain word but IS.
    pub fn picture(&mut self) -> Result<Name, ParseRefusal>
        ensures reads { ReadsAs (λ text. text.bytes) (one pictures) self.old result self.new }
        ensures unfit { IfErr result (IsUnfit WantedClass.Picture self.old) }
        ensures stops { Stops (one pictures) self.old result }
    {
        let Some(word) = &self.next else {
            return Err(self.unfit(WantedWord::Picture));
        };
        match word.plain() {
            Some(text) if is_picture(word) => {
                let text = *text;
                self.advance();
                Ok(text)
            }
            _ => Err(self.unfit(WantedWord::Picture)),
        }
    }

    /// The digits of a number. A number of more than 18 of them is past the limit.
    #[tactic(auto, unfolding(crate::specs::Operand::digits))]
    pub fn digits(&mut self) -> Result<Name, ParseRefusal>
        ensures reads { ReadsAs (λ text. text.bytes) digits self.old result self.new }
        ensures at { IfErr result (IsRefusedThere self.old) }
        ensures stops { Stops digits self.old result }
    {
        let Some(word) = &self.next else {
            return Err(self.unfit(WantedWord::Number));
        };
        match word.plain() {
            Some(text) if is_number(word) => {
                let digits = *text;
                if digits.as_str().len() > DIGIT_LIMIT {
                    return Err(self.fault(FaultCause::Limit(Limit::Digits)));
                }
                self.advance();
                Ok(digits)
            }
            _ => Err(self.unfit(WantedWord::Number)),
        }
    }

    /// What stands between the marks of a literal, in memory of its own.
    #[tactic(auto, unfolding(crate::specs::Notation::literal))]
    pub fn literal(&mut self, alloc: Global) -> Result<Bytes, ParseRefusal>
        ensures reads { Reads (literal.reads self.old) result self.new }
        ensures unfit { IfErr result (IsUnfit WantedClass.Literal self.old) }
        ensures stops { Stops literal self.old result }
    {
        let Some(word) = &self.next else {
            return Err(self.unfit(WantedWord::Literal));
        };
        let Some(quoted) = word.literal() else {
            return Err(self.unfit(WantedWord::Literal));
        };
        let text = quoted.text(alloc)?;
        self.advance();
        Ok(text)
    }

    /// Takes a period.
    #[tactic(auto, unfolding(crate::specs::Notation::period))]
    pub fn period(&mut self) -> Result<(), ParseRefusal>
        ensures reads { Reads (period.reads self.old) result self.new }
        ensures unfit { IfErr result (IsUnfit WantedClass.Period self.old) }
        ensures stops { Stops period self.old result }
    {
        match &self.next {
            Some(word) if is_period(word) => {
                self.advance();
                Ok(())
            }
            _ => Err(self.unfit(WantedWord::Period)),
        }
    }

    /// Whether a literal is next.
    #[tactic(auto, unfolding(crate::specs::Notation::literal))]
    pub fn sees_literal(&self) -> bool
        ensures { result ≡ begins literal.starts self.now }
    {
        match &self.next {
            Some(word) if matches!(&word.text, WordText::Literal(_)) => true,
            _ => {
                self.tried(WantedWord::Literal);
                false
            }
        }
    }

    /// Whether a number is next.
    #[tactic(auto, unfolding(crate::specs::Operand::digits))]
    pub fn sees_digits(&self) -> bool
        ensures { result ≡ begins digits.starts self.now }
    {
        match &self.next {
            Some(word) if is_number(word) => true,
            _ => {
                self.tried(WantedWord::Number);
                false
            }
        }
    }

    /// Takes this sign.
    #[tactic(auto, unfolding(crate::specs::Operand::sign))]
    pub fn expect_sign(&mut self, text: &'static [u8]) -> Result<(), ParseRefusal>
        ensures reads { Reads ((sign text.now).reads self.old) result self.new }
        ensures unfit { IfErr result (IsUnfit WantedClass.Sign self.old) }
        ensures stops { Stops (sign text.now) self.old result }
    {
        match &self.next {
            Some(word) if is_sign(word, text) => {
                self.advance();
                Ok(())
            }
            _ => Err(self.unfit(WantedWord::Sign(text))),
        }
    }

    /// Takes this sign if it is next.
    #[tactic(auto, unfolding(crate::specs::Operand::sign))]
    pub fn eat_sign(&mut self, text: &'static [u8]) -> bool
        ensures { Eats (signs text.now) (sign text.now) self.old self.new result }
    {
        match &self.next {
            Some(word) if is_sign(word, text) => {
                self.advance();
                true
            }
            _ => {
                self.tried(WantedWord::Sign(text));
                false
            }
        }
    }

    /// All words have been read: none is left, and what is wanted is not next.
    pub fn end(&self, wanted: WantedWord) -> Result<(), ParseRefusal>
        ensures end { MatchResult result (λ _. self.now ≡ []) (λ _. self.now ≢ []) }
        ensures unfit { IfErr result (IsUnfit (class_wanted wanted) self.now) }
        ensures stops { IfErr result (TellsStop (stop_at self.now 2)) }
    {
        if self.next.is_none() {
            Ok(())
        } else {
            Err(self.unfit(wanted))
        }
    }
}

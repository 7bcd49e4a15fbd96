//! The lines of a text in COBOL.
ghost use Rattle.std.specs.Prelude.{◌≡◌, ◌≤◌, ◌+◌, ◌++◌, [], length, map, flat_map, string_bytes, All, OnOk};
ghost use Rattle.std.specs.Prelude.{IfOk};
ghost use Rattle.cobol_program.specs.Layout.{laid, FitsLine, IsLaidOut};

use crate::form::SourceForm;
use crate::literal::ProgramWord;
use arrayvec::ArrayString;
use std::alloc::{AllocError, Global};
use std::fmt::Write;

/// A line between the columns 8 and 72.
type Line = ArrayString<65>;

/// A line that may go on, and has room for a period.
type Begun = ArrayString<ROOM>;

/// The most bytes of a line before its period.
const ROOM: usize = 64;

/// What stands in the gaps of a pattern: a word, and numbers.
#[derive(Drop)]
struct Gaps<'a> {
    word: &'a str,
    numbers: &'a [usize],
}

impl<'a> Gaps<'a> {
    /// The next number; the last one again where none is left.
    fn number(&mut self) -> usize {
        match self.numbers {
            [] => 0,
            [last] => *last,
            [first, rest @ ..] => {
                self.numbers = rest;
                *first
            }
        }
    }

    /// Adds a byte of a pattern to a word, or what stands there for it.
    fn add_byte(&mut self, word: &mut ProgramWord, byte: u8) {
        match byte {
            b'#' => {
                let n = self.number().saturating_add(1);
                let _ = write!(word, "{n}");
            }
            b'%' => {
                let n = self.number();
                let _ = write!(word, "{n}");
            }
            b'@' => {
                let _ = word.try_push_str(self.word);
            }
            b'~' => {
                let _ = word.try_push(' ');
            }
            _ => {
                let _ = word.try_push(char::from(byte));
            }
        }
    }

    /// A word of a pattern with its gaps filled.
    fn filled(&mut self, pattern: &str) -> ProgramWord {
        let mut word = ProgramWord::new();
        for byte in pattern.as_bytes() {
            self.add_byte(&mut word, *byte);
        }
        word
    }
}

/// Lines, the last one of which may go on. They are added by patterns: words with a space before each,
/// and a period behind the last one of a sentence. In a word `~` is a space, `@` the word that is
/// given, `#` the next number of a place, which counts from 1, and `%` the next number as it is.
#[derive(Drop)]
pub struct ProgramLines {
    ended: Vec<Line>,
    last: Begun,
    /// Whether memory was refused for a line: no line is added from then on, and there is no text.
    lacks_memory: bool,
}

/// Adds a line to a text.
fn lay(text: &mut String, form: SourceForm, line: &Line) -> Result<(), AllocError>
    ensures text { OnOk result (string_bytes text.new ≡ string_bytes text.old ++ laid form line.now.bytes) }
    ensures fits { FitsLine line.now.bytes }
{
    let line = line.as_str();
    text.push_str(form.margin())?;
    text.push_str(line)?;
    text.push_str("\n")
}

/// The text of lines.
fn laid_out(alloc: Global, form: SourceForm, lines: &[Line]) -> Result<String, AllocError>
    ensures { IfOk result (λ text. IsLaidOut form (string_bytes text)) }
{
    let mut text = String::new(alloc);
    for line in lines {
        lay(&mut text, form, line)?;
    }
    Ok(text)
}

impl ProgramLines {
    ghost use Rattle.std.specs.Prelude.{◌≡◌, ◌≤◌, ◌++◌, ◌∷◌, [], length, string_bytes, IsOk, IfOk, false};
    ghost use Rattle.cobol_program.specs.Layout.{IsLaidOut};

    pub fn new(alloc: Global) -> Self {
        ProgramLines {
            ended: Vec::new(alloc),
            last: Begun::new(),
            lacks_memory: false,
        }
    }

    /// The text, in a form, of the lines that are ended.
    pub fn text(&self, alloc: Global, form: SourceForm) -> Result<String, AllocError>
        ensures layout { IfOk result (λ text. IsLaidOut form (string_bytes text)) }
        ensures whole { IsOk result → self.now.lacks_memory ≡ false }
    {
        if self.lacks_memory {
            return Err(AllocError);
        }
        laid_out(alloc, form, self.ended.as_slice())
    }

    /// Adds a line that is ended, or keeps in mind that it is lacking.
    fn keep(&mut self, line: Line)
        ensures { self.new.lacks_memory ≡ false → (self.old.lacks_memory ≡ false)
            × (self.new.ended.items ≡ self.old.ended.items ++ line ∷ []) }
    {
        if !self.lacks_memory {
            self.lacks_memory = self.ended.push(line).is_err();
        }
    }

    /// Ends the last line with this text, which is a period or nothing.
    fn end_with(&mut self, end: &str)
        requires { length end.now ≤ 1 }
        ensures { self.new.last.bytes ≡ [] }
    {
        let mut line = Line::new();
        line.push_str(self.last.as_str());
        line.push_str(end);
        self.keep(line);
        self.last.clear();
    }

    /// Ends the last line, if something stands there.
    fn end_line(&mut self)
        ensures { self.new.last.bytes ≡ [] }
    {
        if !self.last.is_empty() {
            self.end_with("");
        }
    }

    /// Begins a line with a word that may be long.
    fn begin(&mut self, word: &str)
        requires { length word.now ≤ 56 }
    {
        self.end_line();
        self.last.push_str("        ");
        self.last.push_str(word);
    }

    /// What stands before a further word.
    fn space(&self) -> &'static str
        ensures { length result.now ≤ 1 }
    {
        if self.last.is_empty() || self.last.as_str().ends_with(' ') {
            ""
        } else {
            " "
        }
    }

    /// Adds a word behind a space, or in a line of its own where it does not fit.
    fn word(&mut self, word: &str)
        requires { length word.now ≤ 56 }
    {
        if self.last.len() + 1 + word.len() > ROOM {
            return self.begin(word);
        }
        let space = self.space();
        self.last.push_str(space);
        self.last.push_str(word);
    }

    /// Adds a word of a pattern; a period behind it ends the line.
    fn add_word(&mut self, pattern: &str, gaps: &mut Gaps<'_>) {
        match pattern.strip_suffix('.') {
            Some(front) => {
                self.word(gaps.filled(front).as_str());
                self.end_with(".");
            }
            None => self.word(gaps.filled(pattern).as_str()),
        }
    }

    /// Goes on in the last line with a pattern.
    pub fn go_on(&mut self, pattern: &str, word: &str, numbers: &[usize]) {
        let mut gaps = Gaps { word, numbers };
        for own in pattern.split(' ') {
            self.add_word(own, &mut gaps);
        }
    }

    /// Begins a line with a pattern, behind as many spaces as that has.
    pub fn add_with(&mut self, pattern: &str, word: &str, numbers: &[usize]) {
        self.end_line();
        let words = pattern.trim_start();
        for _ in words.len()..pattern.len() {
            let _ = self.last.try_push(' ');
        }
        self.go_on(words, word, numbers);
    }

    /// The same, where no word is given.
    pub fn add(&mut self, pattern: &str, numbers: &[usize]) {
        self.add_with(pattern, "", numbers);
    }

    /// Begins a line with each of these patterns; to each the same numbers are given.
    pub fn add_all(&mut self, patterns: &[&str], numbers: &[usize]) {
        for pattern in patterns {
            self.add(pattern, numbers);
        }
    }
}

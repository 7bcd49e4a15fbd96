//! The first line of a transcript by which each file answers 30.
ghost use Rattle.std.specs.Prelude.{◌≡◌, ◌<◌, ℕ, List, [], ◌∷◌, ◌++◌, get_or, length, codes, true};
ghost use Rattle.std.specs.Option.{IfSome};
ghost use Rattle.streams.specs.FaultLines.{AreFaultsOf, AreFaultLines, IsFaultLine, TellsLine};
ghost use Rattle.streams.specs.FaultLines.{line_number};
ghost use Rattle.streams.specs.LinesIn.{IsWithinLine};

use arrayvec::ArrayVec;

/// The most bytes of a line that has no record: a verb, a name of 30 bytes, and a status.
const LINE_LIMIT: usize = 48;

/// The most files of a deck.
const FILE_LIMIT: usize = 8;

/// A line by which a file answered 30: the file's name, and the number of the line.
#[derive(Drop, Default)]
pub struct FaultLine {
    name: ArrayVec<u8, LINE_LIMIT>,
    number: u64,
}

/// How many lines were written, the line that is being written, if it is short, and the first lines
/// by which files answered 30.
#[derive(Drop)]
pub struct FaultLines {
    lines: u64,
    fits: bool,
    line: ArrayVec<u8, LINE_LIMIT>,
    firsts: ArrayVec<FaultLine, FILE_LIMIT>,
}

/// Where the last space is, if there is one.
fn last_space(bytes: &[u8]) -> Option<usize>
    ensures { IfSome result (λ at. (at < length bytes.now) × (get_or bytes.now at 0 ≡ 32)) }
{
    let mut found = None;
    for at in 0..bytes.len() {
        if bytes[at] == b' ' {
            found = Some(at);
        }
    }
    found
}

/// The text in front of the status 30, if a line ends in it.
fn in_front_of_status(line: &[u8]) -> Option<&[u8]>
    ensures { IfSome result (λ front. line.now ≡ front.now ++ codes " 30") }
{
    let size = line.len();
    if size < 3 {
        return None;
    }
    let (front, status) = line.split_at(size - 3);
    if status[0] == b' ' && status[1] == b'3' && status[2] == b'0' {
        Some(front)
    } else {
        None
    }
}

/// The name of the file by which a line ends in the status 30, if it does.
fn fault_name(line: &[u8]) -> Option<&[u8]>
    ensures { IfSome result (λ name.
        (front : List ℕ) × (line.now ≡ front ++ 32 ∷ (name.now ++ codes " 30"))) }
{
    let front = in_front_of_status(line)?;
    let at = last_space(front)?;
    let (_, name) = front.split_at(at + 1);
    Some(name)
}

/// A line of this number, if it ends in a name and the status 30.
fn fault_line(line: &[u8], number: u64) -> Option<FaultLine>
    ensures { IfSome result (λ first. (first.number ≡ number)
        × ((front : List ℕ) × (line.now ≡ front ++ 32 ∷ (first.name.items ++ codes " 30")))) }
{
    let text = fault_name(line)?;
    let mut name = ArrayVec::new();
    match name.try_extend_from_slice(text) {
        Ok(()) => Some(FaultLine { name, number }),
        Err(_) => None,
    }
}

/// Adds a line, if there is room.
fn add_first(firsts: &mut ArrayVec<FaultLine, FILE_LIMIT>, first: FaultLine)
    ensures { (bytes : List ℕ) → AreFaultLines bytes firsts.old.items
        → IsFaultLine bytes first.name.items first.number → AreFaultLines bytes firsts.new.items }
{
    if !firsts.is_full() {
        firsts.push(first);
    }
}

impl FaultLines {
    /// Of no bytes.
    pub(crate) fn new() -> FaultLines
        ensures { AreFaultsOf [] result }
    {
        FaultLines {
            lines: 0,
            fits: true,
            line: ArrayVec::new(),
            firsts: ArrayVec::new(),
        }
    }

    /// The number of the first line by which the file of this name answered 30, if it is noted.
    pub(crate) fn number_of(&self, name: &[u8]) -> Option<u64>
        ensures { (bytes : List ℕ) → AreFaultsOf bytes self.now
            → IfSome result (λ number. ∥ IsFaultLine bytes name.now number ∥₁) }
    {
        for first in &self.firsts {
            if first.name.as_slice() == name {
                return Some(first.number);
            }
        }
        None
    }

    /// The line that is being written, of this number, if a file answers 30 by it.
    fn ended(&self, number: u64) -> Option<FaultLine>
        ensures { TellsLine self.now number result }
    {
        if self.fits {
            fault_line(self.line.as_slice(), number)
        } else {
            None
        }
    }

    /// Notes the line of this number, if it is the first one by which a file answers 30.
    fn keep(&mut self, number: u64)
        ensures { (before : List ℕ) → AreFaultsOf before self.old → number ≡ line_number before
            → AreFaultLines (before ++ 10 ∷ []) self.new.firsts.items }
    {
        let Some(first) = self.ended(number) else {
            return;
        };
        if self.number_of(first.name.as_slice()).is_none() {
            add_first(&mut self.firsts, first);
        }
    }

    /// LF was written.
    pub(crate) fn end_line(&mut self)
        ensures { (before : List ℕ) → AreFaultsOf before self.old → AreFaultsOf (before ++ 10 ∷ []) self.new }
    {
        let number = self.lines.saturating_add(1);
        self.keep(number);
        self.lines = number;
        self.line.clear();
        self.fits = true;
    }

    /// These bytes of one line were written.
    pub(crate) fn pass(&mut self, bytes: &[u8])
        requires { IsWithinLine bytes.now }
        ensures { (before : List ℕ) → AreFaultsOf before self.old → AreFaultsOf (before ++ bytes.now) self.new }
    {
        match self.line.try_extend_from_slice(bytes) {
            Ok(()) => {}
            Err(_) => self.fits = false,
        }
    }
}

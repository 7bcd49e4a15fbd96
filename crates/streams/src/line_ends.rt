//! Whether a line of a transcript ended in a status that a run is not to have.
ghost use Rattle.std.specs.Prelude.{◌≡◌, List, ℕ, [], ◌∷◌, ◌++◌};
ghost use Rattle.streams.specs.LineEnds.{is_failing, is_failed_end, AreEndsOf};
ghost use Rattle.streams.specs.LinesIn.{IsWithinLine};

/// The last three bytes that were written, and whether a line ended in 24, 30, 90, 91 or 92.
#[derive(Clone, Copy, Debug, PartialEq, Eq)]
pub struct LineEnds {
    third: u8,
    second: u8,
    last: u8,
    pub(crate) failed: bool,
}

/// Whether these are the digits of such a status.
fn is_failing(first: u8, second: u8) -> bool
    ensures { result ≡ is_failing first second }
{
    match first {
        b'2' => second == b'4',
        b'3' => second == b'0',
        b'9' => matches!(second, b'0' | b'1' | b'2'),
        _ => false,
    }
}

impl LineEnds {
    /// Of no bytes.
    pub(crate) fn new() -> LineEnds
        ensures { AreEndsOf [] result }
    {
        LineEnds {
            third: b'\n',
            second: b'\n',
            last: b'\n',
            failed: false,
        }
    }

    /// Whether a line ends in such a status where this byte is written next.
    fn fails_by(&self, byte: u8) -> bool
        ensures { result ≡ is_failed_end self.now.third self.now.second self.now.last byte }
    {
        self.third == b' ' && is_failing(self.second, self.last) && byte == b'\n'
    }

    /// One more byte was written.
    fn note_byte(&mut self, byte: u8)
        ensures { (before : List ℕ) → AreEndsOf before self.old → AreEndsOf (before ++ byte ∷ []) self.new }
    {
        let fails = self.fails_by(byte);
        *self = LineEnds {
            third: self.second,
            second: self.last,
            last: byte,
            failed: self.failed || fails,
        };
    }

    /// These bytes of one line were written.
    pub(crate) fn pass(&mut self, bytes: &[u8])
        requires { IsWithinLine bytes.now }
        ensures { (before : List ℕ) → AreEndsOf before self.old → AreEndsOf (before ++ bytes.now) self.new }
    {
        let size = bytes.len();
        if size < 3 {
            self.note(bytes);
            return;
        }
        self.third = bytes[size - 3];
        self.second = bytes[size - 2];
        self.last = bytes[size - 1];
    }

    /// LF was written.
    pub(crate) fn end_line(&mut self)
        ensures { (before : List ℕ) → AreEndsOf before self.old → AreEndsOf (before ++ 10 ∷ []) self.new }
    {
        self.note_byte(b'\n');
    }

    /// These bytes were written.
    fn note(&mut self, bytes: &[u8])
        ensures { (before : List ℕ) → AreEndsOf before self.old → AreEndsOf (before ++ bytes.now) self.new }
    {
        for byte in bytes {
            self.note_byte(*byte);
        }
    }
}

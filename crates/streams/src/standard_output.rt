//! The writer.
ghost use Rattle.std.specs.Prelude.{◌≡◌, ◌∷◌, ◌++◌, [], List, ℕ};
ghost use Rattle.std.specs.Io.{WritesAtMost};
ghost use Rattle.std.specs.Io.KnownBytes.{WriteAppends, Keeps};
ghost use Rattle.streams.specs.Writes.{answered_write, taken_by};
ghost use Rattle.streams.specs.LineEnds.{AreEndsOf, has_failed_line};
ghost use Rattle.streams.specs.FaultLines.{AreFaultsOf, IsFaultLine};
ghost use Rattle.std.specs.Option.{IfSome};

use crate::fault_lines::FaultLines;
use crate::line::split_line;
use crate::line_ends::LineEnds;
use crate::write_record::Record;
use std::io::{self, ErrorKind, Write};

/// A writer over standard output, or another writer, that notes each write, and of a transcript how
/// its lines end.
#[derive(Drop)]
pub struct StandardOutput<W> {
    out: W,
    calls: Record,
    ends: LineEnds,
    faults: FaultLines,
    refused: Option<ErrorKind>,
    ghost noted: { AreEndsOf (taken_by calls.writes) ends },
    ghost faulted: { AreFaultsOf (taken_by calls.writes) faults },
}

/// These bytes were written.
fn note_lines(ends: &mut LineEnds, faults: &mut FaultLines, bytes: &[u8])
    ensures ends { (before : List ℕ) → AreEndsOf before ends.old → AreEndsOf (before ++ bytes.now) ends.new }
    ensures faults { (before : List ℕ) → AreFaultsOf before faults.old
        → AreFaultsOf (before ++ bytes.now) faults.new }
{
    let mut rest = bytes;
    'more: while let Some((line, after)) = split_line(rest) {
        ends.pass(line);
        ends.end_line();
        faults.pass(line);
        faults.end_line();
        rest = after;
    }
    ends.pass(rest);
    faults.pass(rest);
}

impl<W: Write> StandardOutput<W> {
    /// The writer, before the first write.
    pub fn new(out: W) -> StandardOutput<W>
        ensures out { result.out ≡ out }
        ensures nothing { result.calls.writes ≡ [] }
    {
        StandardOutput {
            out,
            calls: Record::new(),
            ends: LineEnds::new(),
            faults: FaultLines::new(),
            refused: None,
        }
    }

    /// The writer below.
    pub fn into_inner(self) -> W
        ensures { result ≡ self.out }
    {
        let StandardOutput {
            out,
            calls: _,
            ends: _,
            faults: _,
            refused: _,
        } = self;
        out
    }

    /// Whether a line that was written ended in a status by which a run is not as it was asked: 24,
    /// 30, 90, 91 or 92.
    pub fn has_failed_line(&self) -> bool
        ensures { result ≡ has_failed_line (taken_by self.now.calls.writes) }
    {
        self.ends.failed
    }

    /// The number of a line of a transcript that was written, from 1 on, by which the file of this
    /// name in the deck answered 30: of the first one, where it is one of the first eight files that
    /// did. None where there is none.
    pub fn fault_line_of(&self, name: &[u8]) -> Option<u64>
        ensures { IfSome result (λ number.
            ∥ IsFaultLine (taken_by self.now.calls.writes) name.now number ∥₁) }
    {
        self.faults.number_of(name)
    }

    /// Why the last write that failed did, if one failed.
    pub fn refusal(&self) -> Option<ErrorKind>
        ensures { result ≡ self.now.refused }
    {
        self.refused
    }
}

impl<W: Write> Write for StandardOutput<W> {
    ghost use Rattle.std.specs.Prelude.{Some};
    ghost use Rattle.streams.specs.Writes.{taken_by};

    ghost contents = { λ w. Some (taken_by w.calls.writes) };

    /// Asks the writer below once, and notes what it answered.
    fn write(&mut self, bytes: &[u8]) -> io::Result<usize>
        ensures bound { WritesAtMost result bytes.now }
        ensures bytes { WriteAppends (Some (taken_by self.old.calls.writes))
            (Some (taken_by self.new.calls.writes)) result bytes.now }
        ensures noted { self.new.calls.writes ≡ answered_write result bytes.now ∷ self.old.calls.writes }
        ensures made { WriteAppends (W.contents self.old.out) (W.contents self.new.out) result bytes.now }
    {
        let answer = self.out.write(bytes);
        match &answer {
            Ok(n) => {
                self.calls.taken(bytes, *n);
                note_lines(&mut self.ends, &mut self.faults, &bytes[..*n]);
            }
            Err(error) => {
                self.calls.failed(bytes);
                self.refused = Some(error.kind());
            }
        }
        answer
    }

    fn flush(&mut self) -> io::Result<()>
        ensures bytes { Keeps (Some (taken_by self.old.calls.writes))
            (Some (taken_by self.new.calls.writes)) }
        ensures made { Keeps (W.contents self.old.out) (W.contents self.new.out) }
    {
        self.out.flush()
    }
}

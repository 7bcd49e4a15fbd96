//! The reader.
ghost use Rattle.std.specs.Prelude.{◌≡◌, ◌∷◌, []};
ghost use Rattle.std.specs.Io.{ReadsAtMost};
ghost use Rattle.std.specs.Io.KnownBytes.{ReadConsumes};
ghost use Rattle.streams.specs.Reads.{answered_read};

use crate::read_record::Record;
use crate::reads_ahead::ReadsAhead;
use std::io::{self, Read};

/// A reader over standard input, or another reader, that notes each read. It stands above the
/// reader with a buffer, where there is one: so what is noted is what was taken of the input, and
/// not what was read ahead.
#[derive(Drop)]
pub struct StandardInput<R> {
    reader: R,
    calls: Record,
}

impl<R: Read> StandardInput<R> {
    /// The reader, before the first read.
    pub fn new(reader: R) -> StandardInput<R>
        ensures reader { result.reader ≡ reader }
        ensures nothing { result.calls.reads ≡ [] }
    {
        StandardInput {
            reader,
            calls: Record::new(),
        }
    }
}

impl<R: ReadsAhead> StandardInput<R> {
    /// The bytes that have come and were not taken yet, as the reader below tells them. Nothing is noted.
    pub fn ahead(&self) -> &[u8]
        ensures { result.now ≡ R.told self.now.reader }
    {
        self.reader.ahead()
    }
}

impl<R: Read> Read for StandardInput<R> {
    ghost remaining = { λ r. R.remaining r.reader };

    /// Asks the reader below once, and notes what it gave.
    fn read(&mut self, part: &mut [u8]) -> io::Result<usize>
        ensures bound { ReadsAtMost result part.new }
        ensures bytes { ReadConsumes (R.remaining self.old.reader)
            (R.remaining self.new.reader) result part.new }
        ensures noted { self.new.calls.reads ≡ answered_read result part.new ∷ self.old.calls.reads }
    {
        let answer = self.reader.read(part);
        match &answer {
            Ok(n) => self.calls.gave(part.len(), &part[..*n]),
            Err(_) => self.calls.failed(part.len()),
        }
        answer
    }
}

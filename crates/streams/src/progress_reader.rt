//! A reader that tells how many bytes have come.
ghost use Rattle.std.specs.Prelude.{◌≡◌};
ghost use Rattle.std.specs.Io.{ReadsAtMost};
ghost use Rattle.std.specs.Io.KnownBytes.{ReadConsumes};

use crate::progress::Progress;
use std::io::{self, Read};

/// A reader over another one, whose bytes it gives. After each read it tells how many bytes have
/// come, of so many in all.
#[derive(Drop)]
pub struct ProgressReader<'p, R, P> {
    reader: R,
    progress: &'p mut P,
    done: u64,
    whole: u64,
}

impl<'p, R: Read, P: Progress> ProgressReader<'p, R, P> {
    /// The reader, before the first read.
    pub fn new(reader: R, whole: u64, progress: &'p mut P) -> ProgressReader<'p, R, P>
        ensures { result.reader ≡ reader }
    {
        ProgressReader {
            reader,
            progress,
            done: 0,
            whole,
        }
    }
}

impl<'p, R: Read, P: Progress> Read for ProgressReader<'p, R, P> {
    ghost remaining = { λ r. R.remaining r.reader };

    /// Asks the reader below once, and tells how many bytes have come.
    fn read(&mut self, part: &mut [u8]) -> io::Result<usize>
        ensures bound { ReadsAtMost result part.new }
        ensures bytes { ReadConsumes (R.remaining self.old.reader)
            (R.remaining self.new.reader) result part.new }
    {
        let answer = self.reader.read(part);
        if let Ok(n) = &answer {
            self.done = self.done.saturating_add(*n as u64);
            self.progress.at(self.done, self.whole);
        }
        answer
    }
}

//! The file that keeps the lines that a load rejects.
ghost use Rattle.std.specs.Prelude.{◌≡◌, ◌⊎◌, true};
ghost use Rattle.record_loading.specs.Kept.{All, NotAll, KeepsMore, IsAllKept, kept_in};

use std::io::{self, ErrorKind, Write};
use streams::StandardOutput;

/// The file that keeps lines, with a record of its writes.
#[derive(Drop)]
pub enum LineFile<W> {
    /// No file is asked for.
    Unasked,
    /// It has taken all bytes.
    Open(StandardOutput<W>),
    /// It was not made, or did not take all bytes. Nothing more is written into it.
    Failed(ErrorKind),
}

impl<W: Write + Drop> LineFile<W> {
    /// A file that was just made, once it has taken these bytes; or why it was not made, or did not take them.
    pub fn begin(made: io::Result<W>, head: &[u8]) -> LineFile<W>
        ensures { (kept_in result ≡ All head.now) ⊎ (kept_in result ≡ NotAll) }
    {
        let mut out = match made {
            Ok(file) => StandardOutput::new(file),
            Err(error) => return LineFile::Failed(error.kind()),
        };
        match out.write_all(head) {
            Ok(()) => LineFile::Open(out),
            Err(error) => LineFile::Failed(error.kind()),
        }
    }

    /// Whether nothing that was to be kept is missing.
    pub fn is_whole(&self) -> bool
        ensures { result ≡ true → IsAllKept (kept_in self.now) }
    {
        !matches!(self, LineFile::Failed(_))
    }

    /// Keeps bytes, if a file is asked for.
    pub fn keep(&mut self, bytes: &[u8])
        ensures { KeepsMore (kept_in self.old) bytes.now (kept_in self.new) }
    {
        let refusal = match self {
            LineFile::Open(out) => match out.write_all(bytes) {
                Ok(()) => return,
                Err(error) => error.kind(),
            },
            _ => return,
        };
        *self = LineFile::Failed(refusal);
    }

    /// Brings what the file has to the disk. Whether it has all that was to be kept, or none is asked for.
    pub fn finish(&mut self) -> bool
        ensures same { result ≡ true → kept_in self.new ≡ kept_in self.old }
        ensures whole { result ≡ true → IsAllKept (kept_in self.old) }
    {
        let refusal = match self {
            LineFile::Unasked => return true,
            LineFile::Open(out) => match out.flush() {
                Ok(()) => return true,
                Err(error) => error.kind(),
            },
            LineFile::Failed(_) => return false,
        };
        *self = LineFile::Failed(refusal);
        false
    }

    /// Why the file was not made, or did not take all bytes.
    pub fn refusal(&self) -> Option<ErrorKind> {
        match self {
            LineFile::Failed(kind) => Some(*kind),
            _ => None,
        }
    }
}

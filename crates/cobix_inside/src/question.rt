//! A question.
//!
//! | Bytes | Content |
//! |---|---|
//! | 0 to 7 | what is asked |
//! | 8 to 15 | the number of the open file, or 0 |
//! | 16 to 23 | where in the file, or how it is opened, or 0 |
//! | 24 to 31 | how many bytes are asked for, or follow, or 0 |
//! | 32 to the end | a path, or the bytes that are to be written |
//!
//! All numbers are little-endian.
ghost use Rattle.std.specs.Prelude.{◌≡◌, OnOk};
ghost use Rattle.std.specs.Io.KnownBytes.{Appends};
ghost use Rattle.cobix_inside.specs.Questions.{opening_code, question_numbers, follows, question_bytes};

use byteorder::{ByteOrder, LittleEndian};
use std::io::{self, Write};

/// How a file is opened. No link is followed.
#[derive(Clone, Copy, Debug, PartialEq, Eq)]
pub enum Opening {
    /// To be read. A folder may be opened so, to be synced.
    ToRead,
    /// To be read and written.
    ToWrite,
    /// Made, where nothing has its name, and to be read and written.
    New,
}

impl Opening {
    fn code(self) -> u64
        ensures { result ≡ opening_code self }
    {
        match self {
            Opening::ToRead => 0,
            Opening::ToWrite => 1,
            Opening::New => 2,
        }
    }
}

/// What is asked of the system. An open file is known by the number that `Open` was answered.
#[derive(Clone, Copy, Debug)]
pub enum Question<'a> {
    /// The number of the file, once it is open.
    Open { opening: Opening, path: &'a str },
    Close { file: u64 },
    /// The length of the plain file of this name.
    Look { path: &'a str },
    /// The length of the open file.
    Measure { file: u64 },
    /// How many bytes came, and then these bytes.
    Read { file: u64, at: u64, count: usize },
    /// How many of the bytes were taken.
    Write { file: u64, at: u64, bytes: &'a [u8] },
    Sync { file: u64 },
    /// The lock that those who read have side by side.
    Share { file: u64 },
    /// The lock that one alone has.
    Claim { file: u64 },
    Release { file: u64 },
    /// 1 where the path names this very file, else 0.
    Names { file: u64, path: &'a str },
}

impl<'a> Question<'a> {
    // What is asked, the file, where, and how many.
    fn numbers(&self) -> [u64; 4]
        ensures { result ≡ question_numbers self.now }
    {
        match *self {
            Question::Open { opening, path } => [0, 0, opening.code(), path.len() as u64],
            Question::Close { file } => [1, file, 0, 0],
            Question::Look { path } => [2, 0, 0, path.len() as u64],
            Question::Measure { file } => [3, file, 0, 0],
            Question::Read { file, at, count } => [4, file, at, count as u64],
            Question::Write { file, at, bytes } => [5, file, at, bytes.len() as u64],
            Question::Sync { file } => [6, file, 0, 0],
            Question::Share { file } => [7, file, 0, 0],
            Question::Claim { file } => [8, file, 0, 0],
            Question::Release { file } => [9, file, 0, 0],
            Question::Names { file, path } => [10, file, 0, path.len() as u64],
        }
    }

    // The bytes behind the numbers.
    fn follows(&self) -> &'a [u8]
        ensures { result.now ≡ follows self.now }
    {
        match *self {
            Question::Open { path, .. } => path.as_bytes(),
            Question::Look { path } => path.as_bytes(),
            Question::Names { path, .. } => path.as_bytes(),
            Question::Write { bytes, .. } => bytes,
            _ => &[],
        }
    }
}

/// Writes a question: its numbers in one piece, and what follows them, if anything does, in
/// another one. An error is that of the writer, which may have taken a front of it.
pub fn put_question<W: Write>(output: &mut W, question: &Question<'_>) -> io::Result<()>
    ensures { OnOk result (Appends (W.contents output.old) (W.contents output.new)
        (question_bytes question.now)) }
{
    let mut numbers = [0; 32];
    LittleEndian::write_u64_into(&question.numbers(), &mut numbers);
    output.write_all(&numbers)?;
    output.write_all(question.follows())
}

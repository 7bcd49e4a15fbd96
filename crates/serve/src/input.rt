//! The next frame of the input.
ghost use Rattle.std.specs.Prelude.{◌≡◌, ◌⊎◌, ◌<◌, true, false, []};
ghost use Rattle.streams.specs.Source.{source_of};
ghost use Rattle.serve.specs.Input.{ReadsSome, ReadsWhole, Came, BeginsWithFrame};

use crate::frame::length_of;
use crate::request::LENGTH_LIMIT;
use std::io::{ErrorKind, Read};
use streams::{HeldText, ReadsAhead, StandardInput};

/// So many interrupted reads in a row are a fault of the input.
const MOST_INTERRUPTED: u32 = 1000;

/// A read failed.
#[derive(Clone, Copy, Debug, PartialEq, Eq)]
pub struct InputFailed;

/// What comes next in the input.
#[derive(Clone, Copy, Debug, PartialEq, Eq)]
pub enum Next {
    /// A frame, whose body is so many of the first bytes of the buffer.
    Frame(usize),
    /// A length past the limit. Nothing behind it was read.
    TooLong,
    /// No whole frame: the input ended.
    End,
}

/// Reads a part, and answers how many bytes came: none at the end.
fn read_part<R: Read>(reader: &mut StandardInput<R>, part: &mut [u8]) -> Result<usize, InputFailed>
    ensures { ReadsSome (source_of R.remaining reader.old) (source_of R.remaining reader.new)
        part.old part.new result }
{
    for _ in 0..MOST_INTERRUPTED {
        match reader.read(part) {
            Ok(n) => return Ok(n),
            Err(error) => {
                if error.kind() != ErrorKind::Interrupted {
                    return Err(InputFailed);
                }
            }
        }
    }
    Err(InputFailed)
}

/// Reads as many bytes as there is room for, and answers whether there were so many.
fn read_whole<R: Read>(reader: &mut StandardInput<R>, room: &mut [u8]) -> Result<bool, InputFailed>
    ensures { ReadsWhole (source_of R.remaining reader.old) (source_of R.remaining reader.new)
        room.old room.new result }
{
    let mut at = 0;
    'more: while at < room.len() {
        let n = read_part(reader, &mut room[at..])?;
        if n == 0 {
            return Ok(false);
        }
        at += n;
    }
    Ok(true)
}

/// Reads the next frame, and no byte behind it. It may wait, so no answer is held then, unless the
/// frame has come whole.
pub fn read_frame<R: Read + ReadsAhead>(
    reader: &mut StandardInput<R>,
    buffer: &mut [u8; LENGTH_LIMIT],
    _held: &HeldText,
) -> Result<Next, InputFailed>
    requires none_waits { (_held.now ≡ []) ⊎ BeginsWithFrame (R.told reader.old.reader) }
    ensures { Came (source_of R.remaining reader.old) (source_of R.remaining reader.new) buffer.new result }
{
    let mut head = [0; 2];
    match read_whole(reader, &mut head) {
        Ok(true) => {}
        Ok(false) => return Ok(Next::End),
        Err(failed) => return Err(failed),
    }
    let size = usize::from(length_of(&head));
    if size > LENGTH_LIMIT {
        return Ok(Next::TooLong);
    }
    match read_whole(reader, &mut buffer[..size]) {
        Ok(true) => Ok(Next::Frame(size)),
        Ok(false) => Ok(Next::End),
        Err(failed) => Err(failed),
    }
}

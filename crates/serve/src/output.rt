//! The writing of answers, all of them.
ghost use Rattle.std.specs.Io.KnownBytes.{Keeps};
ghost use Rattle.serve.specs.Output.{Sends};

use std::io::Write;
use streams::{Refused, write_text};

/// Has the writer hand on what it took.
pub fn hand_on<W: Write>(out: &mut W) -> Result<(), Refused>
    ensures { Keeps (W.contents out.old) (W.contents out.new) }
{
    match out.flush() {
        Ok(()) => Ok(()),
        Err(_) => Err(Refused),
    }
}

/// Writes frames, and has the writer hand them on. A writer refuses them as `write_text` says, or
/// where it does not hand them on.
pub fn send_frames<W: Write>(out: &mut W, frames: &[u8]) -> Result<(), Refused>
    ensures { Sends (W.contents out.old) (W.contents out.new) frames.now result }
{
    write_text(out, frames)?;
    hand_on(out)
}
